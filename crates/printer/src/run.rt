// The printer end reads runs of network bytes.
ghost use Rattle.std.specs.Prelude.{◌≡◌, false, length};
ghost use Rattle.codes.specs.Answers.{no_room};
ghost use Rattle.lists.specs.Buffers.{lent};
ghost use Rattle.printer.specs.State.{PrinterState, Effect, CallEffect};
ghost use Rattle.printer.specs.NetworkRun.{printer_byte};
ghost use Rattle.printer.specs.NetworkEnd.{lawful, Keeps, Reads, in_place_of, ReadsInPlace};
ghost use Rattle.printer.specs.Refinement.{view_printer};
ghost use Rattle.printer.specs.RefinementOfRuns.{RefinesRun, begun_run, refused_run};

use crate::{Printer, RunAnswer, in_place, network};
use codes::{Code, Note};
use reader::{ByteOutcome, ReadsNetwork};

impl ReadsNetwork for Printer {
    ghost State = { PrinterState };

    ghost Effect = { Effect };

    ghost Answer = { CallEffect };

    ghost rule = { printer_byte };

    ghost laws = { lawful };

    ghost view = { view_printer };

    ghost Kept = { Keeps };

    ghost still = { λ s. record { clean = λ k. k; whole = λ k. k } };

    ghost onward = { λ r s t f g. record { clean = λ k. g.clean (f.clean k); whole = λ k. g.whole (f.whole k) } };

    fn plain_front(&self, bytes: &[u8]) -> usize {
        self.parts().data_stretch(&self.table.marks, bytes)
    }

    fn read(&mut self, b: u8, paper: &mut [u8], wire: &mut [u8]) -> ByteOutcome {
        match self.read_in_place(b, paper, wire) {
            Some(read) => read,
            None => self.read_by_value(b, paper, wire),
        }
    }
}

impl Printer {
    // A byte that changes nothing but the option states and the phase: the rest of the state stays where it lies.
    fn read_in_place(&mut self, b: u8, paper: &mut [u8], wire: &mut [u8]) -> Option<ByteOutcome>
        requires { no_room (length paper.old) (length wire.old) ≡ false }
        ensures { ReadsInPlace (in_place_of self.old b) b self.old self.new (lent paper) (lent wire) result }
    {
        let table = &self.table;
        let read = in_place::read(self.parts(), &table.marks, &table.cells, b, paper, wire)?;
        self.sides = read.parts.sides;
        self.reader.phase = read.parts.phase;
        Some(ByteOutcome {
            note: Note::Clear,
            first: read.paper,
            wire: read.wire,
        })
    }

    fn read_by_value(&mut self, b: u8, paper: &mut [u8], wire: &mut [u8]) -> ByteOutcome
        requires { no_room (length paper.old) (length wire.old) ≡ false }
        ensures { Reads b self.old self.new (lent paper) (lent wire) result }
    {
        let step = network::network_read(*self, b, paper, wire);
        *self = step.state;
        ByteOutcome {
            note: step.note,
            first: step.paper,
            wire: step.wire,
        }
    }
}

// A refusal: the state that was given, and nothing written. As the other end's, like read_bytes: what is common is
// `reader::read_bytes`, and the answers differ in type.
pub fn refused(s: Printer, code: Code) -> RunAnswer
    ensures { result ≡ refused_run s code }
{
    RunAnswer {
        code,
        note: Note::Clear,
        taken: 0,
        paper: 0,
        wire: 0,
        state: s,
    }
}

// A run that was not refused.
pub fn read_bytes(s: Printer, bytes: &[u8], paper: &mut [u8], wire: &mut [u8]) -> RunAnswer
    ensures { RefinesRun (begun_run (view_printer s) bytes.now) s (lent paper) (lent wire) result }
{
    let mut state = s;
    let ran = reader::read_bytes(&mut state, bytes, paper, wire);
    RunAnswer {
        code: Code::Done,
        note: ran.note,
        taken: ran.taken,
        paper: ran.first,
        wire: ran.wire,
        state,
    }
}
