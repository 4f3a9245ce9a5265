// A run of network bytes at the printer end, on arrays that the host lends. Plain bytes are copied without a look at the arrays
// that they do not touch.
ghost use Rattle.std.specs.Prelude.{◌≡◌, false, length};
ghost use Rattle.codes.specs.Answers.{no_room};
ghost use Rattle.std.proofs.Common.{rules};
ghost use Rattle.lists.specs.Buffers.{lent};
ghost use Rattle.printer.specs.State.{PrinterState, Effect, CallEffect};
ghost use Rattle.printer.specs.NetworkRun.{printer_byte};
ghost use Rattle.printer.specs.NetworkEnd.{lawful};
ghost use Rattle.printer.specs.Network.{network_read};
ghost use Rattle.printer.specs.Refinement.{view_printer};
ghost use Rattle.printer.specs.RefinementOfRuns.{begun_run};
ghost use Rattle.session_arrays.specs.PrinterArrays.{decoded_printer, arrays_in, lent_between, SameArrays};
ghost use Rattle.session_arrays.specs.PrinterRuns.{view_lent, Keeps, RefinesByteOnPrinterArrays, RefinesRunOnPrinterArrays, parts_in, stretch_in, is_plain_in, in_place_of, ReadsInPlace};

use crate::printer_arrays::LentPrinterArrays;
use crate::{RunOutcome, numbers, printer_arrays};
use codes::Note;
use printer::{Parts, calls, in_place};
use reader::{ByteOutcome, ReadsNetwork};

fn parts_in(small: &[u8; 22]) -> Parts
    ensures { result ≡ parts_in small.now }
{
    Parts {
        sides: numbers::sides_in(small),
        phase: small[9].into(),
        held: small[11] != 0,
    }
}

// How many bytes at the front are plain.
fn stretch_in(small: &[u8; 22], marks: &[u16; 256], bytes: &[u8]) -> usize
    ensures { result ≡ stretch_in small.now marks.now bytes.now }
{
    parts_in(small).data_stretch(marks, bytes)
}

// A byte by itself is plain.
pub fn is_plain(small: &[u8; 22], marks: &[u16; 256], b: u8) -> bool
    ensures { result ≡ is_plain_in small.now marks.now b }
{
    parts_in(small).is_plain(marks, b)
}

impl ReadsNetwork for LentPrinterArrays<'_> {
    ghost State = { PrinterState };

    ghost Effect = { Effect };

    ghost Answer = { CallEffect };

    ghost rule = { printer_byte };

    ghost laws = { lawful };

    ghost view = { view_lent };

    ghost Kept = { Keeps };

    ghost still = { λ a. Prim.search rules };

    ghost onward = { λ a b c f g. Prim.search rules };

    fn plain_front(&self, bytes: &[u8]) -> usize {
        stretch_in(self.small, self.marks, bytes)
    }

    fn read(&mut self, b: u8, paper: &mut [u8], wire: &mut [u8]) -> ByteOutcome {
        match self.read_in_place(b, paper, wire) {
            Some(read) => read,
            None => self.read_by_value(b, paper, wire),
        }
    }
}

impl LentPrinterArrays<'_> {
    // A byte from the small parts and the macros alone, if it changes nothing but the option states and the phase.
    fn read_in_place(&mut self, b: u8, paper: &mut [u8], wire: &mut [u8]) -> Option<ByteOutcome>
        requires { no_room (length paper.old) (length wire.old) ≡ false }
        ensures reads { ReadsInPlace (in_place_of (arrays_in self.old) b) (network_read (view_printer (decoded_printer (arrays_in self.old))) b) (lent_between self.old self.new) (lent paper) (lent wire) result }
        ensures same_arrays { SameArrays self.old self.new }
    {
        let read = in_place::read(parts_in(self.small), self.marks, self.cells, b, paper, wire)?;
        printer_arrays::put_in_place(read.parts.sides, read.parts.phase, self.small);
        Some(ByteOutcome {
            note: Note::Clear,
            first: read.paper,
            wire: read.wire,
        })
    }

    // A byte by value, the state stored.
    fn read_by_value(&mut self, b: u8, paper: &mut [u8], wire: &mut [u8]) -> ByteOutcome
        requires { no_room (length paper.old) (length wire.old) ≡ false }
        ensures reads { RefinesByteOnPrinterArrays (network_read (view_printer (decoded_printer (arrays_in self.old))) b) (lent_between self.old self.new) (lent paper) (lent wire) result }
        ensures same_arrays { SameArrays self.old self.new }
    {
        let a = calls::network_byte(self.decoded(), b, paper, wire);
        self.store(a.state);
        ByteOutcome {
            note: a.note,
            first: a.paper,
            wire: a.wire,
        }
    }

    // A run that was not refused.
    pub fn read_bytes(&mut self, bytes: &[u8], paper: &mut [u8], wire: &mut [u8]) -> RunOutcome
        ensures reads { RefinesRunOnPrinterArrays (begun_run (view_printer (decoded_printer (arrays_in self.old))) bytes.now) (lent_between self.old self.new) (lent paper) (lent wire) result }
        ensures same_arrays { SameArrays self.old self.new }
    {
        reader::read_bytes(self, bytes, paper, wire).into()
    }
}
