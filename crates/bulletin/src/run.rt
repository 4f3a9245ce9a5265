// The bulletin end reads runs of network bytes. As the printer end's: what is common is `reader::read_bytes`; the answers differ in type.
ghost use Rattle.std.specs.Prelude.{◌≡◌};
ghost use Rattle.lists.specs.Buffers.{lent};
ghost use Rattle.bulletin.specs.State.{BulletinState, Effect, CallEffect};
ghost use Rattle.bulletin.specs.NetworkRun.{bulletin_byte};
ghost use Rattle.bulletin.specs.NetworkEnd.{lawful, Keeps};
ghost use Rattle.bulletin.specs.Refinement.{view_bulletin};
ghost use Rattle.bulletin.specs.RefinementOfRuns.{RefinesRun, begun_run, refused_run};

use crate::{Bulletin, RunAnswer, network, stretches};
use codes::{Code, Note};
use reader::{ByteOutcome, ReadsNetwork};

impl ReadsNetwork for Bulletin {
    ghost State = { BulletinState };

    ghost Effect = { Effect };

    ghost Answer = { CallEffect };

    ghost rule = { bulletin_byte };

    ghost laws = { lawful };

    ghost view = { view_bulletin };

    ghost Kept = { Keeps };

    ghost still = { λ s. record { clean = λ k. k; whole = λ k. k } };

    ghost onward = { λ r s t f g. record { clean = λ k. g.clean (f.clean k); whole = λ k. g.whole (f.whole k) } };

    fn plain_front(&self, bytes: &[u8]) -> usize {
        stretches::data_stretch(self.reader.phase, self.waits, bytes)
    }

    fn read(&mut self, b: u8, host: &mut [u8], wire: &mut [u8]) -> ByteOutcome {
        let step = network::network_read(*self, b, host, wire);
        *self = step.state;
        ByteOutcome {
            note: step.note,
            first: step.host,
            wire: step.wire,
        }
    }
}

// A refusal: the state that was given, and nothing written.
pub fn refused(s: Bulletin, code: Code) -> RunAnswer
    ensures { result ≡ refused_run s code }
{
    RunAnswer {
        code,
        note: Note::Clear,
        taken: 0,
        host: 0,
        wire: 0,
        state: s,
    }
}

// A run that was not refused.
pub fn read_bytes(s: Bulletin, bytes: &[u8], host: &mut [u8], wire: &mut [u8]) -> RunAnswer
    ensures { RefinesRun (begun_run (view_bulletin s) bytes.now) s (lent host) (lent wire) result }
{
    let mut state = s;
    let ran = reader::read_bytes(&mut state, bytes, host, wire);
    RunAnswer {
        code: Code::Done,
        note: ran.note,
        taken: ran.taken,
        host: ran.first,
        wire: ran.wire,
        state,
    }
}
