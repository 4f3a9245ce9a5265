// A run of network bytes at the bulletin end, on arrays that the host lends. Plain bytes are copied, and most others change the
// small parts alone; only for the rest is the state built by value.
ghost use Rattle.std.specs.Prelude.{◌≡◌, false, length};
ghost use Rattle.std.proofs.Common.{rules};
ghost use Rattle.lists.specs.Buffers.{lent};
ghost use Rattle.bulletin.specs.State.{BulletinState, Effect, CallEffect};
ghost use Rattle.bulletin.specs.NetworkRun.{bulletin_byte};
ghost use Rattle.bulletin.specs.NetworkEnd.{lawful};
ghost use Rattle.codes.specs.Answers.{no_room};
ghost use Rattle.bulletin.specs.Network.{network_read};
ghost use Rattle.bulletin.specs.Refinement.{view_bulletin};
ghost use Rattle.bulletin.specs.RefinementOfRuns.{begun_run};
ghost use Rattle.session_arrays.specs.BulletinArrays.{decoded_bulletin, arrays_in, lent_between, SameArrays};
ghost use Rattle.session_arrays.specs.BulletinRuns.{view_lent, Keeps, parts_in, stretch_in, is_plain_in, in_place_in, ReadsInPlace, RefinesByteOnBulletinArrays, RefinesRunOnBulletinArrays};

use crate::bulletin_arrays::LentBulletinArrays;
use crate::{RunOutcome, bulletin_arrays, numbers};
use bulletin::in_place::Parts;
use bulletin::{calls, in_place, stretches};
use codes::Note;
use reader::{ByteOutcome, ReadsNetwork};

fn parts_in(small: &[u8; 23]) -> Parts
    ensures { result ≡ parts_in small.now }
{
    Parts {
        sides: numbers::sides_in(small),
        phase: small[9].into(),
        waits: bulletin_arrays::waits_in(small),
    }
}

// How many bytes at the front are plain. The sides say nothing of it, and are not found in their numbers for it.
fn stretch_in(small: &[u8; 23], bytes: &[u8]) -> usize
    ensures { result ≡ stretch_in small.now bytes.now }
{
    stretches::data_stretch(small[9].into(), bulletin_arrays::waits_in(small), bytes)
}

// A byte by itself is plain.
pub fn is_plain(small: &[u8; 23], b: u8) -> bool
    ensures { result ≡ is_plain_in small.now b }
{
    stretches::is_plain(small[9].into(), bulletin_arrays::waits_in(small), b)
}

impl ReadsNetwork for LentBulletinArrays<'_> {
    ghost State = { BulletinState };

    ghost Effect = { Effect };

    ghost Answer = { CallEffect };

    ghost rule = { bulletin_byte };

    ghost laws = { lawful };

    ghost view = { view_lent };

    ghost Kept = { Keeps };

    ghost still = { λ a. Prim.search rules };

    ghost onward = { λ a b c f g. Prim.search rules };

    fn plain_front(&self, bytes: &[u8]) -> usize {
        stretch_in(self.small, bytes)
    }

    fn read(&mut self, b: u8, host: &mut [u8], wire: &mut [u8]) -> ByteOutcome {
        match self.read_in_place(b, host, wire) {
            Some(read) => read,
            None => self.read_by_value(b, host, wire),
        }
    }
}

impl LentBulletinArrays<'_> {
    // A byte from the small parts alone, if it changes nothing but the option states, the phase and the waits.
    fn read_in_place(&mut self, b: u8, host: &mut [u8], wire: &mut [u8]) -> Option<ByteOutcome>
        requires { no_room (length host.old) (length wire.old) ≡ false }
        ensures reads { ReadsInPlace (in_place_in (arrays_in self.old).small b) (network_read (view_bulletin (decoded_bulletin (arrays_in self.old))) b) (lent_between self.old self.new) (lent host) (lent wire) result }
        ensures same_arrays { SameArrays self.old self.new }
    {
        let read = in_place::read(parts_in(self.small), b, host, wire)?;
        bulletin_arrays::put_in_place(read.parts, self.small);
        Some(ByteOutcome {
            note: Note::Clear,
            first: read.host,
            wire: read.wire,
        })
    }

    // A byte by value, the state stored.
    fn read_by_value(&mut self, b: u8, host: &mut [u8], wire: &mut [u8]) -> ByteOutcome
        requires { no_room (length host.old) (length wire.old) ≡ false }
        ensures reads { RefinesByteOnBulletinArrays (network_read (view_bulletin (decoded_bulletin (arrays_in self.old))) b) (lent_between self.old self.new) (lent host) (lent wire) result }
        ensures same_arrays { SameArrays self.old self.new }
    {
        let a = calls::network_byte(self.decoded(), b, host, wire);
        self.store(a.state);
        ByteOutcome {
            note: a.note,
            first: a.host,
            wire: a.wire,
        }
    }

    // A run that was not refused.
    pub fn read_bytes(&mut self, bytes: &[u8], host: &mut [u8], wire: &mut [u8]) -> RunOutcome
        ensures reads { RefinesRunOnBulletinArrays (begun_run (view_bulletin (decoded_bulletin (arrays_in self.old))) bytes.now) (lent_between self.old self.new) (lent host) (lent wire) result }
        ensures same_arrays { SameArrays self.old self.new }
    {
        reader::read_bytes(self, bytes, host, wire).into()
    }
}
