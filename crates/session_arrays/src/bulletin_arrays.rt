// The bulletin end's state in arrays that the host lends: found there, and stored there.
ghost use Rattle.std.specs.Prelude.{◌≡◌, ◌≤◌, length};
ghost use Rattle.session_arrays.specs.Numbers.{sides_in, values_in};
ghost use Rattle.session_arrays.specs.BulletinArrays.{
  waits_in,
  wait_numbers,
  decoded_bulletin,
  encoded_bulletin,
  small_of_bulletin,
  small_in_place,
  bulletin_outcome,
  arrays_of_bulletin,
  arrays_in,
  lent_between,
  SameArrays,
  KeepsBulletin,
};

use crate::{Outcome, numbers};
use bulletin::in_place::Parts;
use bulletin::{Answer, Bulletin};
use codes::{Code, Each};
use disposition::{AllValues, Waits};
use issues::Issues;
use negotiation::Sides;
use reader::BODY_ROOM;
use received_macros::{ROOM, Texts};
use sent_macros::SendingTable;

// The arrays, lent one by one. What stands where is told in `include/prambow.h`.
// A struct for each end: number, sizes and meaning of the arrays differ.
#[derive(Drop)]
pub struct LentBulletinArrays<'a> {
    pub small: &'a mut [u8; 23],
    pub counts: &'a mut [usize; 1],
    pub body: &'a mut [u8; BODY_ROOM],
    pub statuses: &'a mut [u8; 256],
    pub marks: &'a mut [u16; 256],
    pub cells: &'a mut [u8; ROOM],
    pub issue: &'a mut [u16; 1],
    pub kept: &'a mut [u16; 256],
}

pub fn sides_in(small: &[u8; 23]) -> Sides
    ensures { result ≡ sides_in small.now }
{
    numbers::sides_in(small)
}

pub fn values_in(small: &[u8; 23]) -> AllValues
    ensures { result ≡ values_in small.now 15 }
{
    numbers::values_in(small, 15)
}

// The state that the arrays stand for, also where they are lent to look at alone.
pub fn decoded(
    small: &[u8; 23],
    counts: &[usize; 1],
    body: &[u8; BODY_ROOM],
    statuses: &[u8; 256],
    marks: &[u16; 256],
    cells: &[u8; ROOM],
    issue: &[u16; 1],
    kept: &[u16; 256],
) -> Bulletin
    ensures { result ≡ decoded_bulletin (arrays_of_bulletin small.now counts.now body.now statuses.now marks.now cells.now issue.now kept.now) }
{
    Bulletin {
        sides: sides_in(small),
        reader: numbers::reader_of(small[9], small[10], counts[0], body),
        table: SendingTable {
            statuses: *statuses,
            texts: Texts {
                marks: *marks,
                cells: *cells,
            },
        },
        values: values_in(small),
        waits: waits_in(small),
        issues: Issues {
            present: issue[0],
            kept: *kept,
        },
    }
}

impl LentBulletinArrays<'_> {
    pub fn decoded(&self) -> Bulletin
        ensures { result ≡ decoded_bulletin (arrays_in self.now) }
    {
        // Written out once more, as at the printer end.
        let counts = *self.counts;
        let issue = *self.issue;
        Bulletin {
            sides: sides_in(self.small),
            reader: numbers::reader_in(self.small, counts[0], self.body),
            table: SendingTable {
                statuses: *self.statuses,
                texts: Texts {
                    marks: *self.marks,
                    cells: *self.cells,
                },
            },
            values: values_in(self.small),
            waits: waits_in(self.small),
            issues: Issues {
                present: issue[0],
                kept: *self.kept,
            },
        }
    }

    // Lent, as at the printer end.
    fn put(&mut self, s: &Bulletin)
        ensures stored { arrays_in self.new ≡ encoded_bulletin s.now }
        ensures same_arrays { SameArrays self.old self.new }
    {
        *self.small = small_of(s);
        *self.counts = [s.reader.len];
        *self.body = s.reader.body;
        *self.statuses = s.table.statuses;
        *self.marks = s.table.texts.marks;
        *self.cells = s.table.texts.cells;
        *self.issue = [s.issues.present];
        *self.kept = s.issues.kept;
    }

    pub fn store(&mut self, s: Bulletin)
        ensures stored { arrays_in self.new ≡ encoded_bulletin s }
        ensures same_arrays { SameArrays self.old self.new }
    {
        self.put(&s);
    }

    // A call's answer in numbers; its state is stored if it is done, so that a refusal changes nothing.
    pub fn kept(&mut self, a: &Answer) -> Outcome
        ensures keeps { KeepsBulletin a.now (lent_between self.old self.new) result }
        ensures same_arrays { SameArrays self.old self.new }
    {
        let outcome = numbers::outcome(a.code, a.note, a.host, a.wire);
        if matches!(a.code, Code::Done) {
            self.put(&a.state);
        }
        outcome
    }
}

impl From<Answer> for Outcome {
    ghost from_gives = { λ a o. o ≡ bulletin_outcome a };

    fn from(a: Answer) -> Outcome {
        numbers::outcome(a.code, a.note, a.host, a.wire)
    }
}

// For which options output waits.
pub fn waits_in(small: &[u8; 23]) -> Waits
    ensures { result ≡ waits_in small.now }
{
    Each {
        naocrd: small[11] != 0,
        naolfd: small[12] != 0,
        naoffd: small[13] != 0,
        naohtd: small[14] != 0,
    }
}

fn wait_numbers(w: Waits) -> [u8; 4]
    ensures { result ≡ wait_numbers w }
{
    [
        w.naocrd.into(),
        w.naolfd.into(),
        w.naoffd.into(),
        w.naohtd.into(),
    ]
}

fn small_of(s: &Bulletin) -> [u8; 23]
    ensures { result ≡ small_of_bulletin s.now }
{
    let mut small = [0; 23];
    small[..10].copy_from_slice(&numbers::sides_and_phase(s.sides, s.reader.phase));
    small[10] = s.reader.marred.into();
    small[11..15].copy_from_slice(&wait_numbers(s.waits));
    small[15..].copy_from_slice(&numbers::value_numbers(s.values));
    small
}

// Stores the option states, the reader's phase and the waits alone.
pub fn put_in_place(parts: Parts, small: &mut [u8; 23])
    ensures { small.new ≡ small_in_place small.old parts }
{
    small[..10].copy_from_slice(&numbers::sides_and_phase(parts.sides, parts.phase));
    small[11..15].copy_from_slice(&wait_numbers(parts.waits));
}
