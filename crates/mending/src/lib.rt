// Mending a capture of the line toward the printer: what a printer end could not read is dropped, the rest is copied.
#![tactic(auto)]

ghost use Rattle.std.specs.Prelude.{length, ◌≡◌, ◌≤◌, ◌<◌, ◌+◌, ◌^◌};
ghost use Rattle.lists.specs.Buffers.{lent, RoomFor};
ghost use Rattle.mending.specs.Mending.{capture_room, mends_to, mended, drops, lines_of, lacks_room, mend_call};
ghost use Rattle.mending.specs.declared.Outcome.TheVariants.{Mended};
ghost use Rattle.mending.specs.Refinement.{both_scanned, RefinesAnswer};

mod judging;
mod lines;
mod pieces;
mod scanning;

// The longest capture that is mended, and the room for it.
pub const CAPTURE_ROOM: usize = 65536;

// The room for the lines of its drops.
pub const LIST_ROOM: usize = 327685;

// The two scanners call each other, so that their depth grows with the bytes that they are given: no more than these, and
// one command that begins in them.
const PART: usize = 256;

// Why a piece is dropped: a body that is unreadable, a stray command, an unfinished command at the capture's end.
#[derive(Clone, Copy)]
pub enum Reason {
    Unreadable,
    Stray,
    Unfinished,
}

// The first piece of what is left of a capture, a byte of text or a command: it is copied, or dropped.
#[derive(Clone, Copy)]
pub struct Found {
    pub size: usize,
    pub judged: Result<(), Reason>,
}

// What a scan took of the capture, and wrote to the two buffers.
#[derive(Clone, Copy)]
pub struct Scanned {
    pub taken: usize,
    pub written: usize,
    pub listed: usize,
}

impl Scanned {
    // Two scans, the second of what is behind the first.
    fn then(self, next: Scanned) -> Scanned
        requires taken_fits { self.taken + next.taken < 2 ^ 64 }
        requires written_fits { self.written + next.written < 2 ^ 64 }
        requires listed_fits { self.listed + next.listed < 2 ^ 64 }
        ensures { result ≡ both_scanned self next }
    {
        Scanned {
            taken: self.taken + next.taken,
            written: self.written + next.written,
            listed: self.listed + next.listed,
        }
    }
}

// A capture is mended unless it is too long, or a buffer is under its room.
#[derive(Clone, Copy)]
pub enum Outcome {
    Mended,
    TooLong,
    NoRoom,
}

// No Result: a refusal has its counts too, since `too long` stands in the list.
#[derive(Clone, Copy)]
pub struct Answer {
    pub outcome: Outcome,
    pub written: usize,
    pub listed: usize,
}

// A capture that is not too long, part by part.
fn mend_parts(capture: &[u8], out: &mut [u8], list: &mut [u8]) -> Answer
    requires capture_len_bound { length capture.now ≤ capture_room }
    requires room_for { RoomFor (mended capture.now) out.old }
    requires room_for_2 { RoomFor (lines_of (drops capture.now)) list.old }
    ensures { RefinesAnswer (mends_to Mended (mended capture.now) (lines_of (drops capture.now))) (lent out) (lent list) result }
{
    let mut done = Scanned {
        taken: 0,
        written: 0,
        listed: 0,
    };
    // No `for`: a step goes as far as the scan took, which no iterator knows before.
    while done.taken < capture.len() {
        done = done.then(scanning::scan_text(
            &capture[done.taken..],
            done.taken,
            PART,
            &mut out[done.written..],
            &mut list[done.listed..],
        ));
    }
    Answer {
        outcome: Outcome::Mended,
        written: done.written,
        listed: done.listed,
    }
}

// Whether a buffer is under its room.
fn lacks_room(out: usize, list: usize) -> bool
    ensures { result ≡ lacks_room out list }
{
    out < CAPTURE_ROOM || list < LIST_ROOM
}

// The mended capture at the start of one buffer, and at the start of the other a line for each drop, or `too long`.
#[tactic(auto, using(crate::proofs::Fits::mending_fits), unfolding(crate::specs::Mending::mend_call))]
pub fn mend(capture: &[u8], out: &mut [u8], list: &mut [u8]) -> Answer
    ensures { RefinesAnswer (mend_call capture.now (length out.old) (length list.old)) (lent out) (lent list) result }
{
    if lacks_room(out.len(), list.len()) {
        return Answer {
            outcome: Outcome::NoRoom,
            written: 0,
            listed: 0,
        };
    }
    if CAPTURE_ROOM < capture.len() {
        let listed = wire::put_bytes(b"too long\n", list);
        return Answer {
            outcome: Outcome::TooLong,
            written: 0,
            listed,
        };
    }
    mend_parts(capture, out, list)
}
