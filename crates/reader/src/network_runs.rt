// A run of network bytes, read one after the other; those of a plain stretch are taken together.
ghost use Rattle.std.specs.Prelude.{◌≡◌, ◌≤◌, ◌<◌, false, length, take};
ghost use Rattle.codes.specs.Answers.{no_room};
ghost use Rattle.lists.specs.Buffers.{lent};
ghost use Rattle.reader.specs.NetworkRun.{OneByte, cannot_begin, ran_from};
ghost use Rattle.reader.specs.NetworkEnd.{Lawful, PlainAt, Stepped, Finished, TookFront};

use codes::{Note, PAPER_ROOM};

// What reading a byte came to: its note, and how many bytes it wrote to each buffer.
#[derive(Clone, Copy)]
pub struct ByteOutcome {
    pub note: Note,
    pub first: usize,
    pub wire: usize,
}

// .. and a run of them: the last one's note, how many were taken, and how many bytes they wrote.
#[derive(Clone, Copy)]
pub struct Ran {
    pub note: Note,
    pub taken: usize,
    pub first: usize,
    pub wire: usize,
}

// An end as it reads network bytes, whether its state is a value or stands in arrays that a host lends. The first buffer is the
// paper at the printer end and the host's data at the bulletin end.
pub trait ReadsNetwork {
    // The rule of one byte, by its parts, and the state of that rule that the end stands for.
    ghost State: { Type 0 };

    ghost Effect: { Type 0 };

    ghost Answer: { Type 0 };

    ghost rule: { OneByte State Effect Answer };

    ghost laws: { Lawful rule };

    ghost view: { Self → State };

    // What bytes keep of the end besides, as that its unused cells are clean.
    ghost Kept: { Self → Self → Type 0 };

    // How many bytes at the front are plain: each is copied to the first buffer, and nothing else happens.
    fn plain_front(&self, bytes: &[u8]) -> usize
        ensures within { result ≤ length bytes.now }
        ensures plain { PlainAt laws (view self.now) (take result bytes.now) };

    // One byte, where the buffers have the room that code 1 asks for.
    fn read(&mut self, b: u8, first: &mut [u8], wire: &mut [u8]) -> ByteOutcome
        requires { no_room (length first.old) (length wire.old) ≡ false }
        ensures { Stepped laws view Kept (laws.read (view self.old) b) self.old self.new result.note (lent first) (lent wire) result.first result.wire };

    ghost still: { (a : Self) → Kept a a };

    ghost onward: { (a b c : Self) → Kept a b → Kept b c → Kept a c };
}

// Code 1 at the first byte of a run; there is none in a run of no bytes.
pub fn cannot_begin(count: usize, first: usize, wire: usize) -> bool
    ensures { result ≡ cannot_begin count first wire }
{
    count > 0 && codes::no_room(first, wire)
}

// Some bytes at the front, where the first has room: a plain stretch, of which each byte finds that room too, or one byte.
fn read_front<E: ReadsNetwork>(end: &mut E, bytes: &[u8], first: &mut [u8], wire: &mut [u8]) -> Ran
    requires some { 0 < length bytes.now }
    requires room { no_room (length first.old) (length wire.old) ≡ false }
    ensures { TookFront E.laws E.view E.Kept end.old end.new bytes.now (lent first) (lent wire) result }
{
    let reach = bytes.len().min(first.len() - (PAPER_ROOM - 1));
    let n = end.plain_front(&bytes[..reach]);
    if n > 0 {
        first[..n].copy_from_slice(&bytes[..n]);
        return Ran {
            note: Note::Clear,
            taken: n,
            first: n,
            wire: 0,
        };
    }
    let read = end.read(bytes[0], first, wire);
    Ran {
        note: read.note,
        taken: 1,
        first: read.first,
        wire: read.wire,
    }
}

// A run: it stops before a byte that has no room, and behind one that gave a note.
pub fn read_bytes<E: ReadsNetwork>(
    end: &mut E,
    bytes: &[u8],
    first: &mut [u8],
    wire: &mut [u8],
) -> Ran
    ensures { Finished E.laws E.view E.Kept (ran_from E.rule (E.view end.old) bytes.now (length first.old) (length wire.old)) end.old end.new (lent first) (lent wire) result }
{
    let mut ran = Ran {
        note: Note::Clear,
        taken: 0,
        first: 0,
        wire: 0,
    };
    // No `for`: a step goes as far as the end took, which no iterator knows before.
    let mut rest = bytes;
    while !rest.is_empty() && ran.note == Note::Clear {
        if codes::no_room(first.len() - ran.first, wire.len() - ran.wire) {
            break;
        }
        let front = read_front(end, rest, &mut first[ran.first..], &mut wire[ran.wire..]);
        rest = &rest[front.taken..];
        ran = Ran {
            note: front.note,
            taken: ran.taken + front.taken,
            first: ran.first + front.first,
            wire: ran.wire + front.wire,
        };
    }
    ran
}
