// What is printed of a tape. Each encoder is handed the output behind what was written so far, and writes at its
// beginning. No Display: the contracts say which bytes stand where in the lent output.
ghost use mathlib.Core.List.{flat_map};
ghost use Rattle.std.specs.Prelude.{◌≡◌, ◌<◌};
ghost use Rattle.codes.specs.Answers.{code_number};
ghost use Rattle.lists.specs.Buffers.{lent, WroteAtStart, RoomFor};
ghost use Rattle.tape.specs.Lines.{hex_digit, hex_byte, hex_of, line_of, shows_nothing, shown, bad_tape};
ghost use Rattle.tape.specs.Refinement.Parts.{hex_then, numbers_of, bytes_of};

use codes::Code;
use decimals::put_number;

// Hex capitals.
fn hex_digit(n: u8) -> u8
    requires { n < 16 }
    ensures { result ≡ hex_digit n }
{
    if n < 10 { b'0' + n } else { b'A' + (n - 10) }
}

#[tactic(auto, using(lists::proofs::Starts::wrote_start), unfolding(crate::specs::Lines::hex_byte))]
fn put_hex_byte(b: u8, out: &mut [u8]) -> usize
    requires { RoomFor (hex_byte b) out.old }
    ensures { WroteAtStart (hex_byte b) (lent out) result }
{
    out[0] = hex_digit(b / 16);
    out[1] = hex_digit(b % 16);
    2
}

fn put_hex_bytes(bytes: &[u8], out: &mut [u8]) -> usize
    requires { RoomFor (flat_map hex_byte bytes.now) out.old }
    ensures { WroteAtStart (flat_map hex_byte bytes.now) (lent out) result }
{
    let mut n = 0;
    for b in bytes {
        n += put_hex_byte(*b, &mut out[n..]);
    }
    n
}

// Bytes in hex, `-` for none.
#[tactic(auto, using(crate::proofs::LineParts::hex_of_none, crate::proofs::LineParts::hex_of_some, lists::proofs::Starts::wrote_start))]
fn put_hex(bytes: &[u8], out: &mut [u8]) -> usize
    requires { RoomFor (hex_of bytes.now) out.old }
    ensures { WroteAtStart (hex_of bytes.now) (lent out) result }
{
    if bytes.is_empty() {
        out[0] = b'-';
        return 1;
    }
    put_hex_bytes(bytes, out)
}

// Bytes in hex, and the byte that parts them from what follows.
#[tactic(auto, using(lists::proofs::Behind::room_front, lists::proofs::Behind::last_place, lists::proofs::Behind::last_inside, lists::proofs::Behind::wrote_last), unfolding(crate::specs::Refinement::Parts::hex_then))]
fn put_hex_then(bytes: &[u8], then: u8, out: &mut [u8]) -> usize
    requires { RoomFor (hex_then bytes.now then) out.old }
    ensures { WroteAtStart (hex_then bytes.now then) (lent out) result }
{
    let at = put_hex(bytes, out);
    out[at] = then;
    at + 1
}

// What an item's line tells: its field's number and its own, its code, and what it printed and sent.
#[derive(Clone, Copy)]
pub struct Line<'a> {
    pub field: usize,
    pub item: usize,
    pub code: Code,
    pub paper: &'a [u8],
    pub wire: &'a [u8],
}

impl Line<'_> {
    // The numbers at its front.
    fn put_numbers(self, out: &mut [u8]) -> usize
        requires { RoomFor (numbers_of self.field self.item (code_number self.code)) out.old }
        ensures { WroteAtStart (numbers_of self.entry.field self.entry.item (code_number self.entry.code)) (lent out) result }
    {
        let a = put_number(self.field, b'.', out);
        let b = a + put_number(self.item, b' ', &mut out[a..]);
        b + put_number(u8::from(self.code) as usize, b' ', &mut out[b..])
    }

    // The bytes at its end.
    #[tactic(auto, using(lists::proofs::Behind::wrote_both))]
    fn put_both(self, out: &mut [u8]) -> usize
        requires { RoomFor (bytes_of self.paper.now self.wire.now) out.old }
        ensures { WroteAtStart (bytes_of self.entry.paper.now self.entry.wire.now) (lent out) result }
    {
        let a = put_hex_then(self.paper, b' ', out);
        a + put_hex_then(self.wire, b'\n', &mut out[a..])
    }

    // `field.item code paper wire`
    fn put_line(self, out: &mut [u8]) -> usize
        requires { RoomFor (line_of self.field self.item (code_number self.code) self.paper.now self.wire.now) out.old }
        ensures { WroteAtStart (line_of self.entry.field self.entry.item (code_number self.entry.code) self.entry.paper.now self.entry.wire.now) (lent out) result }
    {
        let a = self.put_numbers(out);
        a + self.put_both(&mut out[a..])
    }

    // Whether the item gives no line: it has no code, no paper and no wire bytes.
    fn shows_nothing(self) -> bool
        ensures { result ≡ shows_nothing (code_number self.entry.code) self.entry.paper.now self.entry.wire.now }
    {
        self.code == Code::Done && self.paper.is_empty() && self.wire.is_empty()
    }

    // The line, if the item gives one.
    #[tactic(auto, using(lists::proofs::Starts::wrote_none), unfolding(crate::specs::Lines::shown))]
    pub fn put_shown(self, out: &mut [u8]) -> usize
        requires { RoomFor (shown self.field self.item (code_number self.code) self.paper.now self.wire.now) out.old }
        ensures { WroteAtStart (shown self.entry.field self.entry.item (code_number self.entry.code) self.entry.paper.now self.entry.wire.now) (lent out) result }
    {
        if self.shows_nothing() {
            return 0;
        }
        self.put_line(out)
    }
}

// `bad tape N`
#[tactic(auto, using(crate::proofs::LineParts::bad_parts, lists::proofs::Behind::rest_room, lists::proofs::Behind::wrote_both))]
pub fn put_bad(n: usize, out: &mut [u8]) -> usize
    requires { RoomFor (bad_tape n) out.old }
    ensures { WroteAtStart (bad_tape n) (lent out) result }
{
    let a = wire::put_bytes(b"bad tape ", out);
    a + put_number(n, b'\n', &mut out[a..])
}
