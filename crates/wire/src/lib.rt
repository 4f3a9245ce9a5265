// What is written on the wire: bytes with IAC doubled, negotiations, subnegotiation frames. Each encoder is handed the
// output behind what was written so far, and writes at its beginning.
#![tactic(auto)]

ghost use Rattle.lists.specs.Buffers.{lent, WroteAtStart, RoomFor};
ghost use Rattle.keys.specs.Keys.{key_wire};
ghost use Rattle.wire.specs.Frames.{coded, doubled, negotiation, frame, literal};

use codes::{BM, CR, IAC, LF, LITERAL, NUL, SB, SE, Verb};
use keys::Key;

// A plain copy.
pub fn put_bytes(src: &[u8], out: &mut [u8]) -> usize
    requires { RoomFor src.now out.old }
    ensures { WroteAtStart src.now (lent out) result }
{
    out[..src.len()].copy_from_slice(src);
    src.len()
}

// A byte of data or of a body.
#[tactic(auto, unfolding(crate::specs::Frames::coded))]
pub fn put_coded(b: u8, out: &mut [u8]) -> usize
    requires { RoomFor (coded b) out.old }
    ensures { WroteAtStart (coded b) (lent out) result }
{
    match b {
        IAC => put_bytes(&[IAC, IAC], out),
        _ => put_bytes(&[b], out),
    }
}

pub fn put_negotiation(v: Verb, option: u8, out: &mut [u8]) -> usize
    requires { RoomFor (negotiation v option) out.old }
    ensures { WroteAtStart (negotiation v option) (lent out) result }
{
    put_bytes(&[IAC, u8::from(v), option], out)
}

// The bytes of a body, each 255 doubled.
fn put_doubled(body: &[u8], out: &mut [u8]) -> usize
    requires { RoomFor (doubled body.now) out.old }
    ensures { WroteAtStart (doubled body.now) (lent out) result }
{
    let mut n: usize = 0;
    for b in body {
        n += put_coded(*b, &mut out[n..]);
    }
    n
}

// A subnegotiation of a body, its option byte first.
pub fn put_frame(body: &[u8], out: &mut [u8]) -> usize
    requires { RoomFor (frame body.now) out.old }
    ensures { WroteAtStart (frame body.now) (lent out) result }
{
    let mut n = put_bytes(&[IAC, SB], out);
    n += put_doubled(body, &mut out[n..]);
    n + put_bytes(&[IAC, SE], &mut out[n..])
}

pub fn put_literal(x: u8, out: &mut [u8]) -> usize
    requires { RoomFor (literal x) out.old }
    ensures { WroteAtStart (literal x) (lent out) result }
{
    put_frame(&[BM, LITERAL, x], out)
}

// A typed CR is CR NUL, and a typed 255 is doubled.
#[tactic(auto, unfolding(keys::specs::Keys::key_wire, crate::specs::Frames::coded))]
pub fn put_key(k: Key, out: &mut [u8]) -> usize
    requires { RoomFor (key_wire k) out.old }
    ensures { WroteAtStart (key_wire k) (lent out) result }
{
    match k {
        Key::Char(CR) => put_bytes(&[CR, NUL], out),
        Key::Char(b) => put_coded(b, out),
        Key::Line => put_bytes(&[CR, LF], out),
        Key::Command(c) => put_bytes(&[IAC, c], out),
    }
}
