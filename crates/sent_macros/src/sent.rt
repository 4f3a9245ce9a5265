// What goes to the wire: data, each byte by its status, and a DEFINE.
ghost use Rattle.std.specs.Prelude.{◌≤◌, length};
ghost use Rattle.lists.specs.Buffers.{lent, WroteAtStart, RoomFor};
ghost use Rattle.sent_macros.specs.Sending.{stored, stored_room, data_bytes, all_data_bytes, define_bytes};
ghost use Rattle.sent_macros.specs.Refinement.{bare_table};

use crate::{BYTES, statuses};
use codes::{BM, DEFINE, IAC};

// BM, DEFINE, X and a count before a text of at most 255 bytes.
const HEAD: usize = 4;

const BODY: usize = 259;

fn put_byte(numbers: &[u8; BYTES], b: u8, out: &mut [u8]) -> usize
    requires { RoomFor (data_bytes (bare_table numbers.now) b) out.old }
    ensures { WroteAtStart (data_bytes (bare_table numbers.now) b) (lent out) result }
{
    if b == IAC {
        return wire::put_coded(b, out);
    }
    if !statuses::is_free(numbers, b) {
        return wire::put_literal(b, out);
    }
    out[0] = b;
    1
}

// Data, by the statuses alone.
pub fn put_run(numbers: &[u8; BYTES], bytes: &[u8], out: &mut [u8]) -> usize
    requires { RoomFor (all_data_bytes (bare_table numbers.now) bytes.now) out.old }
    ensures { WroteAtStart (all_data_bytes (bare_table numbers.now) bytes.now) (lent out) result }
{
    let mut n: usize = 0;
    for b in bytes {
        n += put_byte(numbers, *b, &mut out[n..]);
    }
    n
}

// The stored form of a text is what its data would be on the wire if every byte were free.
pub fn put_define(x: u8, text: &[u8], out: &mut [u8]) -> usize
    requires { (length (stored text.now) ≤ stored_room) × RoomFor (define_bytes x text.now) out.old }
    ensures { WroteAtStart (define_bytes x text.now) (lent out) result }
{
    let free = [0u8; BYTES];
    let mut body = [0u8; BODY];
    let n = put_run(&free, text, &mut body[HEAD..]);
    body[..HEAD].copy_from_slice(&[BM, DEFINE, x, n as u8]);
    wire::put_frame(&body[..HEAD + n], out)
}
