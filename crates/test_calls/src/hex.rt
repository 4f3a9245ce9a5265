// The bytes of a line: two hex capitals each, in any grouping, and `*N` behind one for N of them. Numbers are decimal.
ghost use Rattle.std.specs.Prelude.{◌<◌, ◌≤◌, length, IfSome};

use crate::bad_line::BadLine;
use crate::words;

// So many bytes a line may have.
pub const ROOM: usize = 1024;

fn hex_value(digit: u8) -> Option<u8>
    ensures { IfSome result (λ d. d < 16) }
{
    match digit {
        b'0'..=b'9' => Some(digit - b'0'),
        b'A'..=b'F' => Some(digit - b'A' + 10),
        _ => None,
    }
}

// The number at the front of a text, and what stands behind it; five digits are enough. By hand: `parse` takes a whole
// text, and knows no limit of five digits.
pub fn split_number(text: &[u8]) -> (usize, &[u8])
    ensures { length result.1.now ≤ length text.now }
{
    let mut value: usize = 0;
    for (i, b) in text.iter().enumerate() {
        if !b.is_ascii_digit() || value > 9999 {
            return (value, &text[i..]);
        }
        value = value * 10 + (*b - b'0') as usize;
    }
    (value, &[])
}

// Of count bytes the last is to stand so many times: how many bytes there are then.
fn repeat(times: usize, count: usize, bytes: &mut [u8]) -> Option<usize> {
    let last = count.checked_sub(1)?;
    let copies = bytes.get_mut(last..)?;
    if times == 0 || times > copies.len() {
        return None;
    }
    let b = copies[0];
    copies[..times].fill(b);
    Some(last + times)
}

// One byte more.
fn put(high: u8, low: u8, count: usize, bytes: &mut [u8]) -> Option<usize> {
    let place = bytes.get_mut(count)?;
    *place = hex_value(high)? * 16 + hex_value(low)?;
    Some(count + 1)
}

// The bytes that a text says, at the start of the buffer. No Vec: there is no heap here, so the caller lends the room, and a
// count stands beside it.
pub fn read<'a>(text: &[u8], bytes: &'a mut [u8]) -> Option<&'a [u8]> {
    let mut count: usize = 0;
    let mut rest = text;
    while let Some((first, after)) = rest.split_first() {
        if words::is_space(*first) {
            rest = after;
        } else if *first == b'*' {
            let (times, after) = split_number(after);
            count = repeat(times, count, bytes)?;
            rest = after;
        } else {
            let (low, after) = after.split_first()?;
            count = put(*first, *low, count, bytes)?;
            rest = after;
        }
    }
    bytes.get(..count)
}

// The bytes of a call that takes so many.
pub fn exactly<const N: usize>(bytes: &[u8]) -> Result<[u8; N], BadLine> {
    <[u8; N]>::try_from(bytes).map_err(|_| BadLine::Count)
}
