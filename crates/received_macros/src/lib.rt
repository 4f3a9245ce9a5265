// The table of macros at the end that receives: a byte's text, and how a DEFINE is judged.
#![tactic(auto)]

ghost use Rattle.std.specs.Prelude.{◌≡◌, MatchOption, ◌++◌, ◌+◌, ◌-◌, ◌≤◌, length, take, drop};
ghost use Rattle.lists.specs.Buffers.{lent, WroteAtStart, RoomFor};
ghost use Rattle.lists.specs.Fronts.{front};
ghost use Rattle.received_macros.specs.Texts.{
  plain,
  text,
  entry_of,
  total,
  freed,
  judged_total,
  judged_any,
  judged,
  reason_number,
  verdict_bytes,
};
ghost use Rattle.received_macros.specs.Refinement.{
  length_of,
  lengths,
  mark_for,
  cells_with,
  view_texts,
  view_parts,
  empty_cells,
  is_unmarked,
  is_unmarked_text,
  Settled,
  Changed,
  RefinesDefined,
};

use codes::{ACCEPT, BM, IAC, REFUSE};

// A mark for each byte.
const BYTES: usize = 256;

// The longest text, as a DEFINE's count is one byte.
pub const LONGEST: usize = 255;

// The room for all texts.
pub const ROOM: usize = 1024;

// RFC 735's reasons of a REFUSE.
#[derive(Clone, Copy)]
pub enum Reason {
    Other,
    BadChoice,
    TooLong,
    WrongLength,
}

// The number that a reason is sent as.
impl From<Reason> for u8 {
    ghost from_gives = { λ r n. n ≡ reason_number r };

    fn from(reason: Reason) -> u8 {
        match reason {
            Reason::Other => 0,
            Reason::BadChoice => 1,
            Reason::TooLong => 2,
            Reason::WrongLength => 3,
        }
    }
}

// A mark for each byte: 0 where the byte stands for itself, else the length of its text and 1. The texts stand
// in cells one behind the other, in the order of their bytes: two arrays, as a host lends both to the library for C.
// Marks whose lengths pass 1,024 count as no macros.
#[derive(Clone, Copy)]
pub struct Texts {
    pub marks: [u16; BYTES],
    pub cells: [u8; ROOM],
}

pub fn empty() -> Texts
    ensures { result ≡ empty_cells }
{
    Texts {
        marks: [0u16; BYTES],
        cells: [0u8; ROOM],
    }
}

// No text is longer than 255 bytes, whatever the mark.
fn length_of(mark: u16) -> usize
    ensures { result ≡ length_of mark }
{
    (mark as usize).saturating_sub(1).min(LONGEST)
}

// Where the text of byte x begins; of 256, where the texts end.
fn start_of(marks: &[u16; BYTES], x: usize) -> usize
    requires { x ≤ 256 }
    ensures { result ≡ lengths (take x marks.now) }
{
    let mut start = 0;
    for mark in &marks[..x] {
        start += length_of(*mark);
    }
    start
}

// The same table with its texts within the cells.
fn settled(t: Texts) -> Texts
    ensures { Settled t result }
{
    if start_of(&t.marks, BYTES) > ROOM {
        return empty();
    }
    t
}

// How long all texts are together.
pub fn total_of(t: Texts) -> usize
    ensures { result ≡ total (view_texts t) }
{
    let end = start_of(&t.marks, BYTES);
    if end > ROOM { 0 } else { end }
}

// An ordinary byte: one look at its mark, without the table by value. True only of a byte that is not defined.
pub fn is_unmarked(marks: &[u16; BYTES], x: u8) -> bool
    ensures { result ≡ is_unmarked marks.now x }
{
    marks[x as usize] == 0
}

// How far text without macros goes: up to the first byte that has a mark, or is IAC.
pub fn unmarked_front(marks: &[u16; BYTES], bytes: &[u8]) -> usize
    ensures { result ≡ front (is_unmarked_text marks.now) bytes.now }
{
    // `&` has no branch, where `&&` makes the scan half as fast (3.2 and 6.9 instructions a byte).
    lists::front(bytes, |b| (b != IAC) & is_unmarked(marks, b))
}

// A byte's text where it lies in the cells, without a copy of it; none of a byte that is not defined.
pub fn text_in<'a>(marks: &[u16; BYTES], cells: &'a [u8; ROOM], x: u8) -> Option<&'a [u8]>
    ensures { let entry = entry_of (view_parts marks.now cells.now) x in
        MatchOption result (entry ≡ plain) (λ s. entry ≡ text s.now) }
{
    let mark = marks[x as usize];
    if mark == 0 || start_of(marks, BYTES) > ROOM {
        return None;
    }
    let start = start_of(marks, x as usize);
    Some(&cells[start..start + length_of(mark)])
}

// The mark of x as a text makes it; X defined as X alone is free.
fn mark_for(x: u8, text: &[u8]) -> u16
    requires { length text.now ≤ 255 }
    ensures { result ≡ mark_for x text.now }
{
    let itself = text == [x].as_slice();
    if itself { 0 } else { text.len() as u16 + 1 }
}

// The texts up to total with those from start to end replaced by part; the cells behind them are 0.
fn repacked(cells: &[u8; ROOM], start: usize, end: usize, total: usize, part: &[u8]) -> [u8; ROOM]
    requires { (start ≤ end) × (end ≤ total) × (total ≤ 1024) × (start + length part.now + (total - end) ≤ 1024) }
    ensures { result ≡ cells_with cells.now start end total part.now }
{
    let behind = start + part.len();
    let mut out = [0u8; ROOM];
    out[..start].copy_from_slice(&cells[..start]);
    out[start..behind].copy_from_slice(part);
    out[behind..behind + (total - end)].copy_from_slice(&cells[end..total]);
    out
}

// A text of the length that was announced: refused for its size alone.
fn define_text(t: Texts, x: u8, text: &[u8]) -> Result<Texts, Reason>
    requires { length text.now ≤ 255 }
    ensures { RefinesDefined (judged_total (view_texts t) x text.now) t x text.now result }
{
    let Texts { mut marks, cells } = settled(t);
    let at = x as usize;
    let old = length_of(marks[at]);
    let mark = mark_for(x, text);
    let len = length_of(mark);
    let total = start_of(&marks, BYTES);
    let start = start_of(&marks, at);
    if total - old + len > ROOM {
        return Err(Reason::TooLong);
    }
    marks[at] = mark;
    Ok(Texts {
        marks,
        cells: repacked(&cells, start, start + old, total, &text[..len]),
    })
}

// A text of any length.
pub fn define_any(t: Texts, x: u8, text: &[u8]) -> Result<Texts, Reason>
    ensures { RefinesDefined (judged_any (view_texts t) x text.now) t x text.now result }
{
    if text.len() > LONGEST {
        return Err(Reason::TooLong);
    }
    define_text(t, x, text)
}

// The byte stands for itself again, and its text is gone from the cells.
pub fn removed(t: Texts, x: u8) -> Texts
    ensures { Changed (freed (view_texts t) x) t result }
{
    define_text(t, x, &[x]).unwrap_or(t)
}

// rest is what follows X in the body: a count, then the string.
#[tactic(auto, unfolding(crate::specs::Texts::judged))]
pub fn define(t: Texts, x: u8, rest: &[u8]) -> Result<Texts, Reason>
    ensures { RefinesDefined (judged (view_texts t) x rest.now) t x (drop 1 rest.now) result }
{
    if x == IAC {
        return Err(Reason::BadChoice);
    }
    let Some((count, text)) = rest.split_first() else {
        return Err(Reason::Other);
    };
    if text.len() != *count as usize {
        return Err(Reason::WrongLength);
    }
    define_text(t, x, text)
}

// ACCEPT, or REFUSE with its reason.
pub fn put_verdict(v: Result<(), Reason>, x: u8, out: &mut [u8]) -> usize
    requires { RoomFor (verdict_bytes v x) out.old }
    ensures { WroteAtStart (verdict_bytes v x) (lent out) result }
{
    match v {
        Ok(()) => wire::put_frame(&[BM, ACCEPT, x], out),
        Err(reason) => wire::put_frame(&[BM, REFUSE, x, u8::from(reason)], out),
    }
}
