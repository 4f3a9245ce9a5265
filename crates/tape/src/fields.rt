// The fields of a tape: a one-byte tag, a two-byte length with its high byte first, and the body.
ghost use Rattle.std.specs.Prelude.{◌≡◌};
ghost use Rattle.tape.specs.Fields.{fits, found_at, part_of, body_at};

use super::{BadField, Cursor, Field, Tag};

// The tag and the length.
const HEAD: usize = 3;

// Whether items can be read of a body of that size: network bytes one by one, keys and asks in pairs.
fn fits(tag: Tag, size: usize) -> bool
    ensures { result ≡ fits tag size }
{
    matches!(tag, Tag::Network) || size % 2 == 0
}

// The field that stands at a cursor, if the tape does not end there.
#[tactic(auto, using(crate::proofs::Heads::at_end, crate::proofs::Heads::head_cut))]
pub fn found_at(tape: &[u8], c: Cursor) -> Result<Option<Field>, BadField>
    ensures { result ≡ found_at tape.now c.at }
{
    if tape.len() <= c.at {
        return Ok(None);
    }
    let [number, high, low, body @ ..] = &tape[c.at..] else {
        return Err(BadField);
    };
    let size = u16::from_be_bytes([*high, *low]) as usize;
    if body.len() < size {
        return Err(BadField);
    }
    let tag = Tag::try_from(*number)?;
    if !fits(tag, size) {
        return Err(BadField);
    }
    let start = c.at + HEAD;
    let next = Cursor { at: start + size };
    Ok(Some(Field {
        tag,
        start,
        size,
        next,
    }))
}

// So many bytes of the tape from a place on, or what there is of them where the tape is shorter.
#[tactic(auto, unfolding(crate::specs::Fields::part_of))]
pub fn part_of(tape: &[u8], start: usize, size: usize) -> &[u8]
    ensures { result.now ≡ part_of tape.now start size }
{
    let rest = &tape[start.min(tape.len())..];
    &rest[..size.min(rest.len())]
}

// The body of the field that stands at a place, as that part of the tape; empty where no field stands.
#[tactic(auto, unfolding(crate::specs::Fields::body_at))]
pub fn body_at(tape: &[u8], at: usize) -> &[u8]
    ensures { result.now ≡ body_at tape.now at }
{
    let Ok(Some(field)) = found_at(tape, Cursor { at }) else {
        return &[];
    };
    part_of(tape, field.start, field.size)
}
