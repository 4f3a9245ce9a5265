// Reading a tape field by field, by a reader that borrows the host's slice.
ghost use Rattle.std.specs.Prelude.{◌≡◌};
ghost use Rattle.tape.specs.Fields.{found_at};
ghost use Rattle.tape.specs.Scanning.{reader_at, found_by, body_by, reader_after};

use super::{BadField, Cursor, Field, TapeReader, fields};

// No Iterator: by `next`'s clause the reader stays at a bad field, and tells that from the end (`reader_after`).
impl<'a> TapeReader<'a> {
    // A reader at a place; the tape's start is 0.
    pub fn new(tape: &'a [u8], at: usize) -> TapeReader<'a>
        ensures { result ≡ reader_at tape.entry at }
    {
        TapeReader { tape, at }
    }

    // What the reader stands at. It moves past a field; at the end and at a bad field it stays.
    pub fn next(&mut self) -> Result<Option<Field>, BadField>
        ensures { (result ≡ found_by self.old) × (self.new ≡ reader_after self.old) }
    {
        let found = fields::found_at(self.tape, Cursor { at: self.at })?;
        if let Some(field) = found {
            self.at = field.next.at;
        }
        Ok(found)
    }

    // The body of the field that the reader stands at, as that part of the host's tape.
    pub fn body(self) -> &'a [u8]
        ensures { result.now ≡ body_by self.entry }
    {
        fields::body_at(self.tape, self.at)
    }
}

// What a reader at a place finds there, for a caller that keeps the place as a number.
pub fn next_at(tape: &[u8], at: usize) -> Result<Option<Field>, BadField>
    ensures { result ≡ found_at tape.now at }
{
    TapeReader::new(tape, at).next()
}
