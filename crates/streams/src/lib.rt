// What the programs do with what they are started with: arguments are counted and fetched, the file that one names is opened, a
// reader is read until a buffer is full, a failure is told.
#![tactic(auto)]

ghost use Rattle.std.specs.Io.{ReadsAtMost};
ghost use Rattle.streams.specs.Counts.{IsPrefixLen};

use std::env::{Env, FillError};
use std::fs::{File, Files};
use std::io::{Cursor, Print, Read, Write};
use std::{io, str};

// The system's numbers of the errors for which a name is refused: `fail` prints the system's texts for them.
const INVALID: i32 = 22;

const NAME_TOO_LONG: i32 = 36;

const NOT_UTF_8: i32 = 84;

// How many arguments the program was started with, its own name among them.
pub fn arg_count(rt: &impl Env) -> usize {
    let is_missing = |i: &usize| matches!(rt.arg(*i, &mut []), Err(FillError::NotPresent));
    (0..usize::MAX).find(is_missing).unwrap_or(usize::MAX)
}

// Puts an argument at the start of the buffer, and returns its length.
pub fn arg(rt: &impl Env, i: usize, buffer: &mut [u8]) -> io::Result<usize>
    ensures { ReadsAtMost result buffer.new }
{
    rt.arg(i, buffer).map_err(|error| {
        io::Error::from_raw_os_error(match error {
            FillError::NotPresent => INVALID,
            FillError::TooLong => NAME_TOO_LONG,
        })
    })
}

// Opens the file of that name for reading. A name that is not UTF-8 is refused.
pub fn open_read<R: Files>(rt: &R, path: &[u8]) -> io::Result<R::File> {
    let Ok(text) = str::from_utf8(path) else {
        return Err(io::Error::from_raw_os_error(NOT_UTF_8));
    };
    File::open(rt, text)
}

// Opens the file that an argument names; the name comes with it, and stands at the start of the buffer. What fails is told.
pub fn open_named<'a, R: Env + Files>(
    rt: &R,
    errors: &impl Print,
    i: usize,
    room: &'a mut [u8],
) -> Option<(&'a [u8], R::File)> {
    let n = match arg(rt, i, room) {
        Ok(n) => n,
        Err(error) => {
            fail(errors, b"an argument", error);
            return None;
        }
    };
    let path = &room[..n];
    match open_read(rt, path) {
        Ok(file) => Some((path, file)),
        Err(error) => {
            fail(errors, path, error);
            None
        }
    }
}

// Reads until the buffer is full, the input ends or a read fails, and returns how many bytes stand at the start of the buffer.
pub fn read_full<R: Read>(reader: &mut R, buffer: &mut [u8]) -> usize
    ensures { IsPrefixLen result buffer.new }
{
    // The step is what a read gave, so there is nothing that a `for` could go over.
    let mut done = 0;
    while done < buffer.len() {
        match reader.read(&mut buffer[done..]) {
            Ok(0) | Err(_) => break,
            Ok(n) => done += n,
        }
    }
    done
}

// The system's text for an error, without its number.
fn text_of(error: io::Error, room: &mut [u8]) -> &str {
    let mut cursor = Cursor::new(&mut *room);
    let _ = write!(cursor, "{error}");
    let written = cursor.position() as usize;
    let end = written.min(room.len());
    let text = str::from_utf8(&room[..end]).unwrap_or("");
    text.split_once(" (os error ")
        .map_or(text, |(front, _)| front)
}

// Writes a line: what failed, as the caller names it, a colon and the error's text.
pub fn fail(to: &impl Print, what: &[u8], error: io::Error) {
    let mut room = [0u8; 128];
    let text = text_of(error, &mut room).as_bytes();
    for part in [what, b": ", text, b"\n"] {
        let _ = to.write_all(part);
    }
}
