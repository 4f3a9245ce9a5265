// What a call answers, and the line that shows it.
use bulletin::Bulletin;
use codes::{Code, Note};
use printer::Printer;
use std::fmt;
use std::fmt::Display;

// The numbers of an answer: its code, its note, the bytes in its two buffers, and how many keys wait after it.
#[derive(Clone, Copy, PartialEq, Eq)]
pub struct Numbers {
    pub code: Code,
    pub note: Note,
    pub first: usize,
    pub wire: usize,
    pub waiting: usize,
}

// An answer with the state that the call left.
#[derive(Clone, Copy)]
pub struct Made<S> {
    pub numbers: Numbers,
    pub state: S,
}

// The two ends.
pub trait End: Copy {
    // how many keys wait in a state that calls have left
    fn waiting(&self) -> usize;
}

impl End for Printer {
    fn waiting(&self) -> usize {
        self.rcte.count
    }
}

// No key waits here.
impl End for Bulletin {
    fn waiting(&self) -> usize {
        0
    }
}

impl From<printer::Answer> for Made<Printer> {
    fn from(a: printer::Answer) -> Made<Printer> {
        Made {
            numbers: Numbers {
                code: a.code,
                note: a.note,
                first: a.paper,
                wire: a.wire,
                waiting: a.state.waiting(),
            },
            state: a.state,
        }
    }
}

impl From<bulletin::Answer> for Made<Bulletin> {
    fn from(a: bulletin::Answer) -> Made<Bulletin> {
        Made {
            numbers: Numbers {
                code: a.code,
                note: a.note,
                first: a.host,
                wire: a.wire,
                waiting: a.state.waiting(),
            },
            state: a.state,
        }
    }
}

impl Numbers {
    // Nothing to be shown: as many keys wait as before, and all else is none.
    pub fn shows_nothing(self, waited: usize) -> bool {
        let none = Numbers {
            code: Code::Done,
            note: Note::Clear,
            first: 0,
            wire: 0,
            waiting: waited,
        };
        self == none
    }
}

// Bytes in hex capitals.
#[derive(Clone, Copy)]
struct Hex<'a>(&'a [u8]);

impl<'a> Display for Hex<'a> {
    fn fmt<W: fmt::Write>(&self, f: &mut fmt::Formatter<W>) -> fmt::Result {
        if self.0.is_empty() {
            return f.write_str("-");
        }
        for b in self.0 {
            write!(f, "{b:02X}")?;
        }
        Ok(())
    }
}

// An answer with its two buffers.
#[derive(Clone, Copy)]
pub struct Shown<'a> {
    pub numbers: Numbers,
    pub first: &'a [u8],
    pub wire: &'a [u8],
}

impl<'a> Display for Shown<'a> {
    fn fmt<W: fmt::Write>(&self, f: &mut fmt::Formatter<W>) -> fmt::Result {
        let n = self.numbers;
        let first = Hex(&self.first[..n.first.min(self.first.len())]);
        let wire = Hex(&self.wire[..n.wire.min(self.wire.len())]);
        write!(
            f,
            "{} {} {first} {wire} {}",
            u8::from(n.code),
            u8::from(n.note),
            n.waiting
        )
    }
}
