// The tape: tagged fields, and the lines that a run of one prints.
#![tactic(auto)]

ghost use Rattle.std.specs.Prelude.{◌≡◌};
ghost use Rattle.tape.specs.Fields.{tag_of, tag_number};

use printer::Printer;

pub mod fields;
mod items;
mod lines;
pub mod running;
pub mod scanning;

// What the items of a field are.
#[derive(Clone, Copy, Debug, PartialEq, Eq)]
pub enum Tag {
    Network,
    Keys,
    Asks,
}

// A field with an unknown tag, one that is cut off, or an odd body of pairs.
#[derive(Clone, Copy, Debug, PartialEq, Eq)]
pub struct BadField;

impl TryFrom<u8> for Tag {
    type Error = BadField;

    ghost try_from_gives = { λ n r. r ≡ tag_of n };

    #[tactic(auto, unfolding(crate::specs::Fields::tag_of))]
    fn try_from(number: u8) -> Result<Self, BadField> {
        match number {
            1 => Ok(Tag::Network),
            2 => Ok(Tag::Keys),
            3 => Ok(Tag::Asks),
            _ => Err(BadField),
        }
    }
}

impl From<Tag> for u8 {
    ghost from_gives = { λ t n. n ≡ tag_number t };

    fn from(t: Tag) -> u8 {
        match t {
            Tag::Network => 1,
            Tag::Keys => 2,
            Tag::Asks => 3,
        }
    }
}

#[derive(Clone, Copy)]
pub struct Cursor {
    pub at: usize,
}

// A field: its tag, where its body stands, and the cursor past it.
#[derive(Clone, Copy)]
pub struct Field {
    pub tag: Tag,
    pub start: usize,
    pub size: usize,
    pub next: Cursor,
}

// A reader over the host's tape: the tape, and a place on it.
#[derive(Clone, Copy)]
pub struct TapeReader<'a> {
    pub tape: &'a [u8],
    pub at: usize,
}

// An item: a network byte, the two bytes of a key, or an option and the way that it is asked for.
#[derive(Clone, Copy)]
pub enum Item {
    NetworkByte(u8),
    KeyPair(u8, u8),
    AskPair(u8, u8),
}

// What an item did: the length of its line, the bytes that it wrote to the two lent buffers, and the state after it.
#[derive(Clone, Copy)]
pub struct Shown {
    pub written: usize,
    pub paper: usize,
    pub wire: usize,
    pub state: Printer,
}

// Where a run stands in its tape: the number of the field, the number of the next item, its field's tag as a number, where it
// stands and how many bytes of the body are left from there; where the next field stands; whether the run is over, which
// a host asks of any place (`running::is_over`).
#[derive(Clone, Copy)]
pub struct Place {
    pub field: usize,
    pub item: usize,
    pub tag: u8,
    pub at: usize,
    pub left: usize,
    pub next: usize,
    pub over: bool,
}

// A run: the printer end, how much of the two lent buffers is used, and the place.
#[derive(Clone, Copy)]
pub struct Machine {
    pub printer: Printer,
    pub paper: usize,
    pub wire: usize,
    pub place: Place,
}

// A step: how many bytes it printed, and the run after it.
#[derive(Clone, Copy)]
pub struct Stepped {
    pub written: usize,
    pub machine: Machine,
}
