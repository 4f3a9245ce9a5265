// What a call answers: a code and a note. Which side of an option is meant. Telnet's and the options' numbers, and what has an entry
// for each option about output disposition.
#![tactic(auto)]

ghost use Rattle.std.specs.Prelude.{◌≡◌};
ghost use Rattle.codes.specs.Answers.{code_number, note_number, first_note, no_room, no_wire};
ghost use Rattle.codes.specs.Telnet.{verb_number, whose_of, enables, plain_command, other_side};
ghost use Rattle.codes.specs.Dispositions.{option_number, disposition_numbered, entry_of, with_entry, for_each};

// The commands of RFC 854 that are told apart; NOP to GA may be keys.
pub const SE: u8 = 240;

pub const NOP: u8 = 241;

pub const GA: u8 = 249;

pub const SB: u8 = 250;

pub const WILL: u8 = 251;

pub const WONT: u8 = 252;

pub const DO: u8 = 253;

pub const DONT: u8 = 254;

pub const IAC: u8 = 255;

// The characters that an option disposes of, and what goes with them: a Line is CR LF, Char(13) is CR NUL.
pub const NUL: u8 = 0;

pub const HT: u8 = 9;

pub const LF: u8 = 10;

pub const FF: u8 = 12;

pub const CR: u8 = 13;

pub const SPACE: u8 = 32;

// The options that are carried.
pub const ECHO: u8 = 1;

pub const SGA: u8 = 3;

pub const RCTE: u8 = 7;

pub const NAOCRD: u8 = 10;

pub const NAOHTD: u8 = 12;

pub const NAOFFD: u8 = 13;

pub const NAOLFD: u8 = 16;

pub const BM: u8 = 19;

// The subcommands of BM.
pub const DEFINE: u8 = 1;

pub const ACCEPT: u8 = 2;

pub const REFUSE: u8 = 3;

pub const LITERAL: u8 = 4;

pub const PLEASE_CANCEL: u8 = 5;

// The two ways of a disposition's body: from the printer end, and from the bulletin end. Numbers, as each is a byte of the wire, and
// in C says who handles.
pub const DR: u8 = 0;

pub const DS: u8 = 1;

// The sizes that code 1 asks of the lent buffers.
pub const PAPER_ROOM: usize = 1024;

pub const WIRE_ROOM: usize = 4096;

// Every code but Done is a refusal: the state and the lent bytes do not change. Done is one of them, as each answer has a number in C
// (PRAMBOW_DONE); a refusal alone is a Result.
#[derive(Clone, Copy, PartialEq, Eq)]
pub enum Code {
    Done,
    NoRoom,
    QueueFull,
    BadCommand,
    NotCarried,
    AlreadySo,
    NotInForce,
    BadMacroByte,
    TooLong,
    Unanswered,
    NoText,
    EchoAgainstRcte,
    BadValue,
    OutputWaits,
    IssueDiffers,
}

// What a network byte's answer says of a body or a command that was not acted on. Clear is a case and no Option: an answer has a
// number for it in C (PRAMBOW_CLEAR).
#[derive(Clone, Copy, PartialEq, Eq)]
pub enum Note {
    Clear,
    Unreadable,
    Inactive,
    OtherOption,
    Stray,
}

// The four negotiation commands of RFC 854.
#[derive(Clone, Copy, PartialEq, Eq)]
pub enum Verb {
    Will,
    Wont,
    Do,
    Dont,
}

// Whose side of an option: the other end's (WILL, WONT are received of it) or this end's (DO, DONT are).
#[derive(Clone, Copy, PartialEq, Eq)]
pub enum Whose {
    His,
    Ours,
}

// The options about output disposition: of carriage returns, line feeds, form feeds and horizontal tabs.
#[derive(Clone, Copy, PartialEq, Eq)]
pub enum Disposition {
    Naocrd,
    Naolfd,
    Naoffd,
    Naohtd,
}

// An entry for each of them.
#[derive(Clone, Copy)]
pub struct Each<T> {
    pub naocrd: T,
    pub naolfd: T,
    pub naoffd: T,
    pub naohtd: T,
}

impl<T: Copy> Each<T> {
    // The same for all.
    pub fn all(x: T) -> Each<T>
        ensures { result ≡ for_each (λ d. x) }
    {
        Each {
            naocrd: x,
            naolfd: x,
            naoffd: x,
            naohtd: x,
        }
    }

    pub fn of(self, d: Disposition) -> T
        ensures { result ≡ entry_of self d }
    {
        match d {
            Disposition::Naocrd => self.naocrd,
            Disposition::Naolfd => self.naolfd,
            Disposition::Naoffd => self.naoffd,
            Disposition::Naohtd => self.naohtd,
        }
    }

    pub fn with(self, d: Disposition, x: T) -> Each<T>
        ensures { result ≡ with_entry self d x }
    {
        match d {
            Disposition::Naocrd => Each { naocrd: x, ..self },
            Disposition::Naolfd => Each { naolfd: x, ..self },
            Disposition::Naoffd => Each { naoffd: x, ..self },
            Disposition::Naohtd => Each { naohtd: x, ..self },
        }
    }
}

// The number that a code is known by, as prambow.h has it.
impl From<Code> for u8 {
    ghost from_gives = { λ c n. n ≡ code_number c };

    fn from(c: Code) -> u8 {
        match c {
            Code::Done => 0,
            Code::NoRoom => 1,
            Code::QueueFull => 2,
            Code::BadCommand => 3,
            Code::NotCarried => 4,
            Code::AlreadySo => 5,
            Code::NotInForce => 6,
            Code::BadMacroByte => 7,
            Code::TooLong => 8,
            Code::Unanswered => 9,
            Code::NoText => 10,
            Code::EchoAgainstRcte => 11,
            Code::BadValue => 12,
            Code::OutputWaits => 13,
            Code::IssueDiffers => 14,
        }
    }
}

impl From<Note> for u8 {
    ghost from_gives = { λ m n. n ≡ note_number m };

    fn from(m: Note) -> u8 {
        match m {
            Note::Clear => 0,
            Note::Unreadable => 1,
            Note::Inactive => 2,
            Note::OtherOption => 3,
            Note::Stray => 4,
        }
    }
}

// The byte after IAC.
impl From<Verb> for u8 {
    ghost from_gives = { λ v n. n ≡ verb_number v };

    fn from(v: Verb) -> u8 {
        match v {
            Verb::Will => WILL,
            Verb::Wont => WONT,
            Verb::Do => DO,
            Verb::Dont => DONT,
        }
    }
}

impl From<Disposition> for u8 {
    ghost from_gives = { λ d n. n ≡ option_number d };

    fn from(d: Disposition) -> u8 {
        match d {
            Disposition::Naocrd => NAOCRD,
            Disposition::Naolfd => NAOLFD,
            Disposition::Naoffd => NAOFFD,
            Disposition::Naohtd => NAOHTD,
        }
    }
}

// The one of them that a number belongs to, if any. No TryFrom: there is no error to tell of, and each caller has its own.
#[tactic(auto, unfolding(crate::specs::Dispositions::disposition_numbered))]
pub fn disposition_numbered(option: u8) -> Option<Disposition>
    ensures { result ≡ disposition_numbered option }
{
    match option {
        NAOCRD => Some(Disposition::Naocrd),
        NAOLFD => Some(Disposition::Naolfd),
        NAOFFD => Some(Disposition::Naoffd),
        NAOHTD => Some(Disposition::Naohtd),
        _ => None,
    }
}

// The note of a call whose steps gave a and then b.
pub fn first_note(a: Note, b: Note) -> Note
    ensures { result ≡ first_note a b }
{
    if a == Note::Clear { b } else { a }
}

// Code 1: a lent buffer that is too small.
pub fn no_room(paper: usize, wire: usize) -> bool
    ensures { result ≡ no_room paper wire }
{
    paper < PAPER_ROOM || wire < WIRE_ROOM
}

pub fn no_wire(wire: usize) -> bool
    ensures { result ≡ no_wire wire }
{
    wire < WIRE_ROOM
}

// The side that a verb received is about.
pub fn whose_of(v: Verb) -> Whose
    ensures { result ≡ whose_of v }
{
    match v {
        Verb::Will | Verb::Wont => Whose::His,
        Verb::Do | Verb::Dont => Whose::Ours,
    }
}

// Whether a verb is a request.
pub fn enables(v: Verb) -> bool
    ensures { result ≡ enables v }
{
    matches!(v, Verb::Will | Verb::Do)
}

// The side as the end across the line sees it.
pub fn other_side(w: Whose) -> Whose
    ensures { result ≡ other_side w }
{
    match w {
        Whose::His => Whose::Ours,
        Whose::Ours => Whose::His,
    }
}

// Whether a byte is one of the commands that a key may be, NOP to GA.
pub fn plain_command(c: u8) -> bool
    ensures { result ≡ plain_command c }
{
    (NOP..=GA).contains(&c)
}
