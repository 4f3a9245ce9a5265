// A key of the printer end's keyboard, and an item of the bulletin end's text.
#![tactic(auto)]

ghost use Rattle.std.specs.Prelude.{◌≡◌};
ghost use Rattle.lists.specs.Buffers.{lent, WroteAtStart, RoomFor};
ghost use Rattle.keys.specs.Keys.{bad_command, key_class, class_bit, in_classes, is_command, prints, key_paper, key_of_pair};
ghost use Rattle.keys.specs.Refinement.{class_number, key_number, key_of_number};

use codes::{CR, LF};

mod classes;

pub use classes::{Class, class_of};

// Char and Line are typed characters; a Command is one of Telnet's codes 241 to 249.
#[derive(Clone, Copy, PartialEq, Eq)]
pub enum Key {
    Char(u8),
    Line,
    Command(u8),
}

// A Command outside 241 to 249: code 3 of a key and of a text item.
pub fn bad_command(k: Key) -> bool
    ensures { result ≡ bad_command k }
{
    matches!(k, Key::Command(c) if !codes::plain_command(c))
}

pub fn key_class(k: Key) -> Option<Class>
    ensures { class_number result ≡ key_class k }
{
    match k {
        Key::Char(b) => class_of(b),
        Key::Line => Some(Class::FormatEffector),
        Key::Command(_) => None,
    }
}

pub fn is_command(k: Key) -> bool
    ensures { result ≡ is_command k }
{
    matches!(k, Key::Command(_))
}

// The bit of the class of a number in a pair; a number of no class has none.
fn bit_of(pair: u16, class: u8) -> u16
    ensures { result ≡ class_bit pair class }
{
    match class {
        1..=9 => (pair >> (class - 1)) % 2,
        _ => 0,
    }
}

// By the number and not by a Class: its contract answers for every number, also one of no class.
#[tactic(auto, unfolding(crate::specs::Keys::in_classes))]
pub fn in_classes(pair: u16, class: u8) -> bool
    ensures { result ≡ in_classes pair class }
{
    bit_of(pair, class) == 1
}

// Whether a pair has the bit of a class.
#[tactic(auto, unfolding(crate::specs::Keys::in_classes))]
pub fn sets(pair: u16, class: Option<Class>) -> bool
    ensures { result ≡ in_classes pair (class_number class) }
{
    class.is_some_and(|class| in_classes(pair, u8::from(class)))
}

// Whether a byte prints itself.
#[tactic(auto, unfolding(crate::specs::Keys::prints))]
pub fn prints(b: u8) -> bool
    ensures { result ≡ prints b }
{
    !matches!(class_of(b), None | Some(Class::Control))
}

// A key's paper, at the start of out.
pub fn put_paper(k: Key, out: &mut [u8]) -> usize
    requires { RoomFor (key_paper k) out.old }
    ensures { WroteAtStart (key_paper k) (lent out) result }
{
    match k {
        Key::Char(b) if prints(b) => {
            out[0] = b;
            1
        }
        Key::Line => {
            out[0] = CR;
            out[1] = LF;
            2
        }
        Key::Char(_) => 0,
        Key::Command(_) => 0,
    }
}

// The first numbers of a Line and of a Command in a queue; below them stand the bytes of a Char.
const LINE: u16 = 256;

const COMMAND: u16 = 512;

// A key as one number, for a queue.
impl From<Key> for u16 {
    ghost from_gives = { λ k n. n ≡ key_number k };

    fn from(k: Key) -> u16 {
        match k {
            Key::Char(b) => u16::from(b),
            Key::Line => LINE,
            Key::Command(c) => COMMAND + u16::from(c),
        }
    }
}

impl From<u16> for Key {
    ghost from_gives = { λ n k. k ≡ key_of_number n };

    #[tactic(auto, unfolding(crate::specs::Refinement::key_of_number))]
    fn from(n: u16) -> Key {
        match n {
            0..LINE => Key::Char(n as u8),
            LINE..COMMAND => Key::Line,
            _ => Key::Command((n % 256) as u8),
        }
    }
}

// A pair of bytes that stands for no key.
#[derive(Clone, Copy, Debug, PartialEq, Eq)]
pub struct NoKey;

// A key by its kind and its byte, as a tape and C have it.
impl TryFrom<(u8, u8)> for Key {
    type Error = NoKey;

    ghost try_from_gives = { λ p r. r ≡ key_of_pair p.0 p.1 };

    #[tactic(auto, unfolding(crate::specs::Keys::key_of_pair))]
    fn try_from(pair: (u8, u8)) -> Result<Self, NoKey> {
        match pair {
            (0, b) => Ok(Key::Char(b)),
            (1, 0) => Ok(Key::Line),
            (2, c) => Ok(Key::Command(c)),
            _ => Err(NoKey),
        }
    }
}
