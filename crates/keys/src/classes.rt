// RFC 726's list of the classes, in its order and with its characters, so that it can be compared with the RFC class by class.
// One match over all of them would be compiled to a table, and none is to be stored (request A4, docs/DECISIONS.md P4): so each list
// is a test of its own.
ghost use Rattle.std.specs.Prelude.{◌≡◌, ◌||◌, leb, eqb, Some};
ghost use Rattle.lists.specs.Choice.{one_of};
ghost use Rattle.keys.specs.Keys.{class_of, format_effectors, punctuation, brackets, symbols};
ghost use Rattle.keys.specs.Refinement.{class_number};

use codes::{CR, FF, HT, LF};

const BS: u8 = 8;

const VT: u8 = 11;

// The last of the control characters that stand before the space.
const US: u8 = 31;

const DEL: u8 = 127;

// The nine classes: class 1 is Upper.
#[derive(Clone, Copy, PartialEq, Eq)]
pub enum Class {
    Upper,
    Lower,
    Digit,
    FormatEffector,
    Control,
    Punctuation,
    Bracket,
    Symbol,
    Space,
}

impl From<Class> for u8 {
    ghost from_gives = { λ c n. n ≡ class_number (Some c) };

    fn from(c: Class) -> u8 {
        match c {
            Class::Upper => 1,
            Class::Lower => 2,
            Class::Digit => 3,
            Class::FormatEffector => 4,
            Class::Control => 5,
            Class::Punctuation => 6,
            Class::Bracket => 7,
            Class::Symbol => 8,
            Class::Space => 9,
        }
    }
}

// A byte's class.
#[tactic(auto, unfolding(crate::specs::Keys::class_of))]
pub fn class_of(b: u8) -> Option<Class>
    ensures { class_number result ≡ class_of b }
{
    if (b'A'..=b'Z').contains(&b) {
        return Some(Class::Upper);
    }
    if (b'a'..=b'z').contains(&b) {
        return Some(Class::Lower);
    }
    if (b'0'..=b'9').contains(&b) {
        return Some(Class::Digit);
    }
    if is_format_effector(b) {
        return Some(Class::FormatEffector);
    }
    if is_control(b) {
        return Some(Class::Control);
    }
    if is_punctuation(b) {
        return Some(Class::Punctuation);
    }
    if is_bracket(b) {
        return Some(Class::Bracket);
    }
    if is_symbol(b) {
        return Some(Class::Symbol);
    }
    if b == b' ' {
        return Some(Class::Space);
    }
    None
}

// A Line, which is CR LF, is a format effector too (key_class).
#[tactic(auto, unfolding(lists::specs::Choice::one_of))]
fn is_format_effector(b: u8) -> bool
    ensures { result ≡ one_of format_effectors b }
{
    matches!(b, BS | CR | LF | FF | HT | VT)
}

// The other control characters, ESC and DEL among them; class_of asks for the format effectors first.
fn is_control(b: u8) -> bool
    ensures { result ≡ (leb b 31 || eqb b 127) }
{
    b <= US || b == DEL
}

#[tactic(auto, unfolding(lists::specs::Choice::one_of))]
fn is_punctuation(b: u8) -> bool
    ensures { result ≡ one_of punctuation b }
{
    matches!(b, b'.' | b',' | b';' | b':' | b'?' | b'!')
}

#[tactic(auto, unfolding(lists::specs::Choice::one_of))]
fn is_bracket(b: u8) -> bool
    ensures { result ≡ one_of brackets b }
{
    matches!(b, b'{' | b'[' | b'(' | b'<' | b'>' | b')' | b']' | b'}')
}

// The RFC has the last, `, in no class; request A1 adds it.
#[tactic(auto, unfolding(lists::specs::Choice::one_of))]
fn is_symbol(b: u8) -> bool
    ensures { result ≡ one_of symbols b }
{
    matches!(
        b,
        b'\'' | b'"' | b'/' | b'\\' | b'%' | b'@' | b'$' | b'&' | b'#'
    ) || matches!(
        b,
        b'+' | b'-' | b'*' | b'=' | b'^' | b'_' | b'|' | b'~' | b'`'
    )
}
