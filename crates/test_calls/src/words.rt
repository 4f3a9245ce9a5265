// The words of a line: which call it asks for, and of a key or a text item which kind.
ghost use Rattle.std.specs.Prelude.{◌≤◌, length};

use crate::bad_line::BadLine;
use crate::hex;
use keys::Key;

#[derive(Clone, Copy)]
pub enum Named {
    Network,
    Key,
    Text,
    Ask,
    Suggest,
    Order,
    Define,
    Use,
    Issue,
    Status,
    Report,
    Output,
    Room,
}

#[derive(Clone, Copy)]
pub enum Kind {
    Char,
    Line,
    Command,
}

// What a line of keys or text items has: any number of characters, or one Line or Command.
#[derive(Clone, Copy)]
pub enum Item {
    Characters,
    One(Key),
}

// The call, the kind behind `key` or `text`, and what stands behind them.
#[derive(Clone, Copy)]
pub struct Head<'a> {
    pub named: Option<Named>,
    pub kind: Option<Kind>,
    pub rest: &'a [u8],
}

pub fn is_space(b: u8) -> bool {
    b == b' ' || b == b'\n'
}

pub fn past_spaces(line: &[u8]) -> &[u8] {
    let start = line.iter().position(|b| !is_space(*b));
    &line[start.unwrap_or(line.len())..]
}

// The first word, and what stands behind it.
fn split_word(line: &[u8]) -> (&[u8], &[u8]) {
    let line = past_spaces(line);
    let end = line.iter().position(|b| is_space(*b));
    line.split_at(end.unwrap_or(line.len()))
}

// No TryFrom, here and below: there is nothing to tell of a word that is none.
fn name_of(word: &[u8]) -> Option<Named> {
    match word {
        b"net" => Some(Named::Network),
        b"key" => Some(Named::Key),
        b"text" => Some(Named::Text),
        b"ask" => Some(Named::Ask),
        b"suggest" => Some(Named::Suggest),
        b"order" => Some(Named::Order),
        b"define" => Some(Named::Define),
        b"use" => Some(Named::Use),
        b"issue" => Some(Named::Issue),
        b"status" => Some(Named::Status),
        b"report" => Some(Named::Report),
        b"output" => Some(Named::Output),
        b"room" => Some(Named::Room),
        _ => None,
    }
}

fn kind_of(word: &[u8]) -> Option<Kind> {
    match word {
        b"char" => Some(Kind::Char),
        b"line" => Some(Kind::Line),
        b"command" => Some(Kind::Command),
        _ => None,
    }
}

pub fn item_of(kind: Kind, bytes: &[u8]) -> Result<Item, BadLine> {
    match kind {
        Kind::Char => Ok(Item::Characters),
        Kind::Line => {
            let [] = hex::exactly::<0>(bytes)?;
            Ok(Item::One(Key::Line))
        }
        Kind::Command => {
            let [command] = hex::exactly::<1>(bytes)?;
            Ok(Item::One(Key::Command(command)))
        }
    }
}

pub fn head_of(line: &[u8]) -> Head<'_> {
    let (word, rest) = split_word(line);
    let named = name_of(word);
    if !matches!(named, Some(Named::Key | Named::Text)) {
        return Head {
            named,
            kind: None,
            rest,
        };
    }
    let (word, rest) = split_word(rest);
    Head {
        named,
        kind: kind_of(word),
        rest,
    }
}
