// The items of a field: each is a call on the printer end, with a line of its own.
ghost use Rattle.std.specs.Prelude.{◌≡◌, length};
ghost use Rattle.lists.specs.Buffers.{lent, RoomFor};
ghost use Rattle.printer.specs.Refinement.{view_printer, RefinesAnswer};
ghost use Rattle.tape.specs.Lines.{answer_line};
ghost use Rattle.tape.specs.Running.{pair_of, typed_call, item_call};
ghost use Rattle.tape.specs.Refinement.Steps.{next_item};
ghost use Rattle.tape.specs.Refinement.Machine.{RefinesItem};

use super::lines::Line;
use super::{Item, Place, Shown, Tag};
use codes::{Code, Note};
use keys::Key;
use printer::{Answer, Printer, calls};

// The item that a body begins with, if one is left of it.
pub fn next_item(tag: Tag, body: &[u8]) -> Option<Item>
    ensures { result ≡ next_item tag body.now }
{
    match (tag, body) {
        (Tag::Network, [b, ..]) => Some(Item::NetworkByte(*b)),
        (Tag::Keys, [kind, v, ..]) => Some(Item::KeyPair(*kind, *v)),
        (Tag::Asks, [option, way, ..]) => Some(Item::AskPair(*option, *way)),
        _ => None,
    }
}

// A key pair. One that stands for no key is code 3 and never comes to the printer end.
#[tactic(auto, unfolding(crate::specs::Running::pair_of))]
fn press_pair(s: Printer, kind: u8, v: u8, paper: &mut [u8], wire: &mut [u8]) -> Answer
    ensures { RefinesAnswer (typed_call (view_printer s) (pair_of kind v)) s (lent paper) (lent wire) result }
{
    let Ok(key) = Key::try_from((kind, v)) else {
        // written out, as `printer::calls::refused` is private
        return Answer {
            code: Code::BadCommand,
            note: Note::Clear,
            paper: 0,
            wire: 0,
            state: s,
        };
    };
    calls::press(s, key, paper, wire)
}

fn call_item(s: Printer, item: Item, paper: &mut [u8], wire: &mut [u8]) -> Answer
    ensures { RefinesAnswer (item_call (view_printer s) item) s (lent paper) (lent wire) result }
{
    match item {
        Item::NetworkByte(b) => calls::network_byte(s, b, paper, wire),
        Item::KeyPair(kind, v) => press_pair(s, kind, v, paper, wire),
        Item::AskPair(option, way) => calls::ask(s, option, way, paper, wire),
    }
}

// The item at a place, and its line.
pub fn put_item(
    s: Printer,
    p: Place,
    item: Item,
    paper: &mut [u8],
    wire: &mut [u8],
    out: &mut [u8],
) -> Shown
    requires { RoomFor (answer_line p.field p.item (item_call (view_printer s) item (length paper.old) (length wire.old))) out.old }
    ensures { RefinesItem (item_call (view_printer s) item) (answer_line p.field p.item) s (lent paper) (lent wire) (lent out) result }
{
    let answer = call_item(s, item, paper, wire);
    let line = Line {
        field: p.field,
        item: p.item,
        code: answer.code,
        paper: &paper[..answer.paper],
        wire: &wire[..answer.wire],
    };
    Shown {
        written: line.put_shown(out),
        paper: answer.paper,
        wire: answer.wire,
        state: answer.state,
    }
}
