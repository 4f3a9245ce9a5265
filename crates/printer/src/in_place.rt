// A network byte that changes nothing but the option states and the reader's phase, read from the parts that it needs: the rest of the
// state stays where it lies. A byte that is not handled has written nothing. `network` reads the same bytes by value; this is for the
// rows of IAC and SGA in docs/PERFORMANCE.md.
ghost use Rattle.std.specs.Prelude.{◌≡◌};
ghost use Rattle.lists.specs.Buffers.{lent, RoomFor};
ghost use Rattle.received_macros.specs.Texts.{text};
ghost use Rattle.printer.specs.InPlace.{
  entry_in_place,
  data_in_place,
  moves_alone,
  negotiated_in_place,
  item_in_place,
  byte_in_place,
  may_replace,
  in_place_read,
  RefinesInPlace,
  RefinesInPlaceOnPaper,
  RefinesInPlaceOnWire,
  table_in,
  entry_in_table,
};

use crate::Parts;
use codes::Verb;
use negotiation::{End, Side};
use reader::{Item, Phase};
use received_macros::ROOM;

// The parts after a byte that is handled, and how many bytes went to the paper and to the wire.
#[derive(Clone, Copy)]
pub struct InPlace {
    pub parts: Parts,
    pub paper: usize,
    pub wire: usize,
}

// A macro's text from where it lies in the cells, by one copy if it is plain throughout and has nothing to hold.
#[tactic(auto, unfolding(crate::specs::InPlace::entry_in_place))]
pub fn text_read(parts: Parts, bytes: &[u8], paper: &mut [u8]) -> Option<InPlace>
    requires { RoomFor (entry_in_place parts.sides parts.phase parts.held (text bytes.now)).paper paper.old }
    ensures { RefinesInPlaceOnPaper (entry_in_place parts.sides parts.phase parts.held (text bytes.now)) (lent paper) result }
{
    if !parts.is_settled() || reader::text_front(bytes) != bytes.len() {
        return None;
    }
    Some(InPlace {
        parts,
        paper: wire::put_bytes(bytes, paper),
        wire: 0,
    })
}

// A byte that has a mark; BM is in force and no command is being read.
fn marked_read(
    parts: Parts,
    marks: &[u16; 256],
    cells: &[u8; ROOM],
    b: u8,
    paper: &mut [u8],
) -> Option<InPlace>
    requires { RoomFor (entry_in_place parts.sides parts.phase parts.held (entry_in_table marks.now cells.now b)).paper paper.old }
    ensures { RefinesInPlaceOnPaper (entry_in_place parts.sides parts.phase parts.held (entry_in_table marks.now cells.now b)) (lent paper) result }
{
    let bytes = received_macros::text_in(marks, cells, b)?;
    text_read(parts, bytes, paper)
}

// Data is printed where it has nothing to hold.
fn data_read(parts: Parts, next: Phase, b: u8, paper: &mut [u8]) -> Option<InPlace>
    requires { RoomFor (data_in_place parts.sides parts.phase next parts.held b).paper paper.old }
    ensures { RefinesInPlaceOnPaper (data_in_place parts.sides parts.phase next parts.held b) (lent paper) result }
{
    let after = Parts {
        phase: next,
        ..parts
    };
    if !after.is_settled() {
        return None;
    }
    paper[0] = b;
    Some(InPlace {
        parts: after,
        paper: 1,
        wire: 0,
    })
}

// Nothing but its state follows as the side moves.
fn moves_alone(side: Side) -> bool
    ensures { result ≡ moves_alone side }
{
    matches!(
        side,
        Side::Echo | Side::BulletinSga | Side::PrinterSga | Side::Uncarried
    )
}

// WILL, WONT, DO or DONT of an option.
#[tactic(auto, unfolding(crate::specs::InPlace::turn_in_place))]
fn negotiated(parts: Parts, next: Phase, v: Verb, option: u8, wire: &mut [u8]) -> Option<InPlace>
    requires { RoomFor (negotiated_in_place parts.sides parts.phase next v option).wire wire.old }
    ensures { RefinesInPlaceOnWire (negotiated_in_place parts.sides parts.phase next v option) (lent wire) result }
{
    let turn = negotiation::heard_by(End::Printer, parts.sides, v, option);
    if !moves_alone(turn.side) {
        return None;
    }
    Some(InPlace {
        parts: Parts {
            sides: negotiation::moved(parts.sides, turn.side, turn.next),
            phase: next,
            ..parts
        },
        paper: 0,
        wire: negotiation::put_reply(turn.whose, turn.reply, option, wire),
    })
}

// What a byte completed, the phase after it being next.
#[tactic(auto, unfolding(crate::specs::InPlace::item_in_place))]
fn item_read(
    parts: Parts,
    next: Phase,
    item: Item,
    paper: &mut [u8],
    wire: &mut [u8],
) -> Option<InPlace>
    requires room_for { RoomFor (item_in_place parts.sides parts.phase next parts.held item).paper paper.old }
    requires room_for_2 { RoomFor (item_in_place parts.sides parts.phase next parts.held item).wire wire.old }
    ensures { RefinesInPlace (item_in_place parts.sides parts.phase next parts.held item) (lent paper) (lent wire) result }
{
    match item {
        Item::Nothing => Some(InPlace {
            parts: Parts {
                phase: next,
                ..parts
            },
            paper: 0,
            wire: 0,
        }),
        Item::Data(b) => data_read(parts, next, b, paper),
        Item::Negotiated(v, option) => negotiated(parts, next, v, option, wire),
        Item::BodyEnd | Item::StrayCommand => None,
    }
}

// A byte read as it stands.
#[tactic(auto, unfolding(crate::specs::InPlace::byte_in_place))]
fn byte_read(parts: Parts, b: u8, paper: &mut [u8], wire: &mut [u8]) -> Option<InPlace>
    requires room_for { RoomFor (byte_in_place parts.sides parts.phase parts.held b).paper paper.old }
    requires room_for_2 { RoomFor (byte_in_place parts.sides parts.phase parts.held b).wire wire.old }
    ensures { RefinesInPlace (byte_in_place parts.sides parts.phase parts.held b) (lent paper) (lent wire) result }
{
    let read = reader::phase_read(parts.phase, b)?;
    item_read(parts, read.phase, read.item, paper, wire)
}

// The macros may replace the byte. Its mark is looked at before the byte is read as it stands: a state that no session
// reaches may have one at IAC.
pub fn may_replace(parts: Parts, marks: &[u16; 256], b: u8) -> bool
    ensures { result ≡ may_replace parts.sides parts.phase marks.now b }
{
    negotiation::macros_in_force(End::Printer, parts.sides)
        && reader::is_between(parts.phase)
        && !received_macros::is_unmarked(marks, b)
}

// None of a byte that needs the whole state.
#[tactic(auto, unfolding(crate::specs::InPlace::in_place_read))]
pub fn read(
    parts: Parts,
    marks: &[u16; 256],
    cells: &[u8; ROOM],
    b: u8,
    paper: &mut [u8],
    wire: &mut [u8],
) -> Option<InPlace>
    requires room_for { RoomFor (in_place_read parts.sides parts.phase parts.held (table_in marks.now cells.now) b).paper paper.old }
    requires room_for_2 { RoomFor (in_place_read parts.sides parts.phase parts.held (table_in marks.now cells.now) b).wire wire.old }
    ensures { RefinesInPlace (in_place_read parts.sides parts.phase parts.held (table_in marks.now cells.now) b) (lent paper) (lent wire) result }
{
    if may_replace(parts, marks, b) {
        return marked_read(parts, marks, cells, b, paper);
    }
    byte_read(parts, b, paper, wire)
}
