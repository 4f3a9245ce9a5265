// Network bytes read from the sides, the phase and the waits alone, so that the rest of the state stays where it lies: `network` reads
// the same bytes by value, and this is for the rows of IAC and SGA in docs/PERFORMANCE.md. The printer end's differs: RCTE's hold and the macros say there what is printed; here the waits do not, and
// data is always given.
ghost use Rattle.std.specs.Prelude.{◌≡◌};
ghost use Rattle.lists.specs.Buffers.{lent, RoomFor};
ghost use Rattle.bulletin.specs.InPlace.{moves_alone, gives_data, phase_moves, negotiated_in_place, item_in_place, in_place_read, HasRoom, HasRoomOnWire, RefinesInPlace, RefinesInPlaceOnHost, RefinesInPlaceOnWire};

use codes::{Each, Verb};
use disposition::Waits;
use negotiation::{End, Side, Sides};
use reader::{Item, Phase, PhaseRead};

// All that such a byte reads of the state, and all that it changes.
#[derive(Clone, Copy)]
pub struct Parts {
    pub sides: Sides,
    pub phase: Phase,
    pub waits: Waits,
}

// The parts after a byte, and how many bytes went to the host and to the wire.
#[derive(Clone, Copy)]
pub struct InPlace {
    pub parts: Parts,
    pub host: usize,
    pub wire: usize,
}

// Nothing but its state follows as the side moves: BM's empties its table, and that of an option about output disposition forgets its
// values.
fn moves_alone(side: Side) -> bool
    ensures { result ≡ moves_alone side }
{
    !matches!(side, Side::Macro | Side::Disposes(_))
}

// Data goes to the host, and ends every wait.
fn data_read(parts: Parts, next: Phase, b: u8, host: &mut [u8]) -> InPlace
    requires { RoomFor (gives_data parts next b).host host.old }
    ensures { RefinesInPlaceOnHost (gives_data parts next b) (lent host) result }
{
    host[0] = b;
    InPlace {
        parts: Parts {
            phase: next,
            waits: Each::all(false),
            ..parts
        },
        host: 1,
        wire: 0,
    }
}

// WILL, WONT, DO or DONT of an option, if its side moves alone.
fn negotiated(parts: Parts, next: Phase, v: Verb, option: u8, wire: &mut [u8]) -> Option<InPlace>
    requires { HasRoomOnWire (negotiated_in_place parts next v option) wire.old }
    ensures { RefinesInPlaceOnWire (negotiated_in_place parts next v option) (lent wire) result }
{
    let turn = negotiation::heard_by(End::Bulletin, parts.sides, v, option);
    if !moves_alone(turn.side) {
        return None;
    }
    let wire = negotiation::put_reply(turn.whose, turn.reply, option, wire);
    Some(InPlace {
        parts: Parts {
            sides: negotiation::moved(parts.sides, turn.side, turn.next),
            phase: next,
            ..parts
        },
        host: 0,
        wire,
    })
}

// What a byte completed, the phase after it being the next.
fn item_read(parts: Parts, read: PhaseRead, host: &mut [u8], wire: &mut [u8]) -> Option<InPlace>
    requires { HasRoom (item_in_place parts read) host.old wire.old }
    ensures { RefinesInPlace (item_in_place parts read) (lent host) (lent wire) result }
{
    match read.item {
        Item::Nothing => Some(InPlace {
            parts: Parts {
                phase: read.phase,
                ..parts
            },
            host: 0,
            wire: 0,
        }),
        Item::Data(b) => Some(data_read(parts, read.phase, b, host)),
        Item::Negotiated(v, option) => negotiated(parts, read.phase, v, option, wire),
        Item::BodyEnd | Item::StrayCommand => None,
    }
}

// None of a byte that needs the rest of the state: nothing is written.
pub fn read(parts: Parts, b: u8, host: &mut [u8], wire: &mut [u8]) -> Option<InPlace>
    requires { HasRoom (in_place_read parts b) host.old wire.old }
    ensures { RefinesInPlace (in_place_read parts b) (lent host) (lent wire) result }
{
    let read = reader::phase_read(parts.phase, b)?;
    item_read(parts, read, host, wire)
}
