// A network byte at the bulletin end.
ghost use Rattle.lists.specs.Buffers.{lent, RoomFor};
ghost use Rattle.bulletin.specs.Network.{data_read, item_read, network_read};
ghost use Rattle.bulletin.specs.Refinement.{view_bulletin, RefinesStep, RefinesStepOnHost};

use crate::{Bulletin, Step, body, moves};
use codes::{Each, Note};
use reader::Item;

// Data goes to the host, and ends every wait.
fn data_read(s: Bulletin, b: u8, host: &mut [u8]) -> Step
    requires { RoomFor (data_read (view_bulletin s) b).host host.old }
    ensures { RefinesStepOnHost (data_read (view_bulletin s) b) s (lent host) result }
{
    host[0] = b;
    let ready = Bulletin {
        waits: Each::all(false),
        ..s
    };
    Step {
        host: 1,
        ..Step::sends(ready, 0)
    }
}

// What a byte completed.
fn item_read(s: Bulletin, item: Item, host: &mut [u8], wire: &mut [u8]) -> Step
    requires room_for { RoomFor (item_read (view_bulletin s) item).host host.old }
    requires room_for_2 { RoomFor (item_read (view_bulletin s) item).wire wire.old }
    ensures { RefinesStep (item_read (view_bulletin s) item) s (lent host) (lent wire) result }
{
    match item {
        Item::Nothing => Step::sends(s, 0),
        Item::Data(b) => data_read(s, b, host),
        Item::Negotiated(v, option) => moves::negotiated(s, v, option, wire),
        Item::BodyEnd => body::body_read(s, wire),
        Item::StrayCommand => Step::notes(Note::Stray, s),
    }
}

pub fn network_read(s: Bulletin, b: u8, host: &mut [u8], wire: &mut [u8]) -> Step
    requires room_for { RoomFor (network_read (view_bulletin s) b).host host.old }
    requires room_for_2 { RoomFor (network_read (view_bulletin s) b).wire wire.old }
    ensures { RefinesStep (network_read (view_bulletin s) b) s (lent host) (lent wire) result }
{
    let read = reader::read_byte(s.reader, b);
    let t = Bulletin {
        reader: read.reader,
        ..s
    };
    item_read(t, read.item, host, wire)
}
