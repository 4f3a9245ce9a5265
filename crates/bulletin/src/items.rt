// Text items and orders as they are written.
ghost use Rattle.std.specs.Prelude.{◌≡◌};
ghost use Rattle.lists.specs.Buffers.{lent, WroteAtStart, RoomFor};
ghost use Rattle.bulletin.specs.State.{handlings_now, definitions_now};
ghost use Rattle.bulletin.specs.Calls.{bad_order, pair_bytes, order_pairs, order_body, order_bytes, item_bytes, wait_after, waits_after};
ghost use Rattle.sent_macros.specs.Refinement.{view_table};
ghost use Rattle.bulletin.specs.Refinement.{view_bulletin};

use crate::Bulletin;
use codes::{Disposition, Each, RCTE};
use disposition::{Handlings, ITEM_ROOM, Waits};
use keys::Key;
use negotiation::End;
use sent_macros::SendingTable;

// The most of an order's body: its option, cmd and two class pairs.
const ORDER_ROOM: usize = 6;

// An order's cmd is 0, or odd and at most 31.
pub fn bad_order(cmd: u8) -> bool
    ensures { result ≡ bad_order cmd }
{
    !(cmd == 0 || cmd % 2 == 1 && cmd <= 31)
}

// A class pair, if its bit is on.
fn put_pair(on: bool, pair: u16, out: &mut [u8]) -> usize
    requires { RoomFor (pair_bytes on pair) out.old }
    ensures { WroteAtStart (pair_bytes on pair) (lent out) result }
{
    if !on {
        return 0;
    }
    out[..2].copy_from_slice(&pair.to_be_bytes());
    2
}

// An order's class pairs, the one for break characters first.
fn put_pairs(cmd: u8, breaks: u16, sends: u16, out: &mut [u8]) -> usize
    requires { RoomFor (order_pairs cmd breaks sends) out.old }
    ensures { WroteAtStart (order_pairs cmd breaks sends) (lent out) result }
{
    let n = put_pair(bodies::sets_breaks(cmd), breaks, out);
    let m = put_pair(bodies::sets_sends(cmd), sends, &mut out[n..]);
    n + m
}

fn put_order_body(cmd: u8, breaks: u16, sends: u16, out: &mut [u8]) -> usize
    requires { RoomFor (order_body cmd breaks sends) out.old }
    ensures { WroteAtStart (order_body cmd breaks sends) (lent out) result }
{
    out[0] = RCTE;
    out[1] = cmd;
    2 + put_pairs(cmd, breaks, sends, &mut out[2..])
}

// An order to the printer end.
pub fn put_order(cmd: u8, breaks: u16, sends: u16, out: &mut [u8]) -> usize
    requires { RoomFor (order_bytes cmd breaks sends) out.old }
    ensures { WroteAtStart (order_bytes cmd breaks sends) (lent out) result }
{
    let mut body = [0u8; ORDER_ROOM];
    let n = put_order_body(cmd, breaks, sends, &mut body);
    wire::put_frame(&body[..n], out)
}

pub fn handlings_now(s: Bulletin) -> Handlings
    ensures { result ≡ handlings_now (view_bulletin s) }
{
    disposition::handlings_in(s.sides, s.values)
}

// Whether output waits for an option once an item is sent.
fn wait_after(waits: Waits, h: Handlings, k: Key, d: Disposition) -> bool
    ensures { result ≡ wait_after waits h k d }
{
    waits.of(d) || disposition::takes_part(k, d) && disposition::awaits(h.of(d))
}

// For which options output waits once an item is sent. Each is written out, and not by a closure over the options: within
// a generic function the check reads nothing off a closure's body.
pub fn waits_after(s: Bulletin, k: Key) -> Waits
    ensures { result ≡ waits_after (view_bulletin s) k }
{
    let h = handlings_now(s);
    Each {
        naocrd: wait_after(s.waits, h, k, Disposition::Naocrd),
        naolfd: wait_after(s.waits, h, k, Disposition::Naolfd),
        naoffd: wait_after(s.waits, h, k, Disposition::Naoffd),
        naohtd: wait_after(s.waits, h, k, Disposition::Naohtd),
    }
}

// With BM not in force, every byte is sent as free.
fn table_now(s: Bulletin) -> SendingTable
    ensures { view_table result ≡ definitions_now (view_bulletin s) }
{
    if negotiation::macros_in_force(End::Bulletin, s.sides) {
        s.table
    } else {
        sent_macros::none()
    }
}

// The bytes of an item: its data, byte by byte; a Command as it is.
pub fn put_item(s: Bulletin, k: Key, wire: &mut [u8]) -> usize
    requires { RoomFor (item_bytes (definitions_now (view_bulletin s)) (handlings_now (view_bulletin s)) k) wire.old }
    ensures { WroteAtStart (item_bytes (definitions_now (view_bulletin s)) (handlings_now (view_bulletin s)) k) (lent wire) result }
{
    if keys::is_command(k) {
        return wire::put_key(k, wire);
    }
    // Both before the data: looked up behind it, the state is copied once more.
    let handlings = handlings_now(s);
    let table = table_now(s);
    let mut data = [0u8; ITEM_ROOM];
    let n = disposition::put_item(handlings, k, &mut data);
    sent_macros::put_data(table, &data[..n], wire)
}
