// The keys that wait: one more of them, what is left once some were taken up, and all of them taken up or sent.
ghost use Rattle.std.specs.Prelude.{◌≡◌, ◌-◌, ◌≤◌, ◌++◌, length, replicate};
ghost use mathlib.Core.List.{flat_map};
ghost use Rattle.lists.specs.Buffers.{lent, WroteBothAtStart, RoomFor};
ghost use Rattle.keys.specs.Keys.{key_wire};
ghost use Rattle.rcte.specs.Control as control;
ghost use Rattle.rcte.specs.Control.{sent_papers};
ghost use Rattle.rcte.specs.Refinement.{waiting_in, view_rcte, queued_if_room, RefinesState, RefinesStep, bytes_in, releasing, left_at, Left};

use crate::{GATHER_ROOM, Gathered, Rcte, RcteStep, WAIT_ROOM, Written, taking};
use keys::Key;

// Keys are held, and 256 already wait.
#[tactic(auto, unfolding(crate::specs::Control::is_full))]
pub fn is_full(e: Rcte) -> bool
    ensures { result ≡ control.is_full (view_rcte e) }
{
    e.held && e.count >= WAIT_ROOM
}

// A key put behind those that wait, if there is room.
pub fn queued(e: Rcte, k: Key) -> Rcte
    ensures { RefinesState (queued_if_room (view_rcte e) k) e result }
{
    if e.count >= WAIT_ROOM {
        return e;
    }
    let mut waiting = e.waiting;
    waiting[e.count] = u16::from(k);
    Rcte {
        waiting,
        count: e.count + 1,
        ..e
    }
}

// The cells of a queue in which those numbers wait.
fn cells_of(numbers: &[u16]) -> [u16; WAIT_ROOM]
    requires { length numbers.now ≤ 256 }
    ensures { result ≡ numbers.now ++ replicate (256 - length numbers.now) 0 }
{
    let mut cells = [0; WAIT_ROOM];
    cells[..numbers.len()].copy_from_slice(numbers);
    cells
}

// The state once so many of the waiting keys were taken up.
pub fn left(e: Rcte, g: Gathered, taken: usize, held: bool) -> Rcte
    ensures { Left (left_at (view_rcte e) (bytes_in g) taken held) g e result }
{
    let numbers = e.waiting_numbers();
    let rest = &numbers[taken.min(numbers.len())..];
    // Arrays go into a literal by variables: the borrow checker refuses a call or another field there.
    let Gathered {
        cells: gathered,
        filled,
    } = g;
    let waiting = cells_of(rest);
    Rcte {
        held,
        waiting,
        count: rest.len(),
        gathered,
        filled,
        ..e
    }
}

// Takes up waiting keys one after the other, the first break being the last; if none breaks, the hold is over. The loop gives how
// many were taken up where one broke. Most keys are plain characters, which costs one look at their class here: by take_up each
// would cost half as much again (39,271 and 25,571 instructions a command). A loop left by break with where it stopped, as document
// 01 has it (docs/RULES.md 12.10): a `for` gives no value.
pub fn release(e: Rcte, paper: &mut [u8], wire: &mut [u8]) -> RcteStep
    requires room_for { RoomFor (releasing (view_rcte e)).paper paper.old }
    requires room_for_2 { RoomFor (releasing (view_rcte e)).wire wire.old }
    ensures { RefinesStep (releasing (view_rcte e)) e (lent paper) (lent wire) result }
{
    let o = e.orders();
    let numbers = e.waiting_numbers();
    let mut g = e.gathered_bytes();
    let mut i: usize = 0;
    let mut p: usize = 0;
    let mut w: usize = 0;
    let stopped = loop {
        let Some(&number) = numbers.get(i) else {
            break None;
        };
        i += 1;
        let k = Key::from(number);
        if let Key::Char(b) = k
            && g.filled < GATHER_ROOM
            && o.is_plain_key(b)
        {
            p += taking::print_plain(o, b, &mut paper[p..]);
            g.cells[g.filled] = b;
            g.filled += 1;
            continue;
        }
        let t = taking::take_up(o, &mut g, k, &mut paper[p..], &mut wire[w..]);
        p += t.paper;
        w += t.wire;
        if t.broke {
            break Some(i);
        }
    };
    RcteStep {
        paper: p,
        wire: w,
        rcte: left(e, g, stopped.unwrap_or(e.count), stopped.is_some()),
    }
}

// All waiting keys are sent at once.
pub fn send_waiting(e: Rcte, echoed: bool, paper: &mut [u8], wire: &mut [u8]) -> Written
    requires room_for { RoomFor (sent_papers echoed (waiting_in e)) paper.old }
    requires room_for_2 { RoomFor (flat_map key_wire (waiting_in e)) wire.old }
    ensures { WroteBothAtStart (sent_papers echoed (waiting_in e)) (flat_map key_wire (waiting_in e)) (lent paper) (lent wire) result.paper result.wire }
{
    let mut p: usize = 0;
    let mut w: usize = 0;
    for &number in e.waiting_numbers() {
        let k = Key::from(number);
        let sent = taking::send_key(k, echoed, &mut paper[p..], &mut wire[w..]);
        p += sent.paper;
        w += sent.wire;
    }
    Written { paper: p, wire: w }
}
