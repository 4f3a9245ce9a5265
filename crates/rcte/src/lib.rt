// RCTE's control of the keyboard: the hold, the orders, what waits and what is gathered.
#![tactic(auto)]

ghost use Rattle.std.specs.Prelude.{◌≡◌};
ghost use Rattle.lists.specs.Buffers.{lent, RoomFor};
ghost use Rattle.rcte.specs.Control as control;
ghost use Rattle.rcte.specs.Refinement.{view_rcte, started_cells, order_cells, gathered_cells, numbers_in, RefinesStep, pressed_if_room};

use bodies::{Action, RcteCommand};
use keys::Key;

mod commands;
mod taking;
mod waiting;

pub use taking::send_key;
pub use waiting::is_full;

// So many keys may wait.
pub const WAIT_ROOM: usize = 256;

// .. and so many bytes be gathered.
pub const GATHER_ROOM: usize = 512;

// A key that waits is kept as a number, and a count stands beside each array: a host lends both to the library for C. Cells past
// a count are 0.
#[derive(Clone, Copy)]
pub struct Rcte {
    pub held: bool,
    pub action: Action,
    pub breaks: u16,
    pub sends: u16,
    pub waiting: [u16; WAIT_ROOM],
    pub count: usize,
    pub gathered: [u8; GATHER_ROOM],
    pub filled: usize,
}

// How many bytes went to the paper and to the wire, and the state after that. The counts stand flat, as in every step and answer of an
// end.
#[derive(Clone, Copy)]
pub struct RcteStep {
    pub paper: usize,
    pub wire: usize,
    pub rcte: Rcte,
}

// How many bytes went to the paper and to the wire.
#[derive(Clone, Copy)]
pub struct Written {
    pub paper: usize,
    pub wire: usize,
}

// What the commands have set: the action, the break classes and the transmission classes.
#[derive(Clone, Copy)]
struct Orders {
    action: Action,
    breaks: u16,
    sends: u16,
}

// The gathered bytes as the state keeps them, to be lent while keys are taken up.
#[derive(Clone, Copy)]
struct Gathered {
    cells: [u8; GATHER_ROOM],
    filled: usize,
}

// A key taken up: how many bytes went to the paper and to the wire, and whether it broke.
#[derive(Clone, Copy)]
struct Taken {
    paper: usize,
    wire: usize,
    broke: bool,
}

impl Rcte {
    fn orders(&self) -> Orders
        ensures { result ≡ order_cells self.now }
    {
        Orders {
            action: self.action,
            breaks: self.breaks,
            sends: self.sends,
        }
    }

    fn gathered_bytes(&self) -> Gathered
        ensures { result ≡ gathered_cells self.now }
    {
        Gathered {
            cells: self.gathered,
            filled: self.filled,
        }
    }

    // The numbers of the keys that wait.
    fn waiting_numbers(&self) -> &[u16]
        ensures { result.now ≡ numbers_in self.now }
    {
        &self.waiting[..self.count.min(WAIT_ROOM)]
    }
}

// As RCTE comes in force.
pub fn started() -> Rcte
    ensures { result ≡ started_cells }
{
    Rcte {
        held: true,
        action: Action {
            skipbreak: false,
            skiptext: false,
        },
        breaks: 0,
        sends: 0,
        waiting: [0; WAIT_ROOM],
        count: 0,
        gathered: [0; GATHER_ROOM],
        filled: 0,
    }
}

// A key under RCTE waits where keys are held, and else is taken up at once. One that finds the queue full changes
// nothing.
pub fn pressed(e: Rcte, k: Key, paper: &mut [u8], wire: &mut [u8]) -> RcteStep
    requires room_for { RoomFor (pressed_if_room (view_rcte e) k).paper paper.old }
    requires room_for_2 { RoomFor (pressed_if_room (view_rcte e) k).wire wire.old }
    ensures { RefinesStep (pressed_if_room (view_rcte e) k) e (lent paper) (lent wire) result }
{
    if e.held {
        return RcteStep {
            paper: 0,
            wire: 0,
            rcte: waiting::queued(e, k),
        };
    }
    let mut g = e.gathered_bytes();
    let t = taking::take_up(e.orders(), &mut g, k, paper, wire);
    RcteStep {
        paper: t.paper,
        wire: t.wire,
        rcte: waiting::left(e, g, 0, t.broke),
    }
}

// A command sets actions and classes, and then takes up what waits.
pub fn commanded(e: Rcte, c: RcteCommand, paper: &mut [u8], wire: &mut [u8]) -> RcteStep
    requires room_for { RoomFor (control.commanded (view_rcte e) c).paper paper.old }
    requires room_for_2 { RoomFor (control.commanded (view_rcte e) c).wire wire.old }
    ensures { RefinesStep (control.commanded (view_rcte e) c) e (lent paper) (lent wire) result }
{
    waiting::release(commands::ordered(e, c), paper, wire)
}

// As RCTE ends: what was gathered goes out, then each waiting key is taken up as without RCTE.
pub fn rcte_ended(e: Rcte, echoed: bool, paper: &mut [u8], wire: &mut [u8]) -> RcteStep
    requires room_for { RoomFor (control.rcte_ended echoed (view_rcte e)).paper paper.old }
    requires room_for_2 { RoomFor (control.rcte_ended echoed (view_rcte e)).wire wire.old }
    ensures { RefinesStep (control.rcte_ended echoed (view_rcte e)) e (lent paper) (lent wire) result }
{
    let n = e.gathered_bytes().flush(wire);
    let rest = waiting::send_waiting(e, echoed, paper, &mut wire[n..]);
    RcteStep {
        paper: rest.paper,
        wire: n + rest.wire,
        rcte: started(),
    }
}
