// A key taken up: its paper, its bytes gathered, and what is sent.
ghost use Rattle.std.specs.Prelude.{◌≡◌, ◌+◌, ◌≤◌, [], ◌++◌, length};
ghost use Rattle.lists.specs.Buffers.{lent, WroteAtStart, WroteBothAtStart, RoomFor};
ghost use Rattle.keys.specs.Keys.{key_wire};
ghost use Rattle.rcte.specs.Taking.{taken_up, sent_paper, sent_first};
ghost use Rattle.rcte.specs.Refinement.{view_orders, bytes_in, taken_paper, stays_first, plain_paper, Gathers, RefinesSent, RefinesTaken};

use crate::{GATHER_ROOM, Gathered, Orders, Taken, Written};
use codes::{CR, IAC};
use keys::Key;

// How many bytes a key is on the wire.
#[tactic(auto, unfolding(keys::specs::Keys::key_wire))]
fn wire_length(k: Key) -> usize
    ensures { result ≡ length (key_wire k) }
{
    match k {
        Key::Char(CR | IAC) | Key::Line | Key::Command(_) => 2,
        Key::Char(_) => 1,
    }
}

// A taken key's paper.
fn print(o: Orders, k: Key, paper: &mut [u8]) -> usize
    requires { RoomFor (taken_paper (view_orders o) k) paper.old }
    ensures { WroteAtStart (taken_paper (view_orders o) k) (lent paper) result }
{
    if o.is_skipped(k) {
        0
    } else {
        keys::put_paper(k, paper)
    }
}

impl Gathered {
    fn bytes(&self) -> &[u8]
        ensures { result.now ≡ bytes_in self.now }
    {
        &self.cells[..self.filled.min(GATHER_ROOM)]
    }

    // All gathered bytes are sent.
    pub fn flush(&mut self, wire: &mut [u8]) -> usize
        requires { RoomFor (bytes_in self.old) wire.old }
        ensures { RefinesSent (bytes_in self.old) [] self.old self.new (lent wire) result }
    {
        let sent = wire::put_bytes(self.bytes(), wire);
        self.cells = [0; GATHER_ROOM];
        self.filled = 0;
        sent
    }

    // Gathered bytes that the key's would take past 512 are sent first.
    fn make_room(&mut self, k: Key, wire: &mut [u8]) -> usize
        requires { RoomFor (sent_first (bytes_in self.old) k) wire.old }
        ensures { RefinesSent (sent_first (bytes_in self.old) k) (stays_first (bytes_in self.old) k) self.old self.new (lent wire) result }
    {
        if self.bytes().len() + wire_length(k) > GATHER_ROOM {
            return self.flush(wire);
        }
        0
    }

    // The key's bytes behind the gathered ones.
    fn push(&mut self, k: Key)
        requires { length (bytes_in self.old) + length (key_wire k) ≤ 512 }
        ensures { Gathers (bytes_in self.old ++ key_wire k) self.old self.new }
    {
        let n = self.bytes().len();
        self.filled = n + wire::put_key(k, &mut self.cells[n..]);
    }

    // The key's bytes are gathered; a break or a transmission character then sends all gathered bytes.
    fn gather(&mut self, o: Orders, k: Key, wire: &mut [u8]) -> usize
        requires { RoomFor (taken_up (view_orders o) (bytes_in self.old) k).wire wire.old }
        ensures { RefinesSent (taken_up (view_orders o) (bytes_in self.old) k).wire (taken_up (view_orders o) (bytes_in self.old) k).gathered self.old self.new (lent wire) result }
    {
        let first = self.make_room(k, wire);
        self.push(k);
        if o.flushes(k) {
            return first + self.flush(&mut wire[first..]);
        }
        first
    }
}

// A plain character's paper.
pub fn print_plain(o: Orders, b: u8, paper: &mut [u8]) -> usize
    requires { RoomFor (plain_paper (view_orders o) b) paper.old }
    ensures { WroteAtStart (plain_paper (view_orders o) b) (lent paper) result }
{
    if o.action.skiptext {
        return 0;
    }
    paper[0] = b;
    1
}

// A key is taken up, and what stays of its bytes is gathered.
#[tactic(auto, unfolding(crate::specs::Taking::taken_up))]
pub fn take_up(o: Orders, g: &mut Gathered, k: Key, paper: &mut [u8], wire: &mut [u8]) -> Taken
    requires room_for { RoomFor (taken_up (view_orders o) (bytes_in g.old) k).paper paper.old }
    requires room_for_2 { RoomFor (taken_up (view_orders o) (bytes_in g.old) k).wire wire.old }
    ensures { RefinesTaken (taken_up (view_orders o) (bytes_in g.old) k) g.old g.new (lent paper) (lent wire) result }
{
    Taken {
        paper: print(o, k, paper),
        wire: g.gather(o, k, wire),
        broke: o.is_break(k),
    }
}

// A key sent at once, without RCTE or as it ends: printed unless the other end echoes.
pub fn send_key(k: Key, echoed: bool, paper: &mut [u8], wire: &mut [u8]) -> Written
    requires room_for { RoomFor (sent_paper echoed k) paper.old }
    requires room_for_2 { RoomFor (key_wire k) wire.old }
    ensures { WroteBothAtStart (sent_paper echoed k) (key_wire k) (lent paper) (lent wire) result.paper result.wire }
{
    Written {
        paper: if echoed { 0 } else { keys::put_paper(k, paper) },
        wire: wire::put_key(k, wire),
    }
}
