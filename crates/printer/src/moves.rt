// Negotiation: what is heard, and what follows as a side's state changes. Each end has its own: RCTE ends with keys to send at this
// end alone, and the macros go at other states (`printer/Network.side_moved`, `bulletin/Network.side_state`).
ghost use Rattle.lists.specs.Buffers.{lent, RoomFor};
ghost use Rattle.negotiation.specs.Carried.{reply_bytes};
ghost use Rattle.negotiation.specs.declared.Side.TheVariants.{Rcte, Macro, Disposes};
ghost use Rattle.printer.specs.Network.{rcte_moved, side_moved, moved_with_reply, negotiation_read};
ghost use Rattle.std.specs.Prelude.{◌≡◌, true, false};
ghost use Rattle.printer.specs.Refinement.{view_printer, rcte_stepped, RefinesStep, RefinesState};

use crate::{Printer, Step};
use codes::{Disposition, Note, Verb, Whose};
use negotiation::{End, OptionState, Reply, Side};
use rcte::RcteStep;

// What RCTE's control did.
pub fn after_rcte(s: Printer, e: RcteStep) -> Step
    ensures { result ≡ rcte_stepped s e }
{
    let mut state = s;
    state.rcte = e.rcte;
    Step {
        note: Note::Clear,
        paper: e.paper,
        wire: e.wire,
        state,
    }
}

// As RCTE ends: what was gathered goes out, then each waiting key, to paper as well.
fn rcte_ended(s: Printer, paper: &mut [u8], wire: &mut [u8]) -> Step
    requires room_for { RoomFor (rcte_moved true false (view_printer s)).paper paper.old }
    requires room_for_2 { RoomFor (rcte_moved true false (view_printer s)).wire wire.old }
    ensures { RefinesStep (rcte_moved true false (view_printer s)) s (lent paper) (lent wire) result }
{
    let echoed = negotiation::echo_in_force(s.sides);
    after_rcte(s, rcte::rcte_ended(s.rcte, echoed, paper, wire))
}

// RCTE ends as it leaves YES, and starts anew as it reaches YES.
#[tactic(auto, unfolding(crate::specs::Network::side_moved))]
fn rcte_moved(s: Printer, q: OptionState, paper: &mut [u8], wire: &mut [u8]) -> Step
    requires room_for { RoomFor (side_moved (view_printer s) Rcte q).paper paper.old }
    requires room_for_2 { RoomFor (side_moved (view_printer s) Rcte q).wire wire.old }
    ensures { RefinesStep (side_moved (view_printer s) Rcte q) s (lent paper) (lent wire) result }
{
    let was = negotiation::rcte_in_force(s.sides);
    let t = Printer {
        sides: negotiation::moved(s.sides, Side::Rcte, q),
        ..s
    };
    match (was, negotiation::is_yes(q)) {
        (true, false) => rcte_ended(t, paper, wire),
        (false, true) => {
            let anew = Printer {
                rcte: rcte::started(),
                ..t
            };
            Step::notes(Note::Clear, anew)
        }
        _ => Step::notes(Note::Clear, t),
    }
}

// The macros are forgotten as BM is no longer in force.
#[tactic(auto, unfolding(crate::specs::Network::side_moved))]
fn macro_moved(s: Printer, q: OptionState) -> Printer
    ensures { RefinesState (side_moved (view_printer s) Macro q) s result }
{
    let t = Printer {
        sides: negotiation::moved(s.sides, Side::Macro, q),
        ..s
    };
    if negotiation::is_yes_or_ending(q) {
        return t;
    }
    Printer {
        table: received_macros::empty(),
        ..t
    }
}

// Both values of an option about output disposition are forgotten as it is no longer in force.
#[tactic(auto, unfolding(crate::specs::Network::side_moved))]
fn disposition_moved(s: Printer, d: Disposition, q: OptionState) -> Printer
    ensures { RefinesState (side_moved (view_printer s) (Disposes d) q) s result }
{
    let t = Printer {
        sides: negotiation::moved(s.sides, Side::Disposes(d), q),
        ..s
    };
    if negotiation::is_yes(q) {
        return t;
    }
    Printer {
        values: s.values.with(d, disposition::unspoken()),
        ..t
    }
}

// A side's state changes, with what follows from it; the reply is written before this.
#[tactic(auto, unfolding(crate::specs::Network::side_moved))]
fn side_moved(s: Printer, side: Side, q: OptionState, paper: &mut [u8], wire: &mut [u8]) -> Step
    requires room_for { RoomFor (side_moved (view_printer s) side q).paper paper.old }
    requires room_for_2 { RoomFor (side_moved (view_printer s) side q).wire wire.old }
    ensures { RefinesStep (side_moved (view_printer s) side q) s (lent paper) (lent wire) result }
{
    match side {
        Side::Rcte => rcte_moved(s, q, paper, wire),
        Side::Macro => Step::notes(Note::Clear, macro_moved(s, q)),
        Side::Disposes(d) => Step::notes(Note::Clear, disposition_moved(s, d, q)),
        Side::Uncarried => Step::notes(Note::Clear, s),
        Side::Echo | Side::BulletinSga | Side::PrinterSga => {
            let t = Printer {
                sides: negotiation::moved(s.sides, side, q),
                ..s
            };
            Step::notes(Note::Clear, t)
        }
    }
}

// The reply or the request goes first, then what follows from the change.
// Its parts one by one, and no `Turn`: the compiler then sees which side it is where the option is known.
pub fn moved_with_reply(
    s: Printer,
    side: Side,
    q: OptionState,
    whose: Whose,
    reply: Reply,
    option: u8,
    paper: &mut [u8],
    wire: &mut [u8],
) -> Step
    requires room_for { RoomFor (moved_with_reply (view_printer s) side q (reply_bytes whose reply option)).paper paper.old }
    requires room_for_2 { RoomFor (moved_with_reply (view_printer s) side q (reply_bytes whose reply option)).wire wire.old }
    ensures { RefinesStep (moved_with_reply (view_printer s) side q (reply_bytes whose reply option)) s (lent paper) (lent wire) result }
{
    let n = negotiation::put_reply(whose, reply, option, wire);
    let step = side_moved(s, side, q, paper, &mut wire[n..]);
    Step {
        wire: n + step.wire,
        ..step
    }
}

// WILL, WONT, DO or DONT of an option.
#[tactic(auto, unfolding(crate::specs::Network::negotiation_read))]
pub fn negotiated(s: Printer, v: Verb, option: u8, paper: &mut [u8], wire: &mut [u8]) -> Step
    requires room_for { RoomFor (negotiation_read (view_printer s) v option).paper paper.old }
    requires room_for_2 { RoomFor (negotiation_read (view_printer s) v option).wire wire.old }
    ensures { RefinesStep (negotiation_read (view_printer s) v option) s (lent paper) (lent wire) result }
{
    let t = negotiation::heard_by(End::Printer, s.sides, v, option);
    moved_with_reply(s, t.side, t.next, t.whose, t.reply, option, paper, wire)
}
