// Negotiation: what is heard, and what follows as a side's state changes. Each end has its own: RCTE ends with keys to send at the
// printer end alone, and the macros go at other states (`printer/Network.side_moved`, `bulletin/Network.side_state`).
ghost use Rattle.lists.specs.Buffers.{lent, RoomFor};
ghost use Rattle.negotiation.specs.Carried.{reply_bytes};
ghost use Rattle.bulletin.specs.State.{with_values};
ghost use Rattle.bulletin.specs.Network.{side_state, side_moved, negotiation_read};
ghost use Rattle.negotiation.specs.declared.Side.TheVariants.{Macro, Disposes};
ghost use Rattle.bulletin.specs.Refinement.{view_bulletin, RefinesStepOnWire, RefinesState};

use crate::{Bulletin, Step};
use codes::{Disposition, Verb};
use disposition::Values;
use negotiation::{End, OptionState, Side, Turn};

// The values of one option; its wait, and no other, lasts while its outcome stays the sender's 254.
pub fn with_values(s: Bulletin, d: Disposition, values: Values) -> Bulletin
    ensures { RefinesState (with_values (view_bulletin s) d values) s result }
{
    Bulletin {
        values: s.values.with(d, values),
        waits: disposition::waits_while(s.waits, d, values),
        ..s
    }
}

// Leaving YES empties BM's table, with the issues that were kept.
fn macro_moved(s: Bulletin, q: OptionState) -> Bulletin
    ensures { RefinesState (side_state (view_bulletin s) Macro q) s result }
{
    let sides = negotiation::moved(s.sides, Side::Macro, q);
    if negotiation::is_yes(q) {
        return Bulletin { sides, ..s };
    }
    Bulletin {
        sides,
        table: sent_macros::none(),
        issues: issues::forget(s.issues),
        ..s
    }
}

// Leaving YES forgets the values of an option about output disposition.
fn disposition_moved(s: Bulletin, d: Disposition, q: OptionState) -> Bulletin
    ensures { RefinesState (side_state (view_bulletin s) (Disposes d) q) s result }
{
    let t = Bulletin {
        sides: negotiation::moved(s.sides, Side::Disposes(d), q),
        ..s
    };
    if negotiation::is_yes(q) {
        with_values(t, d, s.values.of(d))
    } else {
        with_values(t, d, disposition::unspoken())
    }
}

fn side_moved(s: Bulletin, side: Side, q: OptionState) -> Bulletin
    ensures { RefinesState (side_state (view_bulletin s) side q) s result }
{
    match side {
        Side::Macro => macro_moved(s, q),
        Side::Disposes(d) => disposition_moved(s, d, q),
        _ => Bulletin {
            sides: negotiation::moved(s.sides, side, q),
            ..s
        },
    }
}

// The reply or the request goes out as the side moves.
pub fn moved_with_reply(s: Bulletin, turn: Turn, option: u8, wire: &mut [u8]) -> Step
    requires { RoomFor (side_moved (view_bulletin s) turn.side turn.next (reply_bytes turn.whose turn.reply option)).wire wire.old }
    ensures { RefinesStepOnWire (side_moved (view_bulletin s) turn.side turn.next (reply_bytes turn.whose turn.reply option)) s (lent wire) result }
{
    let n = negotiation::put_reply(turn.whose, turn.reply, option, wire);
    Step::sends(side_moved(s, turn.side, turn.next), n)
}

// WILL, WONT, DO or DONT of an option.
pub fn negotiated(s: Bulletin, v: Verb, option: u8, wire: &mut [u8]) -> Step
    requires { RoomFor (negotiation_read (view_bulletin s) v option).wire wire.old }
    ensures { RefinesStepOnWire (negotiation_read (view_bulletin s) v option) s (lent wire) result }
{
    let turn = negotiation::heard_by(End::Bulletin, s.sides, v, option);
    moved_with_reply(s, turn, option, wire)
}
