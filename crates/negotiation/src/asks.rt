// What an ask and a negotiation received come to, and replies and requests as they are written.
ghost use Rattle.std.specs.Prelude.{◌≡◌};
ghost use Rattle.lists.specs.Buffers.{lent, WroteAtStart, RoomFor};
ghost use Rattle.negotiation.specs.Carried.{reply_verb, reply_bytes, declined, asked_side, asked_whose, asked_enable, asking_of, asked_turn, heard_by};

use crate::{End, Move, OptionState, Reply, Side, Sides, Turn, carried, table};
use codes::{Code, Verb, Whose};

// The side that a way of asking names: 0 and 1 disable and enable his, 2 and 3 ours. It is a number, for hosts ask by it in C, and tapes
// have it.
pub fn asked_whose(way: u8) -> Whose
    ensures { result ≡ asked_whose way }
{
    if way < 2 { Whose::His } else { Whose::Ours }
}

pub fn asked_enable(way: u8) -> bool
    ensures { result ≡ asked_enable way }
{
    way % 2 == 1
}

// A way over 3 names no side.
#[tactic(auto, unfolding(crate::specs::Carried::asked_side))]
pub fn asked_side(end: End, option: u8, way: u8) -> Side
    ensures { result ≡ asked_side end option way }
{
    if way > 3 {
        return Side::Uncarried;
    }
    carried::carried_side(end, asked_whose(way), option)
}

// What an ask about a side comes to, its refusals in their order.
#[tactic(auto, unfolding(crate::specs::Carried::asking_of, codes::specs::Answers::guarded))]
pub fn asking_of(sides: Sides, side: Side, enable: bool) -> Result<Move, Code>
    ensures { result ≡ asking_of sides side enable }
{
    if !carried::is_carried(side) {
        return Err(Code::NotCarried);
    }
    if carried::clashes(sides, side, enable) {
        return Err(Code::EchoAgainstRcte);
    }
    table::ask(enable, carried::state_of(sides, side)).ok_or(Code::AlreadySo)
}

// What an ask about an option comes to at an end: the turn of the side that its way names, or the refusal.
pub fn asked_by(end: End, sides: Sides, option: u8, way: u8) -> Result<Turn, Code>
    ensures { result ≡ asked_turn end sides option way }
{
    let side = asked_side(end, option, way);
    let Move { next, reply } = asking_of(sides, side, asked_enable(way))?;
    Ok(Turn {
        side,
        next,
        whose: asked_whose(way),
        reply,
    })
}

// The answer to a negotiation of an uncarried option: a request is declined, a withdrawal gets nothing.
fn declined(enable: bool) -> Reply
    ensures { result ≡ declined enable }
{
    if enable {
        Reply::Negative
    } else {
        Reply::Silent
    }
}

// WILL, WONT, DO or DONT of an option, received by an end.
#[tactic(auto, unfolding(crate::specs::Carried::heard_by))]
pub fn heard_by(end: End, sides: Sides, v: Verb, option: u8) -> Turn
    ensures { result ≡ heard_by end sides v option }
{
    let whose = codes::whose_of(v);
    let enable = codes::enables(v);
    let side = carried::carried_side(end, whose, option);
    let Move { next, reply } = if carried::is_carried(side) {
        let agreed = carried::may_enable(sides, side);
        table::hear(enable, agreed, carried::state_of(sides, side))
    } else {
        Move {
            next: OptionState::No,
            reply: declined(enable),
        }
    };
    Turn {
        side,
        next,
        whose,
        reply,
    }
}

// The verb of a reply or a request about that side.
fn reply_verb(w: Whose, enable: bool) -> Verb
    ensures { result ≡ reply_verb w enable }
{
    match (w, enable) {
        (Whose::His, true) => Verb::Do,
        (Whose::His, false) => Verb::Dont,
        (Whose::Ours, true) => Verb::Will,
        (Whose::Ours, false) => Verb::Wont,
    }
}

// The bytes of a reply at the start of out; their count.
pub fn put_reply(w: Whose, r: Reply, option: u8, out: &mut [u8]) -> usize
    requires { RoomFor (reply_bytes w r option) out.old }
    ensures { WroteAtStart (reply_bytes w r option) (lent out) result }
{
    match r {
        Reply::Silent => 0,
        Reply::Positive => wire::put_negotiation(reply_verb(w, true), option, out),
        Reply::Negative => wire::put_negotiation(reply_verb(w, false), option, out),
    }
}
