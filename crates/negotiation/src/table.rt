// RFC 1143's table: what is heard or asked of a side, and which states count as in force.
ghost use Rattle.std.specs.Prelude.{◌≡◌};
ghost use Rattle.negotiation.specs.Table.{heard_enable, heard_disable, heard, ask_enable, ask_disable, asked, is_no, is_yes, is_yes_or_ending};

use crate::{Move, OptionState, Reply};

// WILL of his side, DO of ours. One arm for each row of the RFC's table, to be compared with it.
fn heard_enable(agreed: bool, q: OptionState) -> Move
    ensures { result ≡ heard_enable agreed q }
{
    let (next, reply) = match q {
        OptionState::No if agreed => (OptionState::Yes, Reply::Positive),
        OptionState::No => (OptionState::No, Reply::Negative),
        OptionState::Yes => (OptionState::Yes, Reply::Silent),
        OptionState::WantNo => (OptionState::No, Reply::Silent),
        OptionState::WantNoOpposite => (OptionState::Yes, Reply::Silent),
        OptionState::WantYes => (OptionState::Yes, Reply::Silent),
        OptionState::WantYesOpposite => (OptionState::WantNo, Reply::Negative),
    };
    Move { next, reply }
}

// WONT of his side, DONT of ours.
fn heard_disable(q: OptionState) -> Move
    ensures { result ≡ heard_disable q }
{
    let (next, reply) = match q {
        OptionState::No => (OptionState::No, Reply::Silent),
        OptionState::Yes => (OptionState::No, Reply::Negative),
        OptionState::WantNo => (OptionState::No, Reply::Silent),
        OptionState::WantNoOpposite => (OptionState::WantYes, Reply::Positive),
        OptionState::WantYes => (OptionState::No, Reply::Silent),
        OptionState::WantYesOpposite => (OptionState::No, Reply::Silent),
    };
    Move { next, reply }
}

// A negotiation received of a carried side; agreed says whether a request from NO is agreed.
#[tactic(auto, unfolding(crate::specs::Table::heard))]
pub fn hear(enable: bool, agreed: bool, q: OptionState) -> Move
    ensures { result ≡ heard enable agreed q }
{
    if enable {
        heard_enable(agreed, q)
    } else {
        heard_disable(q)
    }
}

// The error rows of the RFC are None.
fn ask_enable(q: OptionState) -> Option<Move>
    ensures { result ≡ ask_enable q }
{
    let (next, reply) = match q {
        OptionState::No => (OptionState::WantYes, Reply::Positive),
        OptionState::WantNo => (OptionState::WantNoOpposite, Reply::Silent),
        OptionState::WantYesOpposite => (OptionState::WantYes, Reply::Silent),
        OptionState::Yes | OptionState::WantNoOpposite | OptionState::WantYes => return None,
    };
    Some(Move { next, reply })
}

fn ask_disable(q: OptionState) -> Option<Move>
    ensures { result ≡ ask_disable q }
{
    let (next, reply) = match q {
        OptionState::Yes => (OptionState::WantNo, Reply::Negative),
        OptionState::WantNoOpposite => (OptionState::WantNo, Reply::Silent),
        OptionState::WantYes => (OptionState::WantYesOpposite, Reply::Silent),
        OptionState::No | OptionState::WantNo | OptionState::WantYesOpposite => return None,
    };
    Some(Move { next, reply })
}

// What an ask makes of a side, None where it is already so. Where only the queue changes, nothing is sent.
#[tactic(auto, unfolding(crate::specs::Table::asked))]
pub fn ask(enable: bool, q: OptionState) -> Option<Move>
    ensures { result ≡ asked enable q }
{
    if enable {
        ask_enable(q)
    } else {
        ask_disable(q)
    }
}

pub fn is_no(q: OptionState) -> bool
    ensures { result ≡ is_no q }
{
    q == OptionState::No
}

// Whether an option is in force.
pub fn is_yes(q: OptionState) -> bool
    ensures { result ≡ is_yes q }
{
    q == OptionState::Yes
}

// Whether BM is in force at the printer end: until the other end has said that it stopped.
pub fn is_yes_or_ending(q: OptionState) -> bool
    ensures { result ≡ is_yes_or_ending q }
{
    matches!(
        q,
        OptionState::Yes | OptionState::WantNo | OptionState::WantNoOpposite
    )
}
