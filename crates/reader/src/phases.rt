// Bytes that move the reader from phase to phase, and leave the body that it keeps alone.
ghost use Rattle.std.specs.Prelude.{◌≡◌};
ghost use Rattle.reader.specs.Phases.{command_phase, phase_read};

use crate::{Item, Phase, PhaseRead};
use codes::{DO, DONT, GA, IAC, NOP, SB, Verb, WILL, WONT};

// The byte after IAC; SB begins a body.
#[tactic(auto, unfolding(crate::specs::Phases::command_phase))]
pub fn command_phase(b: u8) -> Option<PhaseRead>
    ensures { result ≡ command_phase b }
{
    let (item, phase) = match b {
        IAC => (Item::Data(IAC), Phase::Between),
        SB => return None,
        WILL => (Item::Nothing, Phase::AfterVerb(Verb::Will)),
        WONT => (Item::Nothing, Phase::AfterVerb(Verb::Wont)),
        DO => (Item::Nothing, Phase::AfterVerb(Verb::Do)),
        DONT => (Item::Nothing, Phase::AfterVerb(Verb::Dont)),
        NOP..=GA => (Item::Nothing, Phase::Between),
        _ => (Item::StrayCommand, Phase::Between),
    };
    Some(PhaseRead { item, phase })
}

fn text_phase(b: u8) -> PhaseRead
    ensures { Some result ≡ phase_read Phase.Between b }
{
    match b {
        IAC => PhaseRead {
            item: Item::Nothing,
            phase: Phase::AfterIac,
        },
        _ => PhaseRead {
            item: Item::Data(b),
            phase: Phase::Between,
        },
    }
}

// None of a byte that begins a body, or belongs to one.
pub fn phase_read(phase: Phase, b: u8) -> Option<PhaseRead>
    ensures { result ≡ phase_read phase b }
{
    match phase {
        Phase::Between => Some(text_phase(b)),
        Phase::AfterIac => command_phase(b),
        Phase::AfterVerb(v) => Some(PhaseRead {
            item: Item::Negotiated(v, b),
            phase: Phase::Between,
        }),
        Phase::InBody | Phase::InBodyAfterIac => None,
    }
}
