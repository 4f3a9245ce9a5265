// The number that the reader's phase is kept by where a host keeps it. Every number stands for a phase.
ghost use Rattle.std.specs.Prelude.{◌≡◌};
ghost use Rattle.reader.specs.Numbers.{phase_number, phase_of};

use crate::Phase;
use codes::Verb;

impl From<Phase> for u8 {
    ghost from_gives = { λ p n. n ≡ phase_number p };

    fn from(p: Phase) -> u8 {
        match p {
            Phase::Between => 0,
            Phase::AfterIac => 1,
            Phase::AfterVerb(Verb::Will) => 2,
            Phase::AfterVerb(Verb::Wont) => 3,
            Phase::AfterVerb(Verb::Do) => 4,
            Phase::AfterVerb(Verb::Dont) => 5,
            Phase::InBody => 6,
            Phase::InBodyAfterIac => 7,
        }
    }
}

impl From<u8> for Phase {
    ghost from_gives = { λ n p. p ≡ phase_of n };

    #[tactic(auto, unfolding(crate::specs::Numbers::phase_of))]
    fn from(n: u8) -> Phase {
        match n {
            1 => Phase::AfterIac,
            2 => Phase::AfterVerb(Verb::Will),
            3 => Phase::AfterVerb(Verb::Wont),
            4 => Phase::AfterVerb(Verb::Do),
            5 => Phase::AfterVerb(Verb::Dont),
            6 => Phase::InBody,
            7 => Phase::InBodyAfterIac,
            _ => Phase::Between,
        }
    }
}
