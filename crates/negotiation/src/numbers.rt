// The number that an option state is kept by where a host keeps it. Every number stands for a state.
ghost use Rattle.std.specs.Prelude.{◌≡◌};
ghost use Rattle.negotiation.specs.Numbers.{option_state_number, option_state_of};

use crate::OptionState;

impl From<OptionState> for u8 {
    ghost from_gives = { λ q n. n ≡ option_state_number q };

    // The variants stand in the order of their numbers.
    fn from(q: OptionState) -> u8 {
        q as u8
    }
}

impl From<u8> for OptionState {
    ghost from_gives = { λ n q. q ≡ option_state_of n };

    #[tactic(auto, unfolding(crate::specs::Numbers::option_state_of))]
    fn from(n: u8) -> OptionState {
        match n {
            1 => OptionState::Yes,
            2 => OptionState::WantNo,
            3 => OptionState::WantNoOpposite,
            4 => OptionState::WantYes,
            5 => OptionState::WantYesOpposite,
            _ => OptionState::No,
        }
    }
}
