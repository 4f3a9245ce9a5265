// How many bytes are plain, so that they are given to the host by one copy and the state is not looked at for each. Free functions: they
// ask the phase and the waits alone, and `in_place::Parts` has the sides too.
ghost use Rattle.std.specs.Prelude.{◌≡◌};
ghost use Rattle.bulletin.specs.Stretches.{data_stretch, is_plain_byte};

use codes::IAC;
use disposition::Waits;
use reader::Phase;

// A byte that ends a wait changes the state, and is not plain.
#[tactic(auto, unfolding(crate::specs::Stretches::data_stretch))]
pub fn data_stretch(phase: Phase, waits: Waits, bytes: &[u8]) -> usize
    ensures { result ≡ data_stretch phase waits bytes.now }
{
    if reader::is_between(phase) && !disposition::is_waiting(waits) {
        reader::text_front(bytes)
    } else {
        0
    }
}

// One of them by itself.
pub fn is_plain(phase: Phase, waits: Waits, b: u8) -> bool
    ensures { result ≡ is_plain_byte phase waits b }
{
    b != IAC && reader::is_between(phase) && !disposition::is_waiting(waits)
}
