// The two values of an option, and for which options output waits.
ghost use Rattle.std.specs.Prelude.{◌≡◌, ◌&&◌};
ghost use Rattle.disposition.specs.ByOption.{unspoken, wait_of, with_wait_of, is_waiting};
ghost use Rattle.disposition.specs.Handled.{handling};
ghost use Rattle.disposition.specs.ItemData.{awaits};

use crate::{Values, Waits, handled, item_data};
use codes::Disposition;

// DS and DR as they count until they are suggested.
pub const UNSPOKEN_DS: u8 = 255;

const UNSPOKEN_DR: u8 = 0;

pub fn unspoken() -> Values
    ensures { result ≡ unspoken }
{
    Values {
        ds: UNSPOKEN_DS,
        dr: UNSPOKEN_DR,
    }
}

// Whether output waits, for any option.
#[tactic(auto, unfolding(crate::specs::ByOption::is_waiting))]
pub fn is_waiting(w: Waits) -> bool
    ensures { result ≡ is_waiting w }
{
    w.naocrd || w.naolfd || w.naoffd || w.naohtd
}

// The waits once an option has these values: its own, and no other, lasts while its outcome stays the sender's 254.
pub fn waits_while(w: Waits, d: Disposition, v: Values) -> Waits
    ensures { result ≡ with_wait_of w d (wait_of w d && awaits (handling v)) }
{
    let lasts = w.of(d) && item_data::awaits(handled::handling_by(v));
    w.with(d, lasts)
}
