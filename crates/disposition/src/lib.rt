// The options about output disposition (NAOCRD, NAOLFD, NAOFFD, NAOHTD): the two values of each that were suggested, who handles its
// character, and how.
#![tactic(auto)]

use codes::Each;

mod by_option;
mod handled;
mod item_data;

pub use by_option::{is_waiting, unspoken, waits_while};
pub use handled::{
    handler_number, handling_by, handling_in, handling_value, handlings_in, put_suggestion,
    suggest_refusal,
};
pub use item_data::{ITEM_ROOM, awaits, put_item, takes_part};

// DS, the bulletin end's value, and DR, the printer end's.
#[derive(Clone, Copy, PartialEq, Eq)]
pub struct Values {
    pub ds: u8,
    pub dr: u8,
}

// Who handles the character of an option, by which value.
#[derive(Clone, Copy, PartialEq, Eq)]
pub enum Handling {
    Sender(u8),
    Receiver(u8),
}

// The values of each option.
pub type AllValues = Each<Values>;

// For which options output waits, each by its own 254.
pub type Waits = Each<bool>;

// How the character of each is handled.
pub type Handlings = Each<Handling>;
