// Option negotiation by RFC 1143: six states a side, what is received and what is asked.
#![tactic(auto)]

use codes::{Disposition, Each, Whose};

mod asks;
mod carried;
mod numbers;
mod table;

pub use asks::{asked_by, asked_enable, asked_side, asked_whose, asking_of, heard_by, put_reply};
pub use carried::{
    all_no, disposition_in_force, echo_in_force, macros_in_force, moved, rcte_in_force,
};
pub use table::{is_yes, is_yes_or_ending};

// The two ends of the line.
#[derive(Clone, Copy, PartialEq, Eq)]
pub enum End {
    Printer,
    Bulletin,
}

// The state of one side of one option; Opposite marks a queued request.
#[derive(Clone, Copy, PartialEq, Eq)]
pub enum OptionState {
    No,
    Yes,
    WantNo,
    WantNoOpposite,
    WantYes,
    WantYesOpposite,
}

// What the negotiation sends: nothing, the verb that enables (WILL, DO), or the one that disables (WONT, DONT).
// Three cases, as the RFC's rows have them; an Option of a bool would not name the verbs.
#[derive(Clone, Copy, PartialEq, Eq)]
pub enum Reply {
    Silent,
    Positive,
    Negative,
}

// Where a side goes, and what is sent for it.
#[derive(Clone, Copy, PartialEq, Eq)]
pub struct Move {
    pub next: OptionState,
    pub reply: Reply,
}

// What a negotiation received or an ask comes to: the side that it is about, its next state, and the reply or the request.
#[derive(Clone, Copy)]
pub struct Turn {
    pub side: Side,
    pub next: OptionState,
    pub whose: Whose,
    pub reply: Reply,
}

// A side that is carried, named by the end that performs the option; Uncarried is any other. It is a variant and no Option of
// a side, since what is heard of it is a turn like any other, which moves nothing: the claim StayApart goes over such turns.
#[derive(Clone, Copy, PartialEq, Eq)]
pub enum Side {
    Echo,
    BulletinSga,
    Rcte,
    Macro,
    PrinterSga,
    Disposes(Disposition),
    Uncarried,
}

// The states of the nine carried sides: what the bulletin end performs, then what the printer end does.
#[derive(Clone, Copy)]
pub struct Sides {
    pub echo: OptionState,
    pub sga: OptionState,
    pub rcte: OptionState,
    pub bm: OptionState,
    pub printersga: OptionState,
    pub dispositions: Each<OptionState>,
}
