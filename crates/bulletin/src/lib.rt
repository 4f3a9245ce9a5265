// The bulletin end: the serving host. One state by value, and its calls.
#![tactic(auto)]

ghost use Rattle.std.specs.Prelude.{◌≡◌};
ghost use Rattle.codes.specs.declared.Note.TheVariants.{Clear};
ghost use Rattle.bulletin.specs.Refinement.{step_of};

use codes::{Code, Note};
use disposition::{AllValues, Waits};
use issues::Issues;
use negotiation::Sides;
use reader::Reader;
use sent_macros::{SendingTable, Status};

mod body;
pub mod calls;
pub mod in_place;
mod items;
mod moves;
mod network;
mod run;
pub mod stretches;

// The whole state: negotiation, reader, macros, the values about output disposition, for which options output waits, by the value 254,
// and the forecast issue with those that the definitions kept.
#[derive(Clone, Copy)]
pub struct Bulletin {
    pub sides: Sides,
    pub reader: Reader,
    pub table: SendingTable,
    pub values: AllValues,
    pub waits: Waits,
    pub issues: Issues,
}

// A step: its note, how many bytes went to the host and to the wire, and the state after it. A struct of this end's own, as the answers
// below: `RefinesRun` and the traces name `paper` at the printer end and `host` here.
#[derive(Clone, Copy)]
pub struct Step {
    pub note: Note,
    pub host: usize,
    pub wire: usize,
    pub state: Bulletin,
}

impl Step {
    // Nothing for the host, so many bytes on the wire, and no note.
    fn sends(state: Bulletin, wire: usize) -> Step
        ensures { result ≡ step_of Clear wire state }
    {
        Step {
            note: Note::Clear,
            host: 0,
            wire,
            state,
        }
    }

    // A note, and nothing else.
    fn notes(note: Note, state: Bulletin) -> Step
        ensures { result ≡ step_of note 0 state }
    {
        Step {
            note,
            ..Step::sends(state, 0)
        }
    }
}

// A call's answer: no Result, for a refusal has its state, its note and its counts too, which the contracts and the claims name.
#[derive(Clone, Copy)]
pub struct Answer {
    pub code: Code,
    pub note: Note,
    pub host: usize,
    pub wire: usize,
    pub state: Bulletin,
}

// The answer of a run of network bytes: a call's, with how many bytes were taken.
#[derive(Clone, Copy)]
pub struct RunAnswer {
    pub code: Code,
    pub note: Note,
    pub taken: usize,
    pub host: usize,
    pub wire: usize,
    pub state: Bulletin,
}

// How the last DEFINE of a byte stands, the issue that it kept, and the issue in force. A use of the byte needs an accepted text and
// two equal numbers.
#[derive(Clone, Copy)]
pub struct Standing {
    pub status: Status,
    pub kept: u16,
    pub present: u16,
}

// Whether a text item or a macro can be sent now, or has to wait for a data byte.
#[derive(Clone, Copy)]
pub enum Output {
    Ready,
    Waiting,
}
