// The printer end: keyboard and paper. One state by value, and its calls.
#![tactic(auto)]

ghost use Rattle.std.specs.Prelude.{◌≡◌};
ghost use Rattle.codes.specs.declared.Note.TheVariants.{Clear};
ghost use Rattle.printer.specs.Refinement.{parts_of, step_of};

use codes::{Code, Note};
use disposition::AllValues;
use negotiation::Sides;
use rcte::Rcte;
use reader::{Phase, Reader};
use received_macros::Texts;

mod body;
pub mod calls;
pub mod in_place;
mod moves;
mod network;
mod run;
pub mod stretches;

// The whole state: negotiation, reader, macros, RCTE's control, the values about output disposition.
#[derive(Clone, Copy)]
pub struct Printer {
    pub sides: Sides,
    pub reader: Reader,
    pub table: Texts,
    pub rcte: Rcte,
    pub values: AllValues,
}

// What says how a byte is read: the option states, the reader's phase and RCTE's hold.
#[derive(Clone, Copy)]
pub struct Parts {
    pub sides: Sides,
    pub phase: Phase,
    pub held: bool,
}

impl Printer {
    pub fn parts(&self) -> Parts
        ensures { result ≡ parts_of self.now }
    {
        Parts {
            sides: self.sides,
            phase: self.reader.phase,
            held: self.rcte.held,
        }
    }
}

// A step: its note, how many bytes went to the paper and to the wire, and the state after it.
#[derive(Clone, Copy)]
pub struct Step {
    pub note: Note,
    pub paper: usize,
    pub wire: usize,
    pub state: Printer,
}

impl Step {
    // Nothing on the paper, so many bytes on the wire, and no note.
    fn sends(state: Printer, wire: usize) -> Step
        ensures { result ≡ step_of Clear wire state }
    {
        Step {
            note: Note::Clear,
            paper: 0,
            wire,
            state,
        }
    }

    // A note, and nothing else.
    fn notes(note: Note, state: Printer) -> Step
        ensures { result ≡ step_of note 0 state }
    {
        Step {
            note,
            ..Step::sends(state, 0)
        }
    }
}

// A call's answer: no Result, for a refusal has its state, its note and its counts too, which the contracts and the claims name
// (`RefinesOutcome.same`, `traces/Traces.MeetsContract`).
#[derive(Clone, Copy)]
pub struct Answer {
    pub code: Code,
    pub note: Note,
    pub paper: usize,
    pub wire: usize,
    pub state: Printer,
}

// The answer of a run of network bytes: a call's, with how many bytes were taken. The ends have structs of their own, as of steps:
// `RefinesRun` and the traces name `paper` here and `host` there.
#[derive(Clone, Copy)]
pub struct RunAnswer {
    pub code: Code,
    pub note: Note,
    pub taken: usize,
    pub paper: usize,
    pub wire: usize,
    pub state: Printer,
}
