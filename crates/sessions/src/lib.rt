// Both ends' calls on a state that the host keeps and lends: each hands the state to the call by value and stores the one
// that it returns. The modules `recorded_..` lend the state that they are given to these calls, and answer by value.
#![tactic(auto)]

ghost use Rattle.std.specs.Prelude.{◌≡◌};
ghost use Rattle.sessions.specs.Refinement.{printer_answer, bulletin_answer};

use bulletin::Bulletin;
use codes::{Code, Note};
use printer::Printer;

pub mod bulletin_end;
pub mod printer_end;
pub mod recorded_bulletin;
pub mod recorded_printer;

// What a call of the printer end returns when the state stands in the lent record: its answer without the state. The two ends have a
// struct each, for the claims about lent records name `paper` and `host`.
#[derive(Clone, Copy)]
pub struct PrinterOutcome {
    pub code: Code,
    pub note: Note,
    pub paper: usize,
    pub wire: usize,
}

impl PrinterOutcome {
    // The answer by value: the outcome with the state that the record holds.
    fn with(self, state: Printer) -> printer::Answer
        ensures { result ≡ printer_answer self state }
    {
        printer::Answer {
            code: self.code,
            note: self.note,
            paper: self.paper,
            wire: self.wire,
            state,
        }
    }
}

// The same of the bulletin end.
#[derive(Clone, Copy)]
pub struct BulletinOutcome {
    pub code: Code,
    pub note: Note,
    pub host: usize,
    pub wire: usize,
}

impl BulletinOutcome {
    // The answer by value: the outcome with the state that the record holds.
    fn with(self, state: Bulletin) -> bulletin::Answer
        ensures { result ≡ bulletin_answer self state }
    {
        bulletin::Answer {
            code: self.code,
            note: self.note,
            host: self.host,
            wire: self.wire,
            state,
        }
    }
}
