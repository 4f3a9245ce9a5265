// A subnegotiation's body as an end takes it up: the checks before its shape, in their order.
#![tactic(auto)]

ghost use Rattle.std.specs.Prelude.{◌≡◌};
ghost use Rattle.reader.specs.Refinement.{view_reader};
ghost use Rattle.subnegotiation.specs.Checks.{reads_rcte, in_force, disposition_checked, option_checked, checked};

use codes::{BM, Disposition, Note, RCTE};
use negotiation::{End, Sides};
use reader::Reader;

// The option by which a body is handled, in force at this end.
#[derive(Clone, Copy, PartialEq, Eq)]
pub enum Subject {
    Rcte,
    Disposes(Disposition),
    Macro,
}

fn reads_rcte(end: End) -> bool
    ensures { result ≡ reads_rcte end }
{
    end == End::Printer
}

fn in_force(on: bool, subject: Subject) -> Result<Subject, Note>
    ensures { result ≡ in_force on subject }
{
    if on { Ok(subject) } else { Err(Note::Inactive) }
}

// One of the options about output disposition, in force; any other has no bodies here.
fn disposition_checked(s: Sides, option: u8) -> Result<Subject, Note>
    ensures { result ≡ disposition_checked s option }
{
    let d = codes::disposition_numbered(option).ok_or(Note::OtherOption)?;
    in_force(
        negotiation::disposition_in_force(s, d),
        Subject::Disposes(d),
    )
}

// The checks after the first: another option, not in force.
#[tactic(auto, unfolding(crate::specs::Checks::option_checked))]
fn option_checked(end: End, s: Sides, option: u8) -> Result<Subject, Note>
    ensures { result ≡ option_checked end s option }
{
    match option {
        RCTE if reads_rcte(end) => in_force(negotiation::rcte_in_force(s), Subject::Rcte),
        BM => in_force(negotiation::macros_in_force(end, s), Subject::Macro),
        _ => disposition_checked(s, option),
    }
}

// The body that a reader kept: what it is about, or the note that ends its handling.
pub fn body_checked(end: End, s: Sides, kept: Reader) -> Result<Subject, Note>
    ensures { result ≡ checked end s (view_reader kept).marred (view_reader kept).body }
{
    if kept.marred || reader::body_len(kept.len) == 0 {
        return Err(Note::Unreadable);
    }
    option_checked(end, s, kept.body[0])
}
