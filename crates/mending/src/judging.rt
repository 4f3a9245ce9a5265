// Whether a command is copied: by the checks of a printer end, no option being off.
ghost use Rattle.std.specs.Prelude.{◌≡◌};
ghost use Rattle.reader.specs.Refinement.{view_reader};
ghost use Rattle.mending.specs.Judging.{all_in_force, note_judged, readable, shape_judged, body_judged, item_judged};

use crate::Reason;
use codes::{DS, Each, Note};
use negotiation::{End, OptionState, Sides};
use reader::{Item, Reader};
use subnegotiation::Subject;

fn all_in_force() -> Sides
    ensures { result ≡ all_in_force }
{
    Sides {
        echo: OptionState::Yes,
        sga: OptionState::Yes,
        rcte: OptionState::Yes,
        bm: OptionState::Yes,
        printersga: OptionState::Yes,
        dispositions: Each::all(OptionState::Yes),
    }
}

fn note_judged(note: Note) -> Result<(), Reason>
    ensures { result ≡ note_judged note }
{
    match note {
        Note::Unreadable => Err(Reason::Unreadable),
        Note::Stray => Err(Reason::Stray),
        Note::Inactive | Note::OtherOption | Note::Clear => Ok(()),
    }
}

// A body, as the option reads it.
fn readable<T: Copy>(read: Option<T>) -> Result<(), Reason>
    ensures { result ≡ readable read }
{
    match read {
        Some(_) => Ok(()),
        None => Err(Reason::Unreadable),
    }
}

fn shape_judged(body: &[u8], checked: Result<Subject, Note>) -> Result<(), Reason>
    ensures { result ≡ shape_judged body.now checked }
{
    match checked {
        Err(note) => note_judged(note),
        Ok(Subject::Rcte) => readable(bodies::rcte_body(body)),
        Ok(Subject::Disposes(d)) => readable(bodies::value_body(d, DS, body)),
        Ok(Subject::Macro) => readable(bodies::macro_body(body)),
    }
}

// The body that a reader kept.
#[tactic(auto, unfolding(crate::specs::Judging::body_judged))]
fn body_judged(kept: Reader) -> Result<(), Reason>
    ensures { result ≡ body_judged (view_reader kept).marred (view_reader kept).body }
{
    let checked = subnegotiation::body_checked(End::Printer, all_in_force(), kept);
    shape_judged(kept.kept_body(), checked)
}

// What a byte completes, with the reader after it.
pub fn item_judged(item: Item, r: Reader) -> Result<(), Reason>
    ensures { result ≡ item_judged (view_reader r) item }
{
    match item {
        Item::Nothing | Item::Data(_) | Item::Negotiated(_, _) => Ok(()),
        Item::BodyEnd => body_judged(r),
        Item::StrayCommand => Err(Reason::Stray),
    }
}
