// The table with a byte's status and the texts changed together.
ghost use Rattle.std.specs.Prelude.{◌≡◌, true, false, cond, [], set};
ghost use Rattle.received_macros.specs.Refinement.{is_unmarked};
ghost use Rattle.sent_macros.specs.declared.Status.TheVariants.{Pending, PendingFree};
ghost use Rattle.sent_macros.specs.Refinement.{has_text, sent_as, kept_mark, kept_texts, restated, view_table, RefinesTable};

use crate::{SendingTable, Status};
use received_macros::Texts;

fn kept_mark(mark: u16, number: u8) -> u16
    ensures { result ≡ kept_mark mark number }
{
    match Status::from(number) {
        Status::Pending | Status::Accepted => mark,
        Status::Free | Status::PendingFree | Status::Refused => 0,
    }
}

// The texts, without the marks of bytes that are neither pending nor accepted.
pub fn kept_texts(t: SendingTable) -> Texts
    ensures { result ≡ kept_texts t }
{
    let mut marks = t.texts.marks;
    for (x, mark) in marks.iter_mut().enumerate() {
        *mark = kept_mark(*mark, t.statuses[x]);
    }
    Texts { marks, ..t.texts }
}

// The table with other texts and another status of the byte.
pub fn with_status(t: SendingTable, x: u8, texts: Texts, s: Status) -> SendingTable
    ensures { result ≡ restated t x texts s }
{
    let mut statuses = t.statuses;
    statuses[x as usize] = u8::from(s);
    SendingTable { statuses, texts }
}

// The byte's text is gone from the cells.
pub fn without_text(t: SendingTable, x: u8, s: Status) -> SendingTable
    requires { has_text s ≡ false }
    ensures { RefinesTable (set (view_table t) x (sent_as s [])) true t result }
{
    let texts = received_macros::removed(kept_texts(t), x);
    with_status(t, x, texts, s)
}

// How a byte stands that was just defined: a byte defined as itself has no mark.
pub fn pending_status(texts: Texts, x: u8) -> Status
    ensures { result ≡ cond (is_unmarked texts.marks x) PendingFree Pending }
{
    if received_macros::is_unmarked(&texts.marks, x) {
        Status::PendingFree
    } else {
        Status::Pending
    }
}
