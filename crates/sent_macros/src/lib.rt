// The table of macros at the end that sends: what was defined, and what became of it.
#![tactic(auto)]

ghost use Rattle.std.specs.Prelude.{◌≡◌, set};
ghost use Rattle.lists.specs.Buffers.{lent, WroteAtStart, RoomFor};
ghost use Rattle.sent_macros.specs.Sending.{
  sent_of,
  is_pending,
  on_accept,
  on_refuse,
  defining_bytes,
  cancel_bytes,
  accepted_text,
  is_accepted_as,
  all_data_bytes,
};
ghost use Rattle.sent_macros.specs.Refinement.{view_table, free_cells, RefinesTable, RefinesDefine, RefinesCancel};

use received_macros::Texts;

mod kept;
mod sent;
mod sizes;
mod statuses;

pub use statuses::{is_accepted, is_pending, status_at};

// A status for each byte.
const BYTES: usize = 256;

// How the last DEFINE of a byte stands. PendingFree: the byte was defined as itself, and no answer has come.
#[derive(Clone, Copy, PartialEq, Eq)]
pub enum Status {
    Free,
    Pending,
    PendingFree,
    Accepted,
    Refused,
}

// The number of each byte's status, and the data of pending and accepted bytes, packed as in `received_macros::Texts`.
// Numbers, as a host lends the cells to the library for C.
#[derive(Clone, Copy)]
pub struct SendingTable {
    pub statuses: [u8; BYTES],
    pub texts: Texts,
}

// How many bytes went to the wire, and the table after them.
#[derive(Clone, Copy)]
pub struct Written {
    pub wire: usize,
    pub table: SendingTable,
}

// Every byte is free.
pub fn none() -> SendingTable
    ensures { result ≡ free_cells }
{
    SendingTable {
        statuses: [0u8; BYTES],
        texts: received_macros::empty(),
    }
}

// The text is data; it is sent in its stored form. None: it does not fit, and nothing is written.
pub fn define(t: SendingTable, x: u8, text: &[u8], out: &mut [u8]) -> Option<Written>
    requires { RoomFor (defining_bytes (view_table t) x text.now) out.old }
    ensures { RefinesDefine t x text.now (lent out) result }
{
    let texts = sizes::fitted(t, x, text)?;
    let status = kept::pending_status(texts, x);
    Some(Written {
        wire: sent::put_define(x, text, out),
        table: kept::with_status(t, x, texts, status),
    })
}

// An ACCEPT of the byte was received.
pub fn accepted(t: SendingTable, x: u8) -> SendingTable
    ensures { RefinesTable (set (view_table t) x (on_accept (sent_of (view_table t) x))) (is_pending (sent_of (view_table t) x)) t result }
{
    match statuses::status_at(&t.statuses, x) {
        Status::Pending => kept::with_status(t, x, t.texts, Status::Accepted),
        Status::PendingFree => kept::with_status(t, x, t.texts, Status::Free),
        Status::Free | Status::Accepted | Status::Refused => t,
    }
}

// A REFUSE of the byte was received: its text is kept no longer.
pub fn refused(t: SendingTable, x: u8) -> SendingTable
    ensures { RefinesTable (set (view_table t) x (on_refuse (sent_of (view_table t) x))) (is_pending (sent_of (view_table t) x)) t result }
{
    if statuses::is_pending(&t.statuses, x) {
        kept::without_text(t, x, Status::Refused)
    } else {
        t
    }
}

// A PLEASE CANCEL of the byte was received.
pub fn cancel(t: SendingTable, x: u8, out: &mut [u8]) -> Written
    requires { RoomFor (cancel_bytes (view_table t) x) out.old }
    ensures { RefinesCancel t x (lent out) result }
{
    if !statuses::is_accepted(&t.statuses, x) {
        return Written { wire: 0, table: t };
    }
    Written {
        wire: sent::put_define(x, &[x], out),
        table: kept::without_text(t, x, Status::PendingFree),
    }
}

// The data of an accepted byte where it lies in the cells; no bytes of any other.
pub fn text_of(t: &SendingTable, x: u8) -> &[u8]
    ensures { result.now ≡ accepted_text (sent_of (view_table t.now) x) }
{
    if !statuses::is_accepted(&t.statuses, x) {
        return &[];
    }
    let marks = kept::kept_texts(*t).marks;
    received_macros::text_in(&marks, &t.texts.cells, x).unwrap_or(&[])
}

// Accepted, with just this data.
pub fn is_accepted_as(t: SendingTable, x: u8, text: &[u8]) -> bool
    ensures { result ≡ is_accepted_as (sent_of (view_table t) x) text.now }
{
    statuses::is_accepted(&t.statuses, x) && text_of(&t, x) == text
}

// Data on the wire: bytes that are not free go out as LITERAL.
pub fn put_data(t: SendingTable, bytes: &[u8], out: &mut [u8]) -> usize
    requires { RoomFor (all_data_bytes (view_table t) bytes.now) out.old }
    ensures { WroteAtStart (all_data_bytes (view_table t) bytes.now) (lent out) result }
{
    sent::put_run(&t.statuses, bytes, out)
}
