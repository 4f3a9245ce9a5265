// A subnegotiation's body at the bulletin end.
ghost use Rattle.std.specs.Prelude.{◌≡◌};
ghost use Rattle.lists.specs.Buffers.{lent, WroteAtStart, RoomFor};
ghost use Rattle.codes.specs.Telnet.{DR};
ghost use Rattle.bodies.specs.MacroBodies.{reply_body};
ghost use Rattle.bodies.specs.ValueBodies.{value_body};
ghost use Rattle.sent_macros.specs.Refinement.{view_table, CleanTable};
ghost use Rattle.bulletin.specs.Network.{bytes_after, table_after, macro_replied, reply_read, value_read, body_handled};
ghost use Rattle.bulletin.specs.Refinement.{view_bulletin, body_end_read, RefinesStepOnWire, RefinesStepUnwritten};

use crate::{Bulletin, Step, moves};
use bodies::MacroReply;
use codes::{DR, Disposition, Note};
use disposition::Values;
use negotiation::End;
use sent_macros::{SendingTable, Written};
use subnegotiation::Subject;

// The printer end's value about an option's character, with the option in force.
fn value_read(s: Bulletin, d: Disposition, body: &[u8]) -> Step
    ensures { RefinesStepUnwritten (value_read (view_bulletin s) d (value_body d DR body.now)) s result }
{
    let Some(value) = bodies::value_body(d, DR, body) else {
        return Step::notes(Note::Unreadable, s);
    };
    let values = Values {
        dr: value,
        ..s.values.of(d)
    };
    Step::sends(moves::with_values(s, d, values), 0)
}

// The table behind an answer about a macro, and what goes out for it.
fn table_answered(table: SendingTable, reply: MacroReply, wire: &mut [u8]) -> Written
    requires { RoomFor (bytes_after (view_table table) reply) wire.old }
    ensures sent { WroteAtStart (bytes_after (view_table table) reply) (lent wire) result.wire }
    ensures view { view_table result.table ≡ table_after (view_table table) reply }
    ensures clean { CleanTable table → CleanTable result.table }
{
    match reply {
        MacroReply::Accept(x) => Written {
            wire: 0,
            table: sent_macros::accepted(table, x),
        },
        MacroReply::Refuse(x) => Written {
            wire: 0,
            table: sent_macros::refused(table, x),
        },
        MacroReply::PleaseCancel(x) => sent_macros::cancel(table, x, wire),
    }
}

// What the printer end says of a macro.
fn macro_replied(s: Bulletin, reply: MacroReply, wire: &mut [u8]) -> Step
    requires { RoomFor (macro_replied (view_bulletin s) reply).wire wire.old }
    ensures { RefinesStepOnWire (macro_replied (view_bulletin s) reply) s (lent wire) result }
{
    let answered = table_answered(s.table, reply, wire);
    let t = Bulletin {
        table: answered.table,
        issues: issues::kept_after(&s.table.statuses, s.issues, reply),
        ..s
    };
    Step::sends(t, answered.wire)
}

// BM's answers, with BM in force.
fn reply_read(s: Bulletin, body: &[u8], wire: &mut [u8]) -> Step
    requires { RoomFor (reply_read (view_bulletin s) (reply_body body.now)).wire wire.old }
    ensures { RefinesStepOnWire (reply_read (view_bulletin s) (reply_body body.now)) s (lent wire) result }
{
    let Some(reply) = bodies::reply_body(body) else {
        return Step::notes(Note::Unreadable, s);
    };
    macro_replied(s, reply, wire)
}

// A body by its option, or the note that ends its handling.
fn handled(s: Bulletin, body: &[u8], subject: Result<Subject, Note>, wire: &mut [u8]) -> Step
    requires { RoomFor (body_handled (view_bulletin s) body.now subject).wire wire.old }
    ensures { RefinesStepOnWire (body_handled (view_bulletin s) body.now subject) s (lent wire) result }
{
    match subject {
        Err(note) => Step::notes(note, s),
        Ok(Subject::Rcte) => Step::notes(Note::OtherOption, s),
        Ok(Subject::Disposes(d)) => value_read(s, d, body),
        Ok(Subject::Macro) => reply_read(s, body, wire),
    }
}

// The body that the reader kept; the reader is empty after it.
pub fn body_read(s: Bulletin, wire: &mut [u8]) -> Step
    requires { RoomFor (body_end_read (view_bulletin s)).wire wire.old }
    ensures { RefinesStepOnWire (body_end_read (view_bulletin s)) s (lent wire) result }
{
    let subject = subnegotiation::body_checked(End::Bulletin, s.sides, s.reader);
    let t = Bulletin {
        reader: reader::idle(),
        ..s
    };
    handled(t, s.reader.kept_body(), subject, wire)
}
