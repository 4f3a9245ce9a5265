// A subnegotiation's body at the printer end.
ghost use Rattle.lists.specs.Buffers.{lent, RoomFor};
ghost use Rattle.bodies.specs.RcteBodies.{rcte_body};
ghost use Rattle.bodies.specs.MacroBodies.{macro_body};
ghost use Rattle.bodies.specs.ValueBodies.{value_body};
ghost use Rattle.codes.specs.Telnet.{DS};
ghost use Rattle.received_macros.specs.Texts.{judged, verdict_bytes};
ghost use Rattle.printer.specs.Network.{rcte_read, value_read, define_judged, macro_read, body_handled};
ghost use Rattle.printer.specs.Refinement.{view_printer, body_end_read, RefinesStep, RefinesStepUnwritten, RefinesStepOnWire};

use crate::{Printer, Step, moves, network};
use bodies::MacroCommand;
use codes::{DS, Disposition, Note};
use disposition::Values;
use negotiation::End;
use subnegotiation::Subject;

// An RCTE command, with RCTE in force.
fn rcte_read(s: Printer, body: &[u8], paper: &mut [u8], wire: &mut [u8]) -> Step
    requires room_for { RoomFor (rcte_read (view_printer s) (rcte_body body.now)).paper paper.old }
    requires room_for_2 { RoomFor (rcte_read (view_printer s) (rcte_body body.now)).wire wire.old }
    ensures { RefinesStep (rcte_read (view_printer s) (rcte_body body.now)) s (lent paper) (lent wire) result }
{
    let Some(command) = bodies::rcte_body(body) else {
        return Step::notes(Note::Unreadable, s);
    };
    moves::after_rcte(s, rcte::commanded(s.rcte, command, paper, wire))
}

// The bulletin end's value about an option's character, with the option in force.
fn value_read(s: Printer, d: Disposition, body: &[u8]) -> Step
    ensures { RefinesStepUnwritten (value_read (view_printer s) d (value_body d DS body.now)) s result }
{
    let Some(value) = bodies::value_body(d, DS, body) else {
        return Step::notes(Note::Unreadable, s);
    };
    let spoken = Values {
        ds: value,
        ..s.values.of(d)
    };
    let t = Printer {
        values: s.values.with(d, spoken),
        ..s
    };
    Step::notes(Note::Clear, t)
}

// A DEFINE of x; rest is its count and string.
fn define_read(s: Printer, x: u8, rest: &[u8], wire: &mut [u8]) -> Step
    requires { RoomFor (verdict_bytes (judged (view_printer s).table x rest.now) x) wire.old }
    ensures { RefinesStepOnWire (define_judged (view_printer s) x rest.now) s (lent wire) result }
{
    let defined = received_macros::define(s.table, x, rest);
    let n = received_macros::put_verdict(defined.map(|_| ()), x, wire);
    let t = Printer {
        table: defined.unwrap_or(s.table),
        ..s
    };
    Step::sends(t, n)
}

// BM's DEFINE or LITERAL, with BM in force.
fn macro_read(s: Printer, body: &[u8], paper: &mut [u8], wire: &mut [u8]) -> Step
    requires room_for { RoomFor (macro_read (view_printer s) body.now (macro_body body.now)).paper paper.old }
    requires room_for_2 { RoomFor (macro_read (view_printer s) body.now (macro_body body.now)).wire wire.old }
    ensures { RefinesStep (macro_read (view_printer s) body.now (macro_body body.now)) s (lent paper) (lent wire) result }
{
    let Some(command) = bodies::macro_body(body) else {
        return Step::notes(Note::Unreadable, s);
    };
    match command {
        MacroCommand::Define(x) => define_read(s, x, &body[3..], wire),
        MacroCommand::Literal(x) => network::data_read(s, x, paper),
    }
}

// A body by its option, or the note that ends its handling.
fn handled(
    s: Printer,
    body: &[u8],
    subject: Result<Subject, Note>,
    paper: &mut [u8],
    wire: &mut [u8],
) -> Step
    requires room_for { RoomFor (body_handled (view_printer s) body.now subject).paper paper.old }
    requires room_for_2 { RoomFor (body_handled (view_printer s) body.now subject).wire wire.old }
    ensures { RefinesStep (body_handled (view_printer s) body.now subject) s (lent paper) (lent wire) result }
{
    match subject {
        Err(note) => Step::notes(note, s),
        Ok(Subject::Rcte) => rcte_read(s, body, paper, wire),
        Ok(Subject::Disposes(d)) => value_read(s, d, body),
        Ok(Subject::Macro) => macro_read(s, body, paper, wire),
    }
}

// The body that the reader kept; the reader is empty after it.
pub fn body_read(s: Printer, paper: &mut [u8], wire: &mut [u8]) -> Step
    requires room_for { RoomFor (body_end_read (view_printer s)).paper paper.old }
    requires room_for_2 { RoomFor (body_end_read (view_printer s)).wire wire.old }
    ensures { RefinesStep (body_end_read (view_printer s)) s (lent paper) (lent wire) result }
{
    let subject = subnegotiation::body_checked(End::Printer, s.sides, s.reader);
    let t = Printer {
        reader: reader::idle(),
        ..s
    };
    handled(
        t,
        &s.reader.body[..reader::body_len(s.reader.len)],
        subject,
        paper,
        wire,
    )
}
