// The printer end's calls. None asks anything of its caller.
ghost use Rattle.std.specs.Prelude.{◌≡◌, false, ◌&&◌};
ghost use Rattle.codes.specs.Telnet.{DR};
ghost use Rattle.disposition.specs.Handled.{reports_of, suggestion};
ghost use Rattle.rcte.specs.Control.{is_full};
ghost use Rattle.printer.specs.State.{rcte_in_force};
ghost use Rattle.printer.specs.Calls.{network_call, key_call, key_typed, ask_call, suggest_of, suggest_call, dispositions_report};
ghost use Rattle.lists.specs.Buffers.{lent, RoomFor};
ghost use Rattle.printer.specs.NetworkRun.{network_run};
ghost use Rattle.printer.specs.RefinementOfRuns.{RefinesRun};
ghost use Rattle.printer.specs.Refinement.{WholePrinter, view_printer, RefinesAnswer, RefinesOutcomeOnWire, RefinesStep, fresh_cells, refusal, answered};

use crate::{Answer, Printer, RunAnswer, Step, moves, network, run};
use codes::{Code, DR, Disposition, Each, Note};
use disposition::{Handlings, Values};
use keys::Key;
use negotiation::End;

pub fn fresh() -> Printer
    ensures { result ≡ fresh_cells }
{
    Printer {
        sides: negotiation::all_no(),
        reader: reader::idle(),
        table: received_macros::empty(),
        rcte: rcte::started(),
        values: Each::all(disposition::unspoken()),
    }
}

// A refusal: the state that was given, and nothing written.
fn refused(s: Printer, code: Code) -> Answer
    ensures { result ≡ refusal s code }
{
    Answer {
        code,
        note: Note::Clear,
        paper: 0,
        wire: 0,
        state: s,
    }
}

// No From: its clause says besides that the state's arrays are whole.
fn done(step: Step) -> Answer
    ensures { (result ≡ answered step) × WholePrinter step.state }
{
    Answer {
        code: Code::Done,
        note: step.note,
        paper: step.paper,
        wire: step.wire,
        state: step.state,
    }
}

pub fn network_byte(s: Printer, b: u8, paper: &mut [u8], wire: &mut [u8]) -> Answer
    ensures { RefinesAnswer (network_call (view_printer s) b) s (lent paper) (lent wire) result }
{
    if codes::no_room(paper.len(), wire.len()) {
        return refused(s, Code::NoRoom);
    }
    if network::is_ordinary(s.sides, s.reader.phase, b) {
        paper[0] = b;
        return Answer {
            code: Code::Done,
            note: Note::Clear,
            paper: 1,
            wire: 0,
            state: s,
        };
    }
    done(network::network_read(s, b, paper, wire))
}

// Network bytes one after the other, each in what the one before left unused of the two buffers. Stops before one that would be
// refused, and behind one that gave a note.
pub fn network_bytes(s: Printer, bytes: &[u8], paper: &mut [u8], wire: &mut [u8]) -> RunAnswer
    ensures { RefinesRun (network_run (view_printer s) bytes.now) s (lent paper) (lent wire) result }
{
    if reader::cannot_begin(bytes.len(), paper.len(), wire.len()) {
        return run::refused(s, Code::NoRoom);
    }
    run::read_bytes(s, bytes, paper, wire)
}

// RCTE holds keys back, and as many wait as can.
fn queue_full(s: Printer) -> bool
    ensures { result ≡ (rcte_in_force (view_printer s) && is_full (view_printer s).rcte) }
{
    negotiation::rcte_in_force(s.sides) && rcte::is_full(s.rcte)
}

// A key that nothing refuses.
fn key_typed(s: Printer, k: Key, paper: &mut [u8], wire: &mut [u8]) -> Step
    requires s_value { (rcte_in_force (view_printer s) && is_full (view_printer s).rcte) ≡ false }
    requires room_for { RoomFor (key_typed (view_printer s) k).paper paper.old }
    requires room_for_2 { RoomFor (key_typed (view_printer s) k).wire wire.old }
    ensures { RefinesStep (key_typed (view_printer s) k) s (lent paper) (lent wire) result }
{
    if negotiation::rcte_in_force(s.sides) {
        return moves::after_rcte(s, rcte::pressed(s.rcte, k, paper, wire));
    }
    let echoed = negotiation::echo_in_force(s.sides);
    let sent = rcte::send_key(k, echoed, paper, wire);
    Step {
        note: Note::Clear,
        paper: sent.paper,
        wire: sent.wire,
        state: s,
    }
}

pub fn press(s: Printer, k: Key, paper: &mut [u8], wire: &mut [u8]) -> Answer
    ensures { RefinesAnswer (key_call (view_printer s) k) s (lent paper) (lent wire) result }
{
    if codes::no_room(paper.len(), wire.len()) {
        return refused(s, Code::NoRoom);
    }
    if keys::bad_command(k) {
        return refused(s, Code::BadCommand);
    }
    if queue_full(s) {
        return refused(s, Code::QueueFull);
    }
    done(key_typed(s, k, paper, wire))
}

// An option is asked for or given up: ways 0 and 1 disable and enable his side, 2 and 3 ours.
pub fn ask(s: Printer, option: u8, way: u8, paper: &mut [u8], wire: &mut [u8]) -> Answer
    ensures { RefinesAnswer (ask_call (view_printer s) option way) s (lent paper) (lent wire) result }
{
    if codes::no_room(paper.len(), wire.len()) {
        return refused(s, Code::NoRoom);
    }
    let turn = match negotiation::asked_by(End::Printer, s.sides, option, way) {
        Ok(turn) => turn,
        Err(code) => return refused(s, code),
    };
    done(moves::moved_with_reply(
        s, turn.side, turn.next, turn.whose, turn.reply, option, paper, wire,
    ))
}

// This end's value about an option's character, DR.
fn suggest_of(s: Printer, v: u8, d: Disposition, wire: &mut [u8]) -> Answer
    requires { RoomFor (suggestion d DR v) wire.old }
    ensures { RefinesOutcomeOnWire (suggest_of (view_printer s) v d) s (lent wire) result }
{
    let old = s.values.of(d);
    let on = negotiation::disposition_in_force(s.sides, d);
    if let Err(code) = disposition::suggest_refusal(d, on, old.dr, v) {
        return refused(s, code);
    }
    let n = disposition::put_suggestion(d, DR, v, wire);
    let t = Printer {
        values: s.values.with(d, Values { dr: v, ..old }),
        ..s
    };
    done(Step::sends(t, n))
}

// The same of an option by its number.
pub fn suggest(s: Printer, option: u8, v: u8, paper: &mut [u8], wire: &mut [u8]) -> Answer
    ensures { RefinesAnswer (suggest_call (view_printer s) option v) s (lent paper) (lent wire) result }
{
    if codes::no_room(paper.len(), wire.len()) {
        return refused(s, Code::NoRoom);
    }
    match codes::disposition_numbered(option) {
        Some(d) => suggest_of(s, v, d, wire),
        None => refused(s, Code::NotCarried),
    }
}

// Of each option about output disposition who handles its character, and how.
pub fn report(s: Printer) -> Handlings
    ensures { reports_of result ≡ dispositions_report (view_printer s) }
{
    disposition::handlings_in(s.sides, s.values)
}
