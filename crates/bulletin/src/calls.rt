// The bulletin end's calls. None asks anything of its caller.
ghost use Rattle.std.specs.Prelude.{◌≡◌};
ghost use Rattle.lists.specs.Buffers.{lent, RoomFor};
ghost use Rattle.codes.specs.Answers.{allowed};
ghost use Rattle.codes.specs.Telnet.{DS};
ghost use Rattle.disposition.specs.Handled.{reports_of, suggestion};
ghost use Rattle.bulletin.specs.Calls.{
  network_call,
  ask_call,
  suggest_of,
  suggest_call,
  order_guards,
  order_call,
  define_guards_before_size,
  define_call,
  use_guards,
  use_call,
  text_guards,
  text_call,
  issue_call,
  macro_standing,
  dispositions_report,
  output_now,
};
ghost use Rattle.bulletin.specs.NetworkRun.{network_run};
ghost use Rattle.bulletin.specs.RefinementOfRuns.{RefinesRun};
ghost use Rattle.bulletin.specs.Refinement.{view_bulletin, WholeBulletin, RefinesAnswer, RefinesAnswerOnWire, RefinesOutcomeOnWire, fresh_cells, refusal, answered};

use crate::{Answer, Bulletin, Output, RunAnswer, Standing, Step, items, moves, network, run};
use codes::{Code, DS, Disposition, Each, IAC, Note};
use disposition::{Handlings, Values};
use issues::Issues;
use keys::Key;
use negotiation::End;
use sent_macros::Status;

pub fn fresh() -> Bulletin
    ensures { result ≡ fresh_cells }
{
    Bulletin {
        sides: negotiation::all_no(),
        reader: reader::idle(),
        table: sent_macros::none(),
        values: Each::all(disposition::unspoken()),
        waits: Each::all(false),
        issues: issues::first(),
    }
}

// A refusal: the state that was given, and nothing written.
fn refused(s: Bulletin, code: Code) -> Answer
    ensures { result ≡ refusal s code }
{
    Answer {
        code,
        note: Note::Clear,
        host: 0,
        wire: 0,
        state: s,
    }
}

// No From: its clause says besides that the state's arrays are whole.
fn done(step: Step) -> Answer
    ensures { (result ≡ answered step) × WholeBulletin step.state }
{
    Answer {
        code: Code::Done,
        note: step.note,
        host: step.host,
        wire: step.wire,
        state: step.state,
    }
}

pub fn network_byte(s: Bulletin, b: u8, host: &mut [u8], wire: &mut [u8]) -> Answer
    ensures { RefinesAnswer (network_call (view_bulletin s) b) s (lent host) (lent wire) result }
{
    if codes::no_room(host.len(), wire.len()) {
        return refused(s, Code::NoRoom);
    }
    done(network::network_read(s, b, host, wire))
}

// Network bytes one after the other, each in what the one before left unused of the two buffers. Stops before one that would be
// refused, and behind one that gave a note.
pub fn network_bytes(s: Bulletin, bytes: &[u8], host: &mut [u8], wire: &mut [u8]) -> RunAnswer
    ensures { RefinesRun (network_run (view_bulletin s) bytes.now) s (lent host) (lent wire) result }
{
    if reader::cannot_begin(bytes.len(), host.len(), wire.len()) {
        return run::refused(s, Code::NoRoom);
    }
    run::read_bytes(s, bytes, host, wire)
}

// An option is asked for or given up: ways 0 and 1 disable and enable his side, 2 and 3 ours.
pub fn ask(s: Bulletin, option: u8, way: u8, wire: &mut [u8]) -> Answer
    ensures { RefinesAnswerOnWire (ask_call (view_bulletin s) option way) s (lent wire) result }
{
    if codes::no_wire(wire.len()) {
        return refused(s, Code::NoRoom);
    }
    match negotiation::asked_by(End::Bulletin, s.sides, option, way) {
        Err(code) => refused(s, code),
        Ok(turn) => done(moves::moved_with_reply(s, turn, option, wire)),
    }
}

// This end's value about an option's character, DS.
fn suggest_of(s: Bulletin, v: u8, d: Disposition, wire: &mut [u8]) -> Answer
    requires { RoomFor (suggestion d DS v) wire.old }
    ensures { RefinesOutcomeOnWire (suggest_of (view_bulletin s) v d) s (lent wire) result }
{
    let on = negotiation::disposition_in_force(s.sides, d);
    let old = s.values.of(d);
    if let Err(code) = disposition::suggest_refusal(d, on, old.ds, v) {
        return refused(s, code);
    }
    let n = disposition::put_suggestion(d, DS, v, wire);
    let t = moves::with_values(s, d, Values { ds: v, ..old });
    done(Step::sends(t, n))
}

// The same of an option by its number.
pub fn suggest(s: Bulletin, option: u8, v: u8, wire: &mut [u8]) -> Answer
    ensures { RefinesAnswerOnWire (suggest_call (view_bulletin s) option v) s (lent wire) result }
{
    if codes::no_wire(wire.len()) {
        return refused(s, Code::NoRoom);
    }
    match codes::disposition_numbered(option) {
        Some(d) => suggest_of(s, v, d, wire),
        None => refused(s, Code::NotCarried),
    }
}

// The refusals of an order, in their order.
#[tactic(auto, unfolding(codes::specs::Answers::allowed))]
fn order_refusal(s: Bulletin, cmd: u8, wire: usize) -> Result<(), Code>
    ensures { result ≡ allowed (order_guards (view_bulletin s) cmd wire) }
{
    if codes::no_wire(wire) {
        return Err(Code::NoRoom);
    }
    if !negotiation::rcte_in_force(s.sides) {
        return Err(Code::NotInForce);
    }
    if items::bad_order(cmd) {
        return Err(Code::BadValue);
    }
    Ok(())
}

// An RCTE command; a class pair is sent if the bit of cmd for it is on.
pub fn order(s: Bulletin, cmd: u8, breaks: u16, sends: u16, wire: &mut [u8]) -> Answer
    ensures { RefinesAnswerOnWire (order_call (view_bulletin s) cmd breaks sends) s (lent wire) result }
{
    if let Err(code) = order_refusal(s, cmd, wire.len()) {
        return refused(s, code);
    }
    let n = items::put_order(cmd, breaks, sends, wire);
    done(Step::sends(s, n))
}

// The refusals of a DEFINE before its size, in their order.
#[tactic(auto, unfolding(codes::specs::Answers::allowed))]
fn define_refusal(s: Bulletin, x: u8, wire: usize) -> Result<(), Code>
    ensures { result ≡ allowed (define_guards_before_size (view_bulletin s) x wire) }
{
    if codes::no_wire(wire) {
        return Err(Code::NoRoom);
    }
    if !negotiation::macros_in_force(End::Bulletin, s.sides) {
        return Err(Code::NotInForce);
    }
    if x == IAC {
        return Err(Code::BadMacroByte);
    }
    if sent_macros::is_pending(&s.table.statuses, x) {
        return Err(Code::Unanswered);
    }
    Ok(())
}

// A macro byte's new text, of any length.
pub fn define(s: Bulletin, x: u8, text: &[u8], wire: &mut [u8]) -> Answer
    ensures { RefinesAnswerOnWire (define_call (view_bulletin s) x text.now) s (lent wire) result }
{
    if let Err(code) = define_refusal(s, x, wire.len()) {
        return refused(s, code);
    }
    let Some(defined) = sent_macros::define(s.table, x, text, wire) else {
        return refused(s, Code::TooLong);
    };
    let t = Bulletin {
        table: defined.table,
        issues: issues::keep(s.issues, x),
        ..s
    };
    done(Step::sends(t, defined.wire))
}

// The refusals of a macro's use, in their order.
#[tactic(auto, unfolding(codes::specs::Answers::allowed))]
fn use_refusal(s: Bulletin, x: u8, wire: usize) -> Result<(), Code>
    ensures { result ≡ allowed (use_guards (view_bulletin s) x wire) }
{
    if codes::no_wire(wire) {
        return Err(Code::NoRoom);
    }
    if !negotiation::macros_in_force(End::Bulletin, s.sides) {
        return Err(Code::NotInForce);
    }
    if disposition::is_waiting(s.waits) {
        return Err(Code::OutputWaits);
    }
    issues::use_refusal(&s.table.statuses, s.issues, x)
}

// An accepted macro, by its byte.
pub fn use_macro(s: Bulletin, x: u8, wire: &mut [u8]) -> Answer
    ensures { RefinesAnswerOnWire (use_call (view_bulletin s) x) s (lent wire) result }
{
    if let Err(code) = use_refusal(s, x, wire.len()) {
        return refused(s, code);
    }
    wire[0] = x;
    done(Step::sends(s, 1))
}

// The refusals of a text item, in their order.
#[tactic(auto, unfolding(codes::specs::Answers::allowed))]
fn text_refusal(s: Bulletin, k: Key, wire: usize) -> Result<(), Code>
    ensures { result ≡ allowed (text_guards (view_bulletin s) k wire) }
{
    if codes::no_wire(wire) {
        return Err(Code::NoRoom);
    }
    if keys::bad_command(k) {
        return Err(Code::BadCommand);
    }
    if disposition::is_waiting(s.waits) {
        return Err(Code::OutputWaits);
    }
    Ok(())
}

// A text item; output waits behind it for each option that takes part with 254.
pub fn text_item(s: Bulletin, k: Key, wire: &mut [u8]) -> Answer
    ensures { RefinesAnswerOnWire (text_call (view_bulletin s) k) s (lent wire) result }
{
    if let Err(code) = text_refusal(s, k, wire.len()) {
        return refused(s, code);
    }
    let n = items::put_item(s, k, wire);
    let t = Bulletin {
        waits: items::waits_after(s, k),
        ..s
    };
    done(Step::sends(t, n))
}

// The forecast issue is another from now on.
pub fn issue(s: Bulletin, n: u16, wire: &mut [u8]) -> Answer
    ensures { RefinesAnswerOnWire (issue_call (view_bulletin s) n) s (lent wire) result }
{
    if codes::no_wire(wire.len()) {
        return refused(s, Code::NoRoom);
    }
    let t = Bulletin {
        issues: Issues {
            present: n,
            ..s.issues
        },
        ..s
    };
    done(Step::sends(t, 0))
}

// How the last DEFINE of a byte stands, and the issue that it kept; with BM not in force every byte is free.
pub fn macro_standing(s: Bulletin, x: u8) -> Standing
    ensures { result ≡ macro_standing (view_bulletin s) x }
{
    if negotiation::macros_in_force(End::Bulletin, s.sides) {
        return Standing {
            status: sent_macros::status_at(&s.table.statuses, x),
            kept: issues::kept_of(s.issues, x),
            present: s.issues.present,
        };
    }
    Standing {
        status: Status::Free,
        kept: 0,
        present: s.issues.present,
    }
}

// Of each option about output disposition who handles its character, and how.
pub fn report(s: Bulletin) -> Handlings
    ensures { reports_of result ≡ dispositions_report (view_bulletin s) }
{
    items::handlings_now(s)
}

// Whether output waits.
pub fn output(s: Bulletin) -> Output
    ensures { result ≡ output_now (view_bulletin s) }
{
    if disposition::is_waiting(s.waits) {
        Output::Waiting
    } else {
        Output::Ready
    }
}
