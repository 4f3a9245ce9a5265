// The parts of a state as numbers and back, as they stand at either end. Every number decodes.
ghost use Rattle.std.specs.Prelude.{◌≡◌, ◌+◌, ◌≤◌, get_or};
ghost use Rattle.codes.specs.declared.Code.TheVariants.{Done};
ghost use Rattle.disposition.specs.Handled.{report_of, reports_of};
ghost use Rattle.session_arrays.specs.Numbers.{sides_in, sides_and_phase, values_at, values_in, value_numbers, reader_from, report_in, reports_in, outcome, run_outcome, key_of_pair};

use crate::{Handler, Outcome, Reported, RunOutcome};
use codes::{Code, Each, Note};
use disposition::{AllValues, Handling, Handlings, Values};
use keys::Key;
use negotiation::Sides;
use reader::{BODY_ROOM, Phase, Ran, Reader};

// The states of the nine sides, with which the small parts begin. Here and below the four entries of an `Each` are written out: in
// a generic function the check reads nothing off a closure's body.
pub fn sides_in<const N: usize>(small: &[u8; N]) -> Sides
    requires { 9 ≤ N }
    ensures { result ≡ sides_in small.now }
{
    Sides {
        echo: small[0].into(),
        sga: small[1].into(),
        rcte: small[2].into(),
        bm: small[3].into(),
        printersga: small[4].into(),
        dispositions: Each {
            naocrd: small[5].into(),
            naolfd: small[6].into(),
            naoffd: small[7].into(),
            naohtd: small[8].into(),
        },
    }
}

// Their numbers, and that of the reader's phase behind them.
pub fn sides_and_phase(sides: Sides, phase: Phase) -> [u8; 10]
    ensures { result ≡ sides_and_phase sides phase }
{
    [
        sides.echo.into(),
        sides.sga.into(),
        sides.rcte.into(),
        sides.bm.into(),
        sides.printersga.into(),
        sides.dispositions.naocrd.into(),
        sides.dispositions.naolfd.into(),
        sides.dispositions.naoffd.into(),
        sides.dispositions.naohtd.into(),
        phase.into(),
    ]
}

pub fn reader_of(phase: u8, marred: u8, len: usize, body: &[u8; BODY_ROOM]) -> Reader
    ensures { result ≡ reader_from phase marred len body.now }
{
    Reader {
        phase: phase.into(),
        marred: marred != 0,
        body: *body,
        len,
    }
}

// The reader, whose phase stands behind the sides, and whether its body is marred behind that.
pub fn reader_in<const N: usize>(small: &[u8; N], len: usize, body: &[u8; BODY_ROOM]) -> Reader
    requires { 11 ≤ N }
    ensures { result ≡ reader_from (get_or small.now 9 0) (get_or small.now 10 0) len body.now }
{
    reader_of(small[9], small[10], len, body)
}

fn values_at<const N: usize>(small: &[u8; N], at: usize) -> Values
    requires { at + 2 ≤ N }
    ensures { result ≡ values_at small.now at }
{
    Values {
        ds: small[at],
        dr: small[at + 1],
    }
}

// The values about output disposition, with which the small parts end.
pub fn values_in<const N: usize>(small: &[u8; N], from: usize) -> AllValues
    requires { from + 8 ≤ N }
    ensures { result ≡ values_in small.now from }
{
    Each {
        naocrd: values_at(small, from),
        naolfd: values_at(small, from + 2),
        naoffd: values_at(small, from + 4),
        naohtd: values_at(small, from + 6),
    }
}

pub fn value_numbers(v: AllValues) -> [u8; 8]
    ensures { result ≡ value_numbers v }
{
    [
        v.naocrd.ds,
        v.naocrd.dr,
        v.naolfd.ds,
        v.naolfd.dr,
        v.naoffd.ds,
        v.naoffd.dr,
        v.naohtd.ds,
        v.naohtd.dr,
    ]
}

impl From<Handling> for Handler {
    ghost from_gives = { λ h n. report_in n ≡ report_of h };

    fn from(h: Handling) -> Handler {
        Handler {
            who: disposition::handler_number(h),
            value: disposition::handling_value(h),
        }
    }
}

impl From<Handlings> for Reported {
    ghost from_gives = { λ h r. reports_in r ≡ reports_of h };

    fn from(h: Handlings) -> Reported {
        Reported {
            naocrd: h.naocrd.into(),
            naolfd: h.naolfd.into(),
            naoffd: h.naoffd.into(),
            naohtd: h.naohtd.into(),
        }
    }
}

impl From<Ran> for RunOutcome {
    ghost from_gives = { λ r o. o ≡ run_outcome Done r.note r.taken r.first r.wire };

    fn from(r: Ran) -> RunOutcome {
        run_outcome(Code::Done, r.note, r.taken, r.first, r.wire)
    }
}

pub fn outcome(code: Code, note: Note, first: usize, wire: usize) -> Outcome
    ensures { result ≡ outcome code note first wire }
{
    Outcome {
        code: u8::from(code).into(),
        note: u8::from(note).into(),
        first,
        wire,
    }
}

pub fn run_outcome(code: Code, note: Note, taken: usize, first: usize, wire: usize) -> RunOutcome
    ensures { result ≡ run_outcome code note taken first wire }
{
    RunOutcome {
        code: u8::from(code) as u32,
        note: u8::from(note) as u32,
        taken,
        first,
        wire,
    }
}

// A key by its kind and its byte, the numbers by which C has it. A pair that stands for no key is a Command that every end refuses.
#[tactic(auto, unfolding(crate::specs::Numbers::key_of_pair))]
pub fn key_of_pair(kind: u8, b: u8) -> Key
    ensures { result ≡ key_of_pair kind b }
{
    Key::try_from((kind, b)).unwrap_or(Key::Command(0))
}
