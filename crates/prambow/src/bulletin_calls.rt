// The bulletin end's calls on arrays that the host lends, as the printer end's. None asks anything of its caller.
ghost use Rattle.std.specs.Prelude.{◌≡◌};
ghost use Rattle.lists.specs.Buffers.{lent};
ghost use Rattle.bulletin.specs.Calls.{network_call, ask_call, suggest_call, order_call, define_call, use_call, text_call, issue_call};
ghost use Rattle.bulletin.specs.Refinement.{fresh_cells, view_bulletin};
ghost use Rattle.session_arrays.specs.Numbers.{key_of_pair};
ghost use Rattle.session_arrays.specs.BulletinArrays.{
  lent_bulletin,
  decoded_bulletin,
  encoded_bulletin,
  RefinesOnBulletinArrays,
  RefinesOnBulletinArraysWire,
  ReportsBulletin,
  SaysOutput,
  SaysStanding,
};
ghost use Rattle.bulletin.specs.NetworkRun.{network_run};
ghost use Rattle.session_arrays.specs.BulletinRuns.{RefinesRunOnBulletinArrays};

use bulletin::calls;
use codes::{Code, Note};
use negotiation::End;
use reader::BODY_ROOM;
use received_macros::ROOM;
use session_arrays::bulletin_arrays::LentBulletinArrays;
use session_arrays::{
    Outcome, Reported, RunOutcome, StandingNumbers, bulletin_arrays, bulletin_runs, numbers,
};

pub fn prambow_bulletin_fresh_arrays(
    small: &mut [u8; 23],
    counts: &mut [usize; 1],
    body: &mut [u8; BODY_ROOM],
    statuses: &mut [u8; 256],
    marks: &mut [u16; 256],
    cells: &mut [u8; ROOM],
    issue: &mut [u16; 1],
    kept: &mut [u16; 256],
)
    ensures { (lent_bulletin small counts body statuses marks cells issue kept).after ≡ encoded_bulletin fresh_cells }
{
    let mut arrays = LentBulletinArrays {
        small,
        counts,
        body,
        statuses,
        marks,
        cells,
        issue,
        kept,
    };
    arrays.store(calls::fresh());
}

pub fn prambow_bulletin_network_byte_arrays(
    small: &mut [u8; 23],
    counts: &mut [usize; 1],
    body: &mut [u8; BODY_ROOM],
    statuses: &mut [u8; 256],
    marks: &mut [u16; 256],
    cells: &mut [u8; ROOM],
    issue: &mut [u16; 1],
    kept: &mut [u16; 256],
    b: u8,
    host: &mut [u8],
    wire: &mut [u8],
) -> Outcome
    ensures { RefinesOnBulletinArrays (λ t. network_call t b) (lent_bulletin small counts body statuses marks cells issue kept) (lent host) (lent wire) result }
{
    let mut arrays = LentBulletinArrays {
        small,
        counts,
        body,
        statuses,
        marks,
        cells,
        issue,
        kept,
    };
    let a = calls::network_byte(arrays.decoded(), b, host, wire);
    arrays.kept(&a)
}

// Network bytes one after the other, as `bulletin::calls::network_bytes` reads them. Stops before one that would be refused, and
// behind one that gave a note. One plain byte needs no loop.
pub fn prambow_bulletin_network_bytes_arrays(
    small: &mut [u8; 23],
    counts: &mut [usize; 1],
    body: &mut [u8; BODY_ROOM],
    statuses: &mut [u8; 256],
    marks: &mut [u16; 256],
    cells: &mut [u8; ROOM],
    issue: &mut [u16; 1],
    kept: &mut [u16; 256],
    bytes: &[u8],
    host: &mut [u8],
    wire: &mut [u8],
) -> RunOutcome
    ensures { RefinesRunOnBulletinArrays (network_run (view_bulletin (decoded_bulletin (lent_bulletin small counts body statuses marks cells issue kept).before)) bytes.now) (lent_bulletin small counts body statuses marks cells issue kept) (lent host) (lent wire) result }
{
    if reader::cannot_begin(bytes.len(), host.len(), wire.len()) {
        return numbers::run_outcome(Code::NoRoom, Note::Clear, 0, 0, 0);
    }
    if bytes.len() == 1 {
        let b = bytes[0];
        if bulletin_runs::is_plain(small, b) {
            host[0] = b;
            return numbers::run_outcome(Code::Done, Note::Clear, 1, 1, 0);
        }
    }
    let mut arrays = LentBulletinArrays {
        small,
        counts,
        body,
        statuses,
        marks,
        cells,
        issue,
        kept,
    };
    arrays.read_bytes(bytes, host, wire)
}

pub fn prambow_bulletin_ask_arrays(
    small: &mut [u8; 23],
    counts: &mut [usize; 1],
    body: &mut [u8; BODY_ROOM],
    statuses: &mut [u8; 256],
    marks: &mut [u16; 256],
    cells: &mut [u8; ROOM],
    issue: &mut [u16; 1],
    kept: &mut [u16; 256],
    option: u8,
    way: u8,
    wire: &mut [u8],
) -> Outcome
    ensures { RefinesOnBulletinArraysWire (λ t. ask_call t option way) (lent_bulletin small counts body statuses marks cells issue kept) (lent wire) result }
{
    let mut arrays = LentBulletinArrays {
        small,
        counts,
        body,
        statuses,
        marks,
        cells,
        issue,
        kept,
    };
    let a = calls::ask(arrays.decoded(), option, way, wire);
    arrays.kept(&a)
}

pub fn prambow_bulletin_suggest_arrays(
    small: &mut [u8; 23],
    counts: &mut [usize; 1],
    body: &mut [u8; BODY_ROOM],
    statuses: &mut [u8; 256],
    marks: &mut [u16; 256],
    cells: &mut [u8; ROOM],
    issue: &mut [u16; 1],
    kept: &mut [u16; 256],
    option: u8,
    v: u8,
    wire: &mut [u8],
) -> Outcome
    ensures { RefinesOnBulletinArraysWire (λ t. suggest_call t option v) (lent_bulletin small counts body statuses marks cells issue kept) (lent wire) result }
{
    let mut arrays = LentBulletinArrays {
        small,
        counts,
        body,
        statuses,
        marks,
        cells,
        issue,
        kept,
    };
    let a = calls::suggest(arrays.decoded(), option, v, wire);
    arrays.kept(&a)
}

pub fn prambow_bulletin_order_arrays(
    small: &mut [u8; 23],
    counts: &mut [usize; 1],
    body: &mut [u8; BODY_ROOM],
    statuses: &mut [u8; 256],
    marks: &mut [u16; 256],
    cells: &mut [u8; ROOM],
    issue: &mut [u16; 1],
    kept: &mut [u16; 256],
    cmd: u8,
    breaks: u16,
    sends: u16,
    wire: &mut [u8],
) -> Outcome
    ensures { RefinesOnBulletinArraysWire (λ t. order_call t cmd breaks sends) (lent_bulletin small counts body statuses marks cells issue kept) (lent wire) result }
{
    let mut arrays = LentBulletinArrays {
        small,
        counts,
        body,
        statuses,
        marks,
        cells,
        issue,
        kept,
    };
    let a = calls::order(arrays.decoded(), cmd, breaks, sends, wire);
    arrays.kept(&a)
}

pub fn prambow_bulletin_define_arrays(
    small: &mut [u8; 23],
    counts: &mut [usize; 1],
    body: &mut [u8; BODY_ROOM],
    statuses: &mut [u8; 256],
    marks: &mut [u16; 256],
    cells: &mut [u8; ROOM],
    issue: &mut [u16; 1],
    kept: &mut [u16; 256],
    x: u8,
    text: &[u8],
    wire: &mut [u8],
) -> Outcome
    ensures { RefinesOnBulletinArraysWire (λ t. define_call t x text.now) (lent_bulletin small counts body statuses marks cells issue kept) (lent wire) result }
{
    let mut arrays = LentBulletinArrays {
        small,
        counts,
        body,
        statuses,
        marks,
        cells,
        issue,
        kept,
    };
    let a = calls::define(arrays.decoded(), x, text, wire);
    arrays.kept(&a)
}

pub fn prambow_bulletin_use_macro_arrays(
    small: &mut [u8; 23],
    counts: &mut [usize; 1],
    body: &mut [u8; BODY_ROOM],
    statuses: &mut [u8; 256],
    marks: &mut [u16; 256],
    cells: &mut [u8; ROOM],
    issue: &mut [u16; 1],
    kept: &mut [u16; 256],
    x: u8,
    wire: &mut [u8],
) -> Outcome
    ensures { RefinesOnBulletinArraysWire (λ t. use_call t x) (lent_bulletin small counts body statuses marks cells issue kept) (lent wire) result }
{
    let mut arrays = LentBulletinArrays {
        small,
        counts,
        body,
        statuses,
        marks,
        cells,
        issue,
        kept,
    };
    let a = calls::use_macro(arrays.decoded(), x, wire);
    arrays.kept(&a)
}

// The item is a pair of numbers, as a key; one that stands for none is refused with code 3.
pub fn prambow_bulletin_text_item_arrays(
    small: &mut [u8; 23],
    counts: &mut [usize; 1],
    body: &mut [u8; BODY_ROOM],
    statuses: &mut [u8; 256],
    marks: &mut [u16; 256],
    cells: &mut [u8; ROOM],
    issue: &mut [u16; 1],
    kept: &mut [u16; 256],
    kind: u8,
    b: u8,
    wire: &mut [u8],
) -> Outcome
    ensures { RefinesOnBulletinArraysWire (λ t. text_call t (key_of_pair kind b)) (lent_bulletin small counts body statuses marks cells issue kept) (lent wire) result }
{
    let mut arrays = LentBulletinArrays {
        small,
        counts,
        body,
        statuses,
        marks,
        cells,
        issue,
        kept,
    };
    let a = calls::text_item(arrays.decoded(), numbers::key_of_pair(kind, b), wire);
    arrays.kept(&a)
}

pub fn prambow_bulletin_issue_arrays(
    small: &mut [u8; 23],
    counts: &mut [usize; 1],
    body: &mut [u8; BODY_ROOM],
    statuses: &mut [u8; 256],
    marks: &mut [u16; 256],
    cells: &mut [u8; ROOM],
    issue: &mut [u16; 1],
    kept: &mut [u16; 256],
    n: u16,
    wire: &mut [u8],
) -> Outcome
    ensures { RefinesOnBulletinArraysWire (λ t. issue_call t n) (lent_bulletin small counts body statuses marks cells issue kept) (lent wire) result }
{
    let mut arrays = LentBulletinArrays {
        small,
        counts,
        body,
        statuses,
        marks,
        cells,
        issue,
        kept,
    };
    let a = calls::issue(arrays.decoded(), n, wire);
    arrays.kept(&a)
}

// How the last DEFINE of a byte stands, and the issue that it kept. It looks at BM's state, the statuses and the issues alone.
pub fn prambow_bulletin_macro_standing_arrays(
    small: &[u8; 23],
    statuses: &[u8; 256],
    issue: &[u16; 1],
    kept: &[u16; 256],
    x: u8,
) -> StandingNumbers
    ensures { SaysStanding x small.now statuses.now issue.now kept.now result }
{
    let present = issue[0];
    if negotiation::macros_in_force(End::Bulletin, bulletin_arrays::sides_in(small)) {
        return StandingNumbers {
            status: sent_macros::status_at(statuses, x).into(),
            kept: kept[x as usize],
            present,
        };
    }
    StandingNumbers {
        status: 0,
        kept: 0,
        present,
    }
}

// Of each option about output disposition who handles its character, and how. It looks at the small parts alone.
pub fn prambow_bulletin_report_arrays(small: &[u8; 23]) -> Reported
    ensures { ReportsBulletin small.now result }
{
    disposition::handlings_in(
        bulletin_arrays::sides_in(small),
        bulletin_arrays::values_in(small),
    )
    .into()
}

// Whether output waits: 0 ready, 1 waiting; a number and no `bulletin::Output`, for it goes to C.
pub fn prambow_bulletin_output_arrays(small: &[u8; 23]) -> u8
    ensures { SaysOutput small.now result }
{
    disposition::is_waiting(bulletin_arrays::waits_in(small)).into()
}
