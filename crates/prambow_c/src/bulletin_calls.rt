// The exports of the bulletin end's calls, as the printer end's.
ghost use Rattle.std.specs.Prelude.{◌≡◌};
ghost use Rattle.lists.specs.Buffers.{lent};
ghost use Rattle.bulletin.specs.Calls.{network_call, ask_call, suggest_call, order_call, define_call, use_call, text_call, issue_call};
ghost use Rattle.bulletin.specs.Refinement.{fresh_cells, view_bulletin};
ghost use Rattle.session_arrays.specs.Numbers.{key_of_pair};
ghost use Rattle.session_arrays.specs.BulletinArrays.{
  lent_bulletin,
  decoded_bulletin,
  encoded_bulletin,
  RefinesOnBulletinArrays,
  RefinesOnBulletinArraysWire,
  ReportsBulletin,
  SaysOutput,
  SaysStanding,
};
ghost use Rattle.bulletin.specs.NetworkRun.{network_run};
ghost use Rattle.session_arrays.specs.BulletinRuns.{RefinesRunOnBulletinArrays};

use prambow::bulletin_calls;
use reader::BODY_ROOM;
use received_macros::ROOM;
use session_arrays::{Outcome, Reported, RunOutcome, StandingNumbers};

#[unsafe(no_mangle)]
pub extern "C" fn prambow_bulletin_fresh_arrays(
    small: &mut [u8; 23],
    counts: &mut [usize; 1],
    body: &mut [u8; BODY_ROOM],
    statuses: &mut [u8; 256],
    marks: &mut [u16; 256],
    cells: &mut [u8; ROOM],
    issue: &mut [u16; 1],
    kept: &mut [u16; 256],
)
    ensures { (lent_bulletin small counts body statuses marks cells issue kept).after ≡ encoded_bulletin fresh_cells }
{
    bulletin_calls::prambow_bulletin_fresh_arrays(
        small, counts, body, statuses, marks, cells, issue, kept,
    );
}

#[unsafe(no_mangle)]
pub extern "C" fn prambow_bulletin_network_byte_arrays(
    small: &mut [u8; 23],
    counts: &mut [usize; 1],
    body: &mut [u8; BODY_ROOM],
    statuses: &mut [u8; 256],
    marks: &mut [u16; 256],
    cells: &mut [u8; ROOM],
    issue: &mut [u16; 1],
    kept: &mut [u16; 256],
    b: u8,
    host: &mut [u8],
    wire: &mut [u8],
) -> Outcome
    ensures { RefinesOnBulletinArrays (λ t. network_call t b) (lent_bulletin small counts body statuses marks cells issue kept) (lent host) (lent wire) result }
{
    bulletin_calls::prambow_bulletin_network_byte_arrays(
        small, counts, body, statuses, marks, cells, issue, kept, b, host, wire,
    )
}

#[unsafe(no_mangle)]
pub extern "C" fn prambow_bulletin_network_bytes_arrays(
    small: &mut [u8; 23],
    counts: &mut [usize; 1],
    body: &mut [u8; BODY_ROOM],
    statuses: &mut [u8; 256],
    marks: &mut [u16; 256],
    cells: &mut [u8; ROOM],
    issue: &mut [u16; 1],
    kept: &mut [u16; 256],
    bytes: &[u8],
    host: &mut [u8],
    wire: &mut [u8],
) -> RunOutcome
    ensures { RefinesRunOnBulletinArrays (network_run (view_bulletin (decoded_bulletin (lent_bulletin small counts body statuses marks cells issue kept).before)) bytes.now) (lent_bulletin small counts body statuses marks cells issue kept) (lent host) (lent wire) result }
{
    bulletin_calls::prambow_bulletin_network_bytes_arrays(
        small, counts, body, statuses, marks, cells, issue, kept, bytes, host, wire,
    )
}

#[unsafe(no_mangle)]
pub extern "C" fn prambow_bulletin_ask_arrays(
    small: &mut [u8; 23],
    counts: &mut [usize; 1],
    body: &mut [u8; BODY_ROOM],
    statuses: &mut [u8; 256],
    marks: &mut [u16; 256],
    cells: &mut [u8; ROOM],
    issue: &mut [u16; 1],
    kept: &mut [u16; 256],
    option: u8,
    way: u8,
    wire: &mut [u8],
) -> Outcome
    ensures { RefinesOnBulletinArraysWire (λ t. ask_call t option way) (lent_bulletin small counts body statuses marks cells issue kept) (lent wire) result }
{
    bulletin_calls::prambow_bulletin_ask_arrays(
        small, counts, body, statuses, marks, cells, issue, kept, option, way, wire,
    )
}

#[unsafe(no_mangle)]
pub extern "C" fn prambow_bulletin_suggest_arrays(
    small: &mut [u8; 23],
    counts: &mut [usize; 1],
    body: &mut [u8; BODY_ROOM],
    statuses: &mut [u8; 256],
    marks: &mut [u16; 256],
    cells: &mut [u8; ROOM],
    issue: &mut [u16; 1],
    kept: &mut [u16; 256],
    option: u8,
    v: u8,
    wire: &mut [u8],
) -> Outcome
    ensures { RefinesOnBulletinArraysWire (λ t. suggest_call t option v) (lent_bulletin small counts body statuses marks cells issue kept) (lent wire) result }
{
    bulletin_calls::prambow_bulletin_suggest_arrays(
        small, counts, body, statuses, marks, cells, issue, kept, option, v, wire,
    )
}

#[unsafe(no_mangle)]
pub extern "C" fn prambow_bulletin_order_arrays(
    small: &mut [u8; 23],
    counts: &mut [usize; 1],
    body: &mut [u8; BODY_ROOM],
    statuses: &mut [u8; 256],
    marks: &mut [u16; 256],
    cells: &mut [u8; ROOM],
    issue: &mut [u16; 1],
    kept: &mut [u16; 256],
    cmd: u8,
    breaks: u16,
    sends: u16,
    wire: &mut [u8],
) -> Outcome
    ensures { RefinesOnBulletinArraysWire (λ t. order_call t cmd breaks sends) (lent_bulletin small counts body statuses marks cells issue kept) (lent wire) result }
{
    bulletin_calls::prambow_bulletin_order_arrays(
        small, counts, body, statuses, marks, cells, issue, kept, cmd, breaks, sends, wire,
    )
}

#[unsafe(no_mangle)]
pub extern "C" fn prambow_bulletin_define_arrays(
    small: &mut [u8; 23],
    counts: &mut [usize; 1],
    body: &mut [u8; BODY_ROOM],
    statuses: &mut [u8; 256],
    marks: &mut [u16; 256],
    cells: &mut [u8; ROOM],
    issue: &mut [u16; 1],
    kept: &mut [u16; 256],
    x: u8,
    text: &[u8],
    wire: &mut [u8],
) -> Outcome
    ensures { RefinesOnBulletinArraysWire (λ t. define_call t x text.now) (lent_bulletin small counts body statuses marks cells issue kept) (lent wire) result }
{
    bulletin_calls::prambow_bulletin_define_arrays(
        small, counts, body, statuses, marks, cells, issue, kept, x, text, wire,
    )
}

#[unsafe(no_mangle)]
pub extern "C" fn prambow_bulletin_use_macro_arrays(
    small: &mut [u8; 23],
    counts: &mut [usize; 1],
    body: &mut [u8; BODY_ROOM],
    statuses: &mut [u8; 256],
    marks: &mut [u16; 256],
    cells: &mut [u8; ROOM],
    issue: &mut [u16; 1],
    kept: &mut [u16; 256],
    x: u8,
    wire: &mut [u8],
) -> Outcome
    ensures { RefinesOnBulletinArraysWire (λ t. use_call t x) (lent_bulletin small counts body statuses marks cells issue kept) (lent wire) result }
{
    bulletin_calls::prambow_bulletin_use_macro_arrays(
        small, counts, body, statuses, marks, cells, issue, kept, x, wire,
    )
}

#[unsafe(no_mangle)]
pub extern "C" fn prambow_bulletin_text_item_arrays(
    small: &mut [u8; 23],
    counts: &mut [usize; 1],
    body: &mut [u8; BODY_ROOM],
    statuses: &mut [u8; 256],
    marks: &mut [u16; 256],
    cells: &mut [u8; ROOM],
    issue: &mut [u16; 1],
    kept: &mut [u16; 256],
    kind: u8,
    b: u8,
    wire: &mut [u8],
) -> Outcome
    ensures { RefinesOnBulletinArraysWire (λ t. text_call t (key_of_pair kind b)) (lent_bulletin small counts body statuses marks cells issue kept) (lent wire) result }
{
    bulletin_calls::prambow_bulletin_text_item_arrays(
        small, counts, body, statuses, marks, cells, issue, kept, kind, b, wire,
    )
}

#[unsafe(no_mangle)]
pub extern "C" fn prambow_bulletin_issue_arrays(
    small: &mut [u8; 23],
    counts: &mut [usize; 1],
    body: &mut [u8; BODY_ROOM],
    statuses: &mut [u8; 256],
    marks: &mut [u16; 256],
    cells: &mut [u8; ROOM],
    issue: &mut [u16; 1],
    kept: &mut [u16; 256],
    n: u16,
    wire: &mut [u8],
) -> Outcome
    ensures { RefinesOnBulletinArraysWire (λ t. issue_call t n) (lent_bulletin small counts body statuses marks cells issue kept) (lent wire) result }
{
    bulletin_calls::prambow_bulletin_issue_arrays(
        small, counts, body, statuses, marks, cells, issue, kept, n, wire,
    )
}

#[unsafe(no_mangle)]
pub extern "C" fn prambow_bulletin_macro_standing_arrays(
    small: &[u8; 23],
    statuses: &[u8; 256],
    issue: &[u16; 1],
    kept: &[u16; 256],
    x: u8,
) -> StandingNumbers
    ensures { SaysStanding x small.now statuses.now issue.now kept.now result }
{
    bulletin_calls::prambow_bulletin_macro_standing_arrays(small, statuses, issue, kept, x)
}

#[unsafe(no_mangle)]
pub extern "C" fn prambow_bulletin_report_arrays(small: &[u8; 23]) -> Reported
    ensures { ReportsBulletin small.now result }
{
    bulletin_calls::prambow_bulletin_report_arrays(small)
}

#[unsafe(no_mangle)]
pub extern "C" fn prambow_bulletin_output_arrays(small: &[u8; 23]) -> u8
    ensures { SaysOutput small.now result }
{
    bulletin_calls::prambow_bulletin_output_arrays(small)
}
