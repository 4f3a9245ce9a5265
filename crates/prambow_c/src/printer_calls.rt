// The exports of the printer end's calls: each calls the library's function of its name and states its clause again.
ghost use Rattle.std.specs.Prelude.{◌≡◌};
ghost use Rattle.lists.specs.Buffers.{lent};
ghost use Rattle.printer.specs.Calls.{network_call, key_call, ask_call, suggest_call};
ghost use Rattle.printer.specs.Refinement.{fresh_cells, view_printer};
ghost use Rattle.session_arrays.specs.Numbers.{key_of_pair};
ghost use Rattle.session_arrays.specs.PrinterArrays.{lent_printer, decoded_printer, encoded_printer, RefinesOnPrinterArrays, ReportsPrinter, CountsWaiting};
ghost use Rattle.printer.specs.NetworkRun.{network_run};
ghost use Rattle.session_arrays.specs.PrinterRuns.{RefinesRunOnPrinterArrays};

use prambow::printer_calls;
use rcte::{GATHER_ROOM, WAIT_ROOM};
use reader::BODY_ROOM;
use received_macros::ROOM;
use session_arrays::{Outcome, Reported, RunOutcome};

#[unsafe(no_mangle)]
pub extern "C" fn prambow_printer_fresh_arrays(
    small: &mut [u8; 22],
    classes: &mut [u16; 2],
    counts: &mut [usize; 3],
    body: &mut [u8; BODY_ROOM],
    marks: &mut [u16; 256],
    cells: &mut [u8; ROOM],
    waiting: &mut [u16; WAIT_ROOM],
    gathered: &mut [u8; GATHER_ROOM],
)
    ensures { (lent_printer small classes counts body marks cells waiting gathered).after ≡ encoded_printer fresh_cells }
{
    printer_calls::prambow_printer_fresh_arrays(
        small, classes, counts, body, marks, cells, waiting, gathered,
    );
}

#[unsafe(no_mangle)]
pub extern "C" fn prambow_printer_network_byte_arrays(
    small: &mut [u8; 22],
    classes: &mut [u16; 2],
    counts: &mut [usize; 3],
    body: &mut [u8; BODY_ROOM],
    marks: &mut [u16; 256],
    cells: &mut [u8; ROOM],
    waiting: &mut [u16; WAIT_ROOM],
    gathered: &mut [u8; GATHER_ROOM],
    b: u8,
    paper: &mut [u8],
    wire: &mut [u8],
) -> Outcome
    ensures { RefinesOnPrinterArrays (λ t. network_call t b) (lent_printer small classes counts body marks cells waiting gathered) (lent paper) (lent wire) result }
{
    printer_calls::prambow_printer_network_byte_arrays(
        small, classes, counts, body, marks, cells, waiting, gathered, b, paper, wire,
    )
}

#[unsafe(no_mangle)]
pub extern "C" fn prambow_printer_network_bytes_arrays(
    small: &mut [u8; 22],
    classes: &mut [u16; 2],
    counts: &mut [usize; 3],
    body: &mut [u8; BODY_ROOM],
    marks: &mut [u16; 256],
    cells: &mut [u8; ROOM],
    waiting: &mut [u16; WAIT_ROOM],
    gathered: &mut [u8; GATHER_ROOM],
    bytes: &[u8],
    paper: &mut [u8],
    wire: &mut [u8],
) -> RunOutcome
    ensures { RefinesRunOnPrinterArrays (network_run (view_printer (decoded_printer (lent_printer small classes counts body marks cells waiting gathered).before)) bytes.now) (lent_printer small classes counts body marks cells waiting gathered) (lent paper) (lent wire) result }
{
    printer_calls::prambow_printer_network_bytes_arrays(
        small, classes, counts, body, marks, cells, waiting, gathered, bytes, paper, wire,
    )
}

#[unsafe(no_mangle)]
pub extern "C" fn prambow_printer_press_arrays(
    small: &mut [u8; 22],
    classes: &mut [u16; 2],
    counts: &mut [usize; 3],
    body: &mut [u8; BODY_ROOM],
    marks: &mut [u16; 256],
    cells: &mut [u8; ROOM],
    waiting: &mut [u16; WAIT_ROOM],
    gathered: &mut [u8; GATHER_ROOM],
    kind: u8,
    b: u8,
    paper: &mut [u8],
    wire: &mut [u8],
) -> Outcome
    ensures { RefinesOnPrinterArrays (λ t. key_call t (key_of_pair kind b)) (lent_printer small classes counts body marks cells waiting gathered) (lent paper) (lent wire) result }
{
    printer_calls::prambow_printer_press_arrays(
        small, classes, counts, body, marks, cells, waiting, gathered, kind, b, paper, wire,
    )
}

#[unsafe(no_mangle)]
pub extern "C" fn prambow_printer_ask_arrays(
    small: &mut [u8; 22],
    classes: &mut [u16; 2],
    counts: &mut [usize; 3],
    body: &mut [u8; BODY_ROOM],
    marks: &mut [u16; 256],
    cells: &mut [u8; ROOM],
    waiting: &mut [u16; WAIT_ROOM],
    gathered: &mut [u8; GATHER_ROOM],
    option: u8,
    way: u8,
    paper: &mut [u8],
    wire: &mut [u8],
) -> Outcome
    ensures { RefinesOnPrinterArrays (λ t. ask_call t option way) (lent_printer small classes counts body marks cells waiting gathered) (lent paper) (lent wire) result }
{
    printer_calls::prambow_printer_ask_arrays(
        small, classes, counts, body, marks, cells, waiting, gathered, option, way, paper, wire,
    )
}

#[unsafe(no_mangle)]
pub extern "C" fn prambow_printer_suggest_arrays(
    small: &mut [u8; 22],
    classes: &mut [u16; 2],
    counts: &mut [usize; 3],
    body: &mut [u8; BODY_ROOM],
    marks: &mut [u16; 256],
    cells: &mut [u8; ROOM],
    waiting: &mut [u16; WAIT_ROOM],
    gathered: &mut [u8; GATHER_ROOM],
    option: u8,
    v: u8,
    paper: &mut [u8],
    wire: &mut [u8],
) -> Outcome
    ensures { RefinesOnPrinterArrays (λ t. suggest_call t option v) (lent_printer small classes counts body marks cells waiting gathered) (lent paper) (lent wire) result }
{
    printer_calls::prambow_printer_suggest_arrays(
        small, classes, counts, body, marks, cells, waiting, gathered, option, v, paper, wire,
    )
}

#[unsafe(no_mangle)]
pub extern "C" fn prambow_printer_report_arrays(small: &[u8; 22]) -> Reported
    ensures { ReportsPrinter small.now result }
{
    printer_calls::prambow_printer_report_arrays(small)
}

#[unsafe(no_mangle)]
pub extern "C" fn prambow_printer_waiting_arrays(counts: &[usize; 3]) -> usize
    ensures { CountsWaiting counts.now result }
{
    printer_calls::prambow_printer_waiting_arrays(counts)
}
