// The printer end's calls on arrays that the host lends. Each contract is that of the call by value, on the state that the
// arrays stand for. None asks anything of its caller.
ghost use Rattle.std.specs.Prelude.{◌≡◌};
ghost use Rattle.lists.specs.Buffers.{lent};
ghost use Rattle.printer.specs.Calls.{network_call, key_call, ask_call, suggest_call};
ghost use Rattle.printer.specs.Refinement.{fresh_cells, view_printer};
ghost use Rattle.session_arrays.specs.Numbers.{key_of_pair};
ghost use Rattle.session_arrays.specs.PrinterArrays.{lent_printer, decoded_printer, encoded_printer, RefinesOnPrinterArrays, ReportsPrinter, CountsWaiting};
ghost use Rattle.printer.specs.NetworkRun.{network_run};
ghost use Rattle.session_arrays.specs.PrinterRuns.{RefinesRunOnPrinterArrays};

use codes::{Code, Note};
use printer::calls;
use rcte::{GATHER_ROOM, WAIT_ROOM};
use reader::BODY_ROOM;
use received_macros::ROOM;
use session_arrays::printer_arrays::LentPrinterArrays;
use session_arrays::{Outcome, Reported, RunOutcome, numbers, printer_arrays, printer_runs};

pub fn prambow_printer_fresh_arrays(
    small: &mut [u8; 22],
    classes: &mut [u16; 2],
    counts: &mut [usize; 3],
    body: &mut [u8; BODY_ROOM],
    marks: &mut [u16; 256],
    cells: &mut [u8; ROOM],
    waiting: &mut [u16; WAIT_ROOM],
    gathered: &mut [u8; GATHER_ROOM],
)
    ensures { (lent_printer small classes counts body marks cells waiting gathered).after ≡ encoded_printer fresh_cells }
{
    let mut arrays = LentPrinterArrays {
        small,
        classes,
        counts,
        body,
        marks,
        cells,
        waiting,
        gathered,
    };
    arrays.store(calls::fresh());
}

pub fn prambow_printer_network_byte_arrays(
    small: &mut [u8; 22],
    classes: &mut [u16; 2],
    counts: &mut [usize; 3],
    body: &mut [u8; BODY_ROOM],
    marks: &mut [u16; 256],
    cells: &mut [u8; ROOM],
    waiting: &mut [u16; WAIT_ROOM],
    gathered: &mut [u8; GATHER_ROOM],
    b: u8,
    paper: &mut [u8],
    wire: &mut [u8],
) -> Outcome
    ensures { RefinesOnPrinterArrays (λ t. network_call t b) (lent_printer small classes counts body marks cells waiting gathered) (lent paper) (lent wire) result }
{
    let mut arrays = LentPrinterArrays {
        small,
        classes,
        counts,
        body,
        marks,
        cells,
        waiting,
        gathered,
    };
    let a = calls::network_byte(arrays.decoded(), b, paper, wire);
    arrays.kept(&a)
}

// Network bytes one after the other, as `printer::calls::network_bytes` reads them. Stops before one that would be refused, and
// behind one that gave a note. One plain byte needs no loop.
pub fn prambow_printer_network_bytes_arrays(
    small: &mut [u8; 22],
    classes: &mut [u16; 2],
    counts: &mut [usize; 3],
    body: &mut [u8; BODY_ROOM],
    marks: &mut [u16; 256],
    cells: &mut [u8; ROOM],
    waiting: &mut [u16; WAIT_ROOM],
    gathered: &mut [u8; GATHER_ROOM],
    bytes: &[u8],
    paper: &mut [u8],
    wire: &mut [u8],
) -> RunOutcome
    ensures { RefinesRunOnPrinterArrays (network_run (view_printer (decoded_printer (lent_printer small classes counts body marks cells waiting gathered).before)) bytes.now) (lent_printer small classes counts body marks cells waiting gathered) (lent paper) (lent wire) result }
{
    if reader::cannot_begin(bytes.len(), paper.len(), wire.len()) {
        return numbers::run_outcome(Code::NoRoom, Note::Clear, 0, 0, 0);
    }
    if bytes.len() == 1 {
        let b = bytes[0];
        if printer_runs::is_plain(small, marks, b) {
            paper[0] = b;
            return numbers::run_outcome(Code::Done, Note::Clear, 1, 1, 0);
        }
    }
    let mut arrays = LentPrinterArrays {
        small,
        classes,
        counts,
        body,
        marks,
        cells,
        waiting,
        gathered,
    };
    arrays.read_bytes(bytes, paper, wire)
}

// The key is a pair of numbers; one that stands for no key is refused with code 3.
pub fn prambow_printer_press_arrays(
    small: &mut [u8; 22],
    classes: &mut [u16; 2],
    counts: &mut [usize; 3],
    body: &mut [u8; BODY_ROOM],
    marks: &mut [u16; 256],
    cells: &mut [u8; ROOM],
    waiting: &mut [u16; WAIT_ROOM],
    gathered: &mut [u8; GATHER_ROOM],
    kind: u8,
    b: u8,
    paper: &mut [u8],
    wire: &mut [u8],
) -> Outcome
    ensures { RefinesOnPrinterArrays (λ t. key_call t (key_of_pair kind b)) (lent_printer small classes counts body marks cells waiting gathered) (lent paper) (lent wire) result }
{
    let mut arrays = LentPrinterArrays {
        small,
        classes,
        counts,
        body,
        marks,
        cells,
        waiting,
        gathered,
    };
    let a = calls::press(arrays.decoded(), numbers::key_of_pair(kind, b), paper, wire);
    arrays.kept(&a)
}

pub fn prambow_printer_ask_arrays(
    small: &mut [u8; 22],
    classes: &mut [u16; 2],
    counts: &mut [usize; 3],
    body: &mut [u8; BODY_ROOM],
    marks: &mut [u16; 256],
    cells: &mut [u8; ROOM],
    waiting: &mut [u16; WAIT_ROOM],
    gathered: &mut [u8; GATHER_ROOM],
    option: u8,
    way: u8,
    paper: &mut [u8],
    wire: &mut [u8],
) -> Outcome
    ensures { RefinesOnPrinterArrays (λ t. ask_call t option way) (lent_printer small classes counts body marks cells waiting gathered) (lent paper) (lent wire) result }
{
    let mut arrays = LentPrinterArrays {
        small,
        classes,
        counts,
        body,
        marks,
        cells,
        waiting,
        gathered,
    };
    let a = calls::ask(arrays.decoded(), option, way, paper, wire);
    arrays.kept(&a)
}

pub fn prambow_printer_suggest_arrays(
    small: &mut [u8; 22],
    classes: &mut [u16; 2],
    counts: &mut [usize; 3],
    body: &mut [u8; BODY_ROOM],
    marks: &mut [u16; 256],
    cells: &mut [u8; ROOM],
    waiting: &mut [u16; WAIT_ROOM],
    gathered: &mut [u8; GATHER_ROOM],
    option: u8,
    v: u8,
    paper: &mut [u8],
    wire: &mut [u8],
) -> Outcome
    ensures { RefinesOnPrinterArrays (λ t. suggest_call t option v) (lent_printer small classes counts body marks cells waiting gathered) (lent paper) (lent wire) result }
{
    let mut arrays = LentPrinterArrays {
        small,
        classes,
        counts,
        body,
        marks,
        cells,
        waiting,
        gathered,
    };
    let a = calls::suggest(arrays.decoded(), option, v, paper, wire);
    arrays.kept(&a)
}

// Of each option about output disposition who handles its character, and how. It looks at the small parts alone.
pub fn prambow_printer_report_arrays(small: &[u8; 22]) -> Reported
    ensures { ReportsPrinter small.now result }
{
    disposition::handlings_in(
        printer_arrays::sides_in(small),
        printer_arrays::values_in(small),
    )
    .into()
}

// How many keys wait. It looks at the counts alone.
pub fn prambow_printer_waiting_arrays(counts: &[usize; 3]) -> usize
    ensures { CountsWaiting counts.now result }
{
    counts[1].min(WAIT_ROOM)
}
