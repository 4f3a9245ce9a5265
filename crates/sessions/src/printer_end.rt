// The printer end's calls and its question on a lent `Printer`. Each contract is that of the call by value, with the record's
// state before the call as the one passed and its state after the call as the one returned. So a refused call leaves the
// record as it was, every byte.
ghost use Rattle.std.specs.Prelude.{◌≡◌};
ghost use Rattle.lists.specs.Buffers.{lent};
ghost use Rattle.disposition.specs.Handled.{reports_of};
ghost use Rattle.printer.specs.Calls.{network_call, key_call, ask_call, suggest_call, dispositions_report};
ghost use Rattle.printer.specs.Refinement.{view_printer};
ghost use Rattle.sessions.specs.Refinement.{RefinesOnPrinter, printer_answer};

use crate::PrinterOutcome;
use disposition::Handlings;
use keys::Key;
use printer::{Answer, Printer, calls};

// What a call answers by value, its state put into the record.
fn kept(s: &mut Printer, a: Answer) -> PrinterOutcome
    ensures { printer_answer result s.new ≡ a }
{
    *s = a.state;
    PrinterOutcome {
        code: a.code,
        note: a.note,
        paper: a.paper,
        wire: a.wire,
    }
}

pub fn network_byte(s: &mut Printer, b: u8, paper: &mut [u8], wire: &mut [u8]) -> PrinterOutcome
    ensures { RefinesOnPrinter (λ t. network_call t b) s (lent paper) (lent wire) result }
{
    let a = calls::network_byte(*s, b, paper, wire);
    kept(s, a)
}

pub fn press(s: &mut Printer, k: Key, paper: &mut [u8], wire: &mut [u8]) -> PrinterOutcome
    ensures { RefinesOnPrinter (λ t. key_call t k) s (lent paper) (lent wire) result }
{
    let a = calls::press(*s, k, paper, wire);
    kept(s, a)
}

pub fn ask(
    s: &mut Printer,
    option: u8,
    way: u8,
    paper: &mut [u8],
    wire: &mut [u8],
) -> PrinterOutcome
    ensures { RefinesOnPrinter (λ t. ask_call t option way) s (lent paper) (lent wire) result }
{
    let a = calls::ask(*s, option, way, paper, wire);
    kept(s, a)
}

pub fn suggest(
    s: &mut Printer,
    option: u8,
    v: u8,
    paper: &mut [u8],
    wire: &mut [u8],
) -> PrinterOutcome
    ensures { RefinesOnPrinter (λ t. suggest_call t option v) s (lent paper) (lent wire) result }
{
    let a = calls::suggest(*s, option, v, paper, wire);
    kept(s, a)
}

// Of each option about output disposition who handles its character, and how.
pub fn report(s: &Printer) -> Handlings
    ensures { reports_of result ≡ dispositions_report (view_printer s.now) }
{
    calls::report(*s)
}
