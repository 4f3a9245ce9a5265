// The printer end's calls for a caller that keeps the state by value: each lends the state that it was given to the call on a lent
// one, and answers with what that leaves. No generic function over the calls: each is public, with the contract of the call by value.
ghost use Rattle.lists.specs.Buffers.{lent};
ghost use Rattle.printer.specs.Calls.{network_call, key_call};
ghost use Rattle.printer.specs.Refinement.{view_printer, RefinesAnswer};

use crate::printer_end;
use keys::Key;
use printer::{Answer, Printer};

pub fn network_byte(mut s: Printer, b: u8, paper: &mut [u8], wire: &mut [u8]) -> Answer
    ensures { RefinesAnswer (network_call (view_printer s) b) s (lent paper) (lent wire) result }
{
    let o = printer_end::network_byte(&mut s, b, paper, wire);
    o.with(s)
}

pub fn press(mut s: Printer, k: Key, paper: &mut [u8], wire: &mut [u8]) -> Answer
    ensures { RefinesAnswer (key_call (view_printer s) k) s (lent paper) (lent wire) result }
{
    let o = printer_end::press(&mut s, k, paper, wire);
    o.with(s)
}
