// A tape's lines on standard output.
#![tactic(auto)]

ghost use Rattle.std.specs.Prelude.{◌≡◌, false, ◌<◌, IfOk};
ghost use Rattle.tape.specs.Refinement.Steps.{is_over, ahead};

use std::io;
use tape::{Machine, running};

// How much of a tape is read: one byte more than a tape may have, so that a longer one is seen to be one.
pub const TAPE_READ: usize = 65537;

// The size of the output buffer: some lines, however long.
const OUTPUT: usize = 16384;

// The lines that fit the output buffer once, and the run after them.
fn print_some(
    rt: &impl Print,
    tape: &[u8],
    m: Machine,
    out: &mut [u8; OUTPUT],
) -> io::Result<Machine>
    ensures { IfOk result (λ next. is_over m.place ≡ false → ahead tape.now next.place < ahead tape.now m.place) }
{
    let step = running::run(tape, m, out);
    rt.write_all(&out[..step.written])?;
    Ok(step.machine)
}

// All lines, as long as they can be written.
fn print_all(rt: &impl Print, tape: &[u8], out: &mut [u8; OUTPUT]) -> io::Result<()> {
    // the step is what a run printed, so there is nothing that a `for` could go over
    let mut machine = running::begin();
    while !running::is_over(machine.place) {
        machine = print_some(rt, tape, machine, out)?;
    }
    Ok(())
}

// The error where the output failed. The output buffer is this function's own.
pub fn print_tape(rt: &impl Print, tape: &[u8]) -> io::Result<()> {
    let mut out = [0u8; OUTPUT];
    print_all(rt, tape, &mut out)
}
