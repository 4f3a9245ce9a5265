// Standard input, read to its end.
#![tactic(auto)]

ghost use Rattle.streams.specs.Counts.{IsPrefixLen};

use std::io;
use std::io::Read;

// How many bytes stand at the start of the buffer, and why a read failed behind them, if one did. No Result: what came before
// a failure is told too.
#[derive(Clone, Copy)]
pub struct Input {
    pub len: usize,
    pub failed: Option<io::Error>,
}

fn read_fails(input: &mut impl Read) -> Option<io::Error> {
    let mut more = [0u8; 1];
    input.read(&mut more).err()
}

// A count short of the buffer is the input's end or a failed read; one more read tells which. A caller whose input has a limit
// lends a byte more than that, so that a longer input is seen to be one.
pub fn read_all(rt: &impl io::Input, buffer: &mut [u8]) -> Input
    ensures { IsPrefixLen result.len buffer.new }
{
    let mut input = rt.reader();
    let len = streams::read_full(&mut input, buffer);
    let failed = if len < buffer.len() {
        read_fails(&mut input)
    } else {
        None
    };
    Input { len, failed }
}
