// Reads a capture from standard input and mends it: the mended capture goes to standard output, a line for each drop to
// standard error. One byte more than a capture may have is read, so that a longer one is seen to be one.
#![tactic(auto)]

use mending::{CAPTURE_ROOM, LIST_ROOM};
use std::io;

// The error where the output failed. Drops are told only where the mended capture could be written.
fn print_mended(rt: &impl Print, drops: &impl Print, capture: &[u8]) -> io::Result<()> {
    let mut out = [0u8; CAPTURE_ROOM];
    let mut list = [0u8; LIST_ROOM];
    let answer = mending::mend(capture, &mut out, &mut list);
    rt.write_all(&out[..answer.written])?;
    let _ = drops.write_all(&list[..answer.listed]);
    Ok(())
}

fn main(rt: HostRuntime) {
    if streams::arg_count(&rt) > 1 {
        let _ = rt
            .stderr()
            .write_all(b"usage: mend < CAPTURE > MENDED 2> DROPS\n");
        return;
    }
    let mut capture = [0u8; CAPTURE_ROOM + 1];
    let input = standard_input::read_all(&rt, &mut capture);
    if let Some(error) = input.failed {
        streams::fail(&rt.stderr(), b"standard input", error);
        return;
    }
    if let Err(error) = print_mended(&rt, &rt.stderr(), &capture[..input.len]) {
        streams::fail(&rt.stderr(), b"standard output", error);
    }
}
