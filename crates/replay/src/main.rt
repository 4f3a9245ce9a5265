// Reads a tape from standard input and prints what the printer end does with it.
#![tactic(auto)]

use tape_output::TAPE_READ;

fn main(rt: HostRuntime) {
    if streams::arg_count(&rt) > 1 {
        let _ = rt.stderr().write_all(b"usage: replay < TAPE\n");
        return;
    }
    let mut tape = [0u8; TAPE_READ];
    let input = standard_input::read_all(&rt, &mut tape);
    if let Some(error) = input.failed {
        streams::fail(&rt.stderr(), b"standard input", error);
        return;
    }
    if let Err(error) = tape_output::print_tape(&rt, &tape[..input.len]) {
        streams::fail(&rt.stderr(), b"standard output", error);
    }
}
