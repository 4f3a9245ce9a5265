// Replays each tape that an argument names: its name on a line, and its lines.
#![tactic(auto)]

use std::io::Read;
use tape_output::TAPE_READ;

fn print_file(rt: &HostRuntime, file: &mut impl Read) {
    let mut tape = [0u8; TAPE_READ];
    let n = streams::read_full(file, &mut tape);
    if let Err(error) = tape_output::print_tape(rt, &tape[..n]) {
        streams::fail(&rt.stderr(), b"standard output", error);
    }
}

fn print_named(rt: &HostRuntime, i: usize) {
    let mut room = [0u8; 65536];
    let Some((path, mut file)) = streams::open_named(rt, &rt.stderr(), i, &mut room) else {
        return;
    };
    let _ = rt.write_all(path);
    let _ = rt.write_all(b"\n");
    print_file(rt, &mut file);
}

fn main(rt: HostRuntime) {
    for i in 1..streams::arg_count(&rt) {
        print_named(&rt, i);
    }
}
