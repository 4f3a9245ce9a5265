// Makes the calls of each list that an argument names and prints their answers: once on ends by value and once on lent
// records, with a line more where the second answers otherwise. docs/CALLS.md says what stands in a list and in the answers.
#![tactic(auto)]

mod answers;
mod bad_line;
mod bulletin_end;
mod hex;
mod line;
mod printer_end;
mod questions;
mod run;
mod words;

use std::io::Read;

// A longer list is not run.
const LIST_ROOM: usize = 65536;

fn run_file(rt: &impl Print, file: &mut impl Read) {
    let mut text = [0u8; LIST_ROOM];
    let n = streams::read_full(file, &mut text);
    if n < LIST_ROOM {
        line::run_list(rt, &text[..n]);
    } else {
        let _ = println!(rt; "a list is shorter than 65,536 bytes");
    }
}

fn run_named(rt: &HostRuntime, i: usize) {
    let mut room = [0u8; 65536];
    if let Some((_, mut file)) = streams::open_named(rt, &rt.stderr(), i, &mut room) {
        run_file(rt, &mut file);
    }
}

fn main(rt: HostRuntime) {
    for i in 1..streams::arg_count(&rt) {
        run_named(&rt, i);
    }
}
