// Makes as many calls of the printer end as the first argument says, to be timed from outside. The second argument's
// first letter says which: n network bytes, b runs of 65,536 of them, u the same with a macro defined, m a macro's byte, k
// keys sent at once, r keys under RCTE, w commands of RCTE that take up 256 keys, a asks; without one each in turn.
#![tactic(auto)]

use keys::Key;
use printer::{Printer, calls};
use std::env::Env;

#[derive(Clone, Copy)]
enum Kind {
    NetworkBytes,
    Runs,
    UnmarkedRuns,
    Macros,
    Keys,
    RcteKeys,
    Commands,
    Asks,
}

const ALL: [Kind; 8] = [
    Kind::NetworkBytes,
    Kind::Runs,
    Kind::UnmarkedRuns,
    Kind::Macros,
    Kind::Keys,
    Kind::RcteKeys,
    Kind::Commands,
    Kind::Asks,
];

// No TryFrom: there is nothing to tell of a letter that is none.
fn kind_of(letter: u8) -> Option<Kind> {
    match letter {
        b'n' => Some(Kind::NetworkBytes),
        b'b' => Some(Kind::Runs),
        b'u' => Some(Kind::UnmarkedRuns),
        b'm' => Some(Kind::Macros),
        b'k' => Some(Kind::Keys),
        b'r' => Some(Kind::RcteKeys),
        b'w' => Some(Kind::Commands),
        b'a' => Some(Kind::Asks),
        _ => None,
    }
}

// Makes the calls, each told its number. The bytes that they wrote, on paper and on the wire, are added up and printed, so
// that no call can be left out as unused.
fn make<F: FnMut(usize) -> (usize, usize)>(rt: &impl Print, what: &str, times: usize, mut call: F)
    requires { F.IsAlwaysCallable call }
{
    let mut sum: u64 = 0;
    for i in 0..times {
        let (paper, wire) = call(i);
        sum = sum.wrapping_add(paper as u64).wrapping_add(wire as u64);
    }
    let _ = println!(rt; "{what}: {times} calls, {sum} bytes written");
}

// The state after those bytes from the network. The program's own argument is among them, so that the compiler cannot
// know the state and work a call out beforehand.
fn heard(mut state: Printer, bytes: &[u8]) -> Printer {
    let mut paper = [0u8; 1024];
    let mut wire = [0u8; 4096];
    for b in bytes {
        state = calls::network_byte(state, *b, &mut paper, &mut wire).state;
    }
    state
}

// A letter for each turn.
fn letter(i: usize) -> u8 {
    b'a' + (i % 26) as u8
}

// Ordinary data, with no option in force.
fn run_network_bytes(rt: &impl Print, mut state: Printer, times: usize) {
    let mut paper = [0u8; 1024];
    let mut wire = [0u8; 4096];
    make(rt, "network bytes", times, |i| {
        let a = calls::network_byte(state, letter(i), &mut paper, &mut wire);
        state = a.state;
        (a.paper, a.wire)
    });
}

// The same bytes as a run, again and again. All kinds of runs make their calls here, so that the call is compiled into the loop.
fn run_runs(
    rt: &impl Print,
    what: &str,
    mut state: Printer,
    bytes: &[u8],
    times: usize,
    paper: &mut [u8],
) {
    let mut wire = [0u8; 4096];
    make(rt, what, times, |_| {
        let a = calls::network_bytes(state, bytes, paper, &mut wire);
        state = a.state;
        (a.paper, a.wire)
    });
}

// Plain text, each run in a buffer that takes all of it.
fn run_text(rt: &impl Print, what: &str, s: Printer, times: usize) {
    run_runs(rt, what, s, &[b'e'; 65536], times, &mut [0u8; 66560]);
}

// BM in force, and byte 128 defined as 200 letters.
fn with_macro(s: Printer) -> Printer {
    let mut define = [b'e'; 208];
    define[..6].copy_from_slice(&[255, 250, 19, 1, 128, 200]);
    define[206..].copy_from_slice(&[255, 240]);
    heard(heard(s, &[255, 251, 19]), &define)
}

fn run_keys(rt: &impl Print, mut state: Printer, times: usize, what: &str) {
    let mut paper = [0u8; 1024];
    let mut wire = [0u8; 4096];
    make(rt, what, times, |i| {
        let a = calls::press(state, Key::Char(letter(i)), &mut paper, &mut wire);
        state = a.state;
        (a.paper, a.wire)
    });
}

// RCTE in force and nothing held: keys are printed and gathered.
fn run_rcte_keys(rt: &impl Print, s: Printer, times: usize) {
    let t = heard(s, &[255, 251, 7, 255, 250, 7, 1, 255, 240]);
    run_keys(rt, t, times, "keys under RCTE");
}

// 256 keys that wait.
fn with_waiting(mut state: Printer) -> Printer {
    let mut paper = [0u8; 1024];
    let mut wire = [0u8; 4096];
    for i in 0..256 {
        state = calls::press(state, Key::Char(letter(i)), &mut paper, &mut wire).state;
    }
    state
}

// The last byte of RCTE's command that ends the hold, each time on the same state, in which 256 keys wait.
fn run_commands(rt: &impl Print, s: Printer, times: usize) {
    let held = with_waiting(heard(s, &[255, 251, 7]));
    let state = heard(held, &[255, 250, 7, 1, 255]);
    let mut paper = [0u8; 1024];
    let mut wire = [0u8; 4096];
    make(rt, "commands with 256 keys", times, |_| {
        let a = calls::network_byte(state, 240, &mut paper, &mut wire);
        (a.paper, a.wire)
    });
}

// Asks to enable and to disable his SGA in turn. The first sends a request that stays without a reply; the others only
// change what is queued behind it.
fn run_asks(rt: &impl Print, mut state: Printer, times: usize) {
    let mut paper = [0u8; 1024];
    let mut wire = [0u8; 4096];
    make(rt, "asks", times, |i| {
        let way = if i % 2 == 0 { 1 } else { 0 };
        let a = calls::ask(state, 3, way, &mut paper, &mut wire);
        state = a.state;
        (a.paper, a.wire)
    });
}

fn run(rt: &impl Print, s: Printer, times: usize, kind: Kind) {
    // a match on the kind: each has other arguments
    match kind {
        Kind::NetworkBytes => run_network_bytes(rt, s, times),
        Kind::Runs => run_text(rt, "runs of network bytes", s, times),
        Kind::UnmarkedRuns => run_text(rt, "runs with a macro defined", with_macro(s), times),
        Kind::Macros => run_runs(rt, "macros", with_macro(s), &[128], times, &mut [0u8; 1024]),
        Kind::Keys => run_keys(rt, s, times, "keys"),
        Kind::RcteKeys => run_rcte_keys(rt, s, times),
        Kind::Commands => run_commands(rt, s, times),
        Kind::Asks => run_asks(rt, s, times),
    }
}

// A decimal number up to its first byte that is no digit; nine digits are enough. By hand: `parse` takes a
// whole text, and knows no limit of nine digits.
fn number(text: &[u8]) -> usize {
    let mut n: usize = 0;
    for b in text {
        if !b.is_ascii_digit() || n > 99_999_999 {
            return n;
        }
        n = n * 10 + (*b - b'0') as usize;
    }
    n
}

fn kind_asked(rt: &impl Env) -> Option<Kind> {
    let mut text = [0u8; 16];
    let _ = streams::arg(rt, 2, &mut text);
    kind_of(text[0])
}

fn main(rt: HostRuntime) {
    let mut text = [0u8; 16];
    let n = streams::arg(&rt, 1, &mut text).unwrap_or(0);
    let times = number(&text[..n]);
    let s = heard(calls::fresh(), &text[..n]);
    match kind_asked(&rt) {
        Some(kind) => run(&rt, s, times, kind),
        None => {
            for kind in ALL {
                run(&rt, s, times, kind);
            }
        }
    }
}
