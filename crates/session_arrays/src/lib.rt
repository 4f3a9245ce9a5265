// A session's state as arrays of numbers that a host lends: found there, stored there, and bytes read on it. No enum and no struct that
// holds one crosses to C; what crosses is numbers.
#![tactic(auto)]

pub mod bulletin_arrays;
pub mod bulletin_runs;
pub mod numbers;
pub mod printer_arrays;
pub mod printer_runs;

// An answer in numbers: the code, the note, how many bytes went to the paper or the host, and how many to the wire.
#[repr(C)]
#[derive(Clone, Copy)]
pub struct Outcome {
    pub code: u32,
    pub note: u32,
    pub first: usize,
    pub wire: usize,
}

// The answer of a run of network bytes in numbers: an outcome with how many bytes were taken.
#[repr(C)]
#[derive(Clone, Copy)]
pub struct RunOutcome {
    pub code: u32,
    pub note: u32,
    pub taken: usize,
    pub first: usize,
    pub wire: usize,
}

// Who handles the character of an option about output disposition, 0 the receiver and 1 the sender, and by which value.
#[repr(C)]
#[derive(Clone, Copy)]
pub struct Handler {
    pub who: u8,
    pub value: u8,
}

// A report in numbers.
#[repr(C)]
#[derive(Clone, Copy)]
pub struct Reported {
    pub naocrd: Handler,
    pub naolfd: Handler,
    pub naoffd: Handler,
    pub naohtd: Handler,
}

// How a macro byte stands in numbers: the status of its last DEFINE, the issue that this kept, and the issue in force.
#[repr(C)]
#[derive(Clone, Copy)]
pub struct StandingNumbers {
    pub status: u8,
    pub kept: u16,
    pub present: u16,
}
