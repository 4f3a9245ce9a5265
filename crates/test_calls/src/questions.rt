// The answers in words to the questions about an end.
use bulletin::{Output, Standing};
use disposition::{Handling, Handlings};
use sent_macros::Status;
use std::fmt;
use std::fmt::Display;

#[derive(Clone, Copy)]
struct Told(Handling);

impl Display for Told {
    fn fmt<W: fmt::Write>(&self, f: &mut fmt::Formatter<W>) -> fmt::Result {
        match self.0 {
            Handling::Sender(n) => write!(f, "sender {n}"),
            Handling::Receiver(n) => write!(f, "receiver {n}"),
        }
    }
}

// Of each option, in the order of codes/Dispositions.
pub fn report(rt: &impl Print, line: usize, h: Handlings) {
    let _ = println!(rt;
        "{line}.1 {} {} {} {}",
        Told(h.naocrd),
        Told(h.naolfd),
        Told(h.naoffd),
        Told(h.naohtd)
    );
}

fn status_word(s: Status) -> &'static str {
    match s {
        Status::Free => "free",
        Status::Pending => "pending",
        Status::PendingFree => "pending as itself",
        Status::Accepted => "accepted",
        Status::Refused => "refused",
    }
}

// The status, the issue that the definition kept, and the issue in force.
pub fn standing(rt: &impl Print, line: usize, s: Standing) {
    let _ = println!(rt;
        "{line}.1 {} {} {}",
        status_word(s.status),
        s.kept,
        s.present
    );
}

pub fn output(rt: &impl Print, line: usize, o: Output) {
    let word = match o {
        Output::Ready => "ready",
        Output::Waiting => "waiting",
    };
    let _ = println!(rt; "{line}.1 {word}");
}
