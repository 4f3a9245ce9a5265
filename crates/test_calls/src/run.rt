// Where the run of a list is: both ends, and the lines so far.
ghost use Rattle.std.specs.Prelude.{◌≤◌, length};

use crate::answers::{End, Made, Shown};
use bulletin::Bulletin;
use printer::Printer;

// The buffers that are lent where a list says nothing.
pub const PAPER_ROOM: usize = 4096;

pub const WIRE_ROOM: usize = 8192;

// What goes with each call: how large a buffer is lent to it, and its line among the lines of calls of this example.
#[derive(Clone, Copy)]
pub struct Setting {
    pub paper: usize,
    pub wire: usize,
    pub line: usize,
}

// An end, once by value and once as the calls on lent records leave it.
#[derive(Clone, Copy)]
pub struct Both<S> {
    pub by_value: S,
    pub on_record: S,
}

impl<S: End> Both<S> {
    fn of(state: S) -> Both<S> {
        Both {
            by_value: state,
            on_record: state,
        }
    }

    // Makes a call on both. The line of its answer is printed, and of that on the record too where it is another.
    pub fn call<A, F, G>(
        &mut self,
        rt: &impl Print,
        setting: Setting,
        call: usize,
        by_value: F,
        on_record: G,
    )
    where
        A: Into<Made<S>>,
        F: FnOnce(S, &mut [u8], &mut [u8]) -> A,
        G: FnOnce(S, &mut [u8], &mut [u8]) -> A,
        requires first { F.IsAlwaysCallable by_value }
        requires second { G.IsAlwaysCallable on_record }
    {
        let p = setting.paper.min(PAPER_ROOM);
        let w = setting.wire.min(WIRE_ROOM);
        let line = setting.line;
        let mut first = [0u8; PAPER_ROOM];
        let mut wire = [0u8; WIRE_ROOM];
        let a: Made<S> = by_value(self.by_value, &mut first[..p], &mut wire[..w]).into();
        if !a.numbers.shows_nothing(self.by_value.waiting()) {
            let shown = Shown {
                numbers: a.numbers,
                first: &first,
                wire: &wire,
            };
            let _ = println!(rt; "{line}.{call} {shown}");
        }
        let mut own_first = [0u8; PAPER_ROOM];
        let mut own_wire = [0u8; WIRE_ROOM];
        let b: Made<S> = on_record(self.on_record, &mut own_first[..p], &mut own_wire[..w]).into();
        if a.numbers != b.numbers || first != own_first || wire != own_wire {
            let shown = Shown {
                numbers: b.numbers,
                first: &own_first,
                wire: &own_wire,
            };
            let _ = println!(rt; "{line}.{call} on a lent record otherwise: {shown}");
        }
        *self = Both {
            by_value: a.state,
            on_record: b.state,
        };
    }
}

#[derive(Clone, Copy)]
pub struct Run {
    pub printer: Both<Printer>,
    pub bulletin: Both<Bulletin>,
    pub setting: Setting,
    // whether there was a call at all
    pub called: bool,
}

impl Run {
    pub fn begin() -> Run {
        Run {
            printer: Both::of(printer::calls::fresh()),
            bulletin: Both::of(bulletin::calls::fresh()),
            setting: Setting {
                paper: PAPER_ROOM,
                wire: WIRE_ROOM,
                line: 0,
            },
            called: false,
        }
    }

    // A line of calls begins.
    pub fn next_line(&mut self) {
        self.setting.line = self.setting.line.wrapping_add(1);
        self.called = true;
    }
}
