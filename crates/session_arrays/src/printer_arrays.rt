// The printer end's state in arrays that the host lends: found there, and stored there.
ghost use Rattle.std.specs.Prelude.{◌≡◌};
ghost use Rattle.session_arrays.specs.Numbers.{sides_in, values_in};
ghost use Rattle.session_arrays.specs.PrinterArrays.{
  rcte_in,
  decoded_printer,
  encoded_printer,
  small_of_printer,
  small_in_place,
  printer_outcome,
  arrays_of_printer,
  arrays_in,
  lent_between,
  SameArrays,
  KeepsPrinter,
};

use crate::{Outcome, numbers};
use bodies::Action;
use codes::Code;
use disposition::AllValues;
use negotiation::Sides;
use printer::{Answer, Printer};
use rcte::{GATHER_ROOM, Rcte, WAIT_ROOM};
use reader::{BODY_ROOM, Phase};
use received_macros::{ROOM, Texts};

// The arrays, lent one by one. What stands where is told in `include/prambow.h`.
// A struct for each end: number, sizes and meaning of the arrays differ.
#[derive(Drop)]
pub struct LentPrinterArrays<'a> {
    pub small: &'a mut [u8; 22],
    pub classes: &'a mut [u16; 2],
    pub counts: &'a mut [usize; 3],
    pub body: &'a mut [u8; BODY_ROOM],
    pub marks: &'a mut [u16; 256],
    pub cells: &'a mut [u8; ROOM],
    pub waiting: &'a mut [u16; WAIT_ROOM],
    pub gathered: &'a mut [u8; GATHER_ROOM],
}

pub fn sides_in(small: &[u8; 22]) -> Sides
    ensures { result ≡ sides_in small.now }
{
    numbers::sides_in(small)
}

pub fn values_in(small: &[u8; 22]) -> AllValues
    ensures { result ≡ values_in small.now 14 }
{
    numbers::values_in(small, 14)
}

fn rcte_of(
    small: &[u8; 22],
    classes: &[u16; 2],
    counts: &[usize; 3],
    waiting: &[u16; WAIT_ROOM],
    gathered: &[u8; GATHER_ROOM],
) -> Rcte
    ensures { result ≡ rcte_in small.now classes.now counts.now waiting.now gathered.now }
{
    Rcte {
        held: small[11] != 0,
        action: Action {
            skipbreak: small[12] != 0,
            skiptext: small[13] != 0,
        },
        breaks: classes[0],
        sends: classes[1],
        waiting: *waiting,
        count: counts[1],
        gathered: *gathered,
        filled: counts[2],
    }
}

// The state that the arrays stand for, also where they are lent to look at alone.
pub fn decoded(
    small: &[u8; 22],
    classes: &[u16; 2],
    counts: &[usize; 3],
    body: &[u8; BODY_ROOM],
    marks: &[u16; 256],
    cells: &[u8; ROOM],
    waiting: &[u16; WAIT_ROOM],
    gathered: &[u8; GATHER_ROOM],
) -> Printer
    ensures { result ≡ decoded_printer (arrays_of_printer small.now classes.now counts.now body.now marks.now cells.now waiting.now gathered.now) }
{
    Printer {
        sides: sides_in(small),
        reader: numbers::reader_of(small[9], small[10], counts[0], body),
        table: Texts {
            marks: *marks,
            cells: *cells,
        },
        rcte: rcte_of(small, classes, counts, waiting, gathered),
        values: values_in(small),
    }
}

impl LentPrinterArrays<'_> {
    pub fn decoded(&self) -> Printer
        ensures { result ≡ decoded_printer (arrays_in self.now) }
    {
        // Written out once more: handed on to the function, the state is copied once more. The small arrays are copied first, for the
        // check does not read an element of an array through `&self`.
        let small = *self.small;
        let classes = *self.classes;
        let counts = *self.counts;
        Printer {
            sides: sides_in(self.small),
            reader: numbers::reader_in(self.small, counts[0], self.body),
            table: Texts {
                marks: *self.marks,
                cells: *self.cells,
            },
            rcte: rcte_of(&small, &classes, &counts, self.waiting, self.gathered),
            values: values_in(self.small),
        }
    }

    // Lent, for a state that is passed on by value is copied once more.
    fn put(&mut self, s: &Printer)
        ensures stored { arrays_in self.new ≡ encoded_printer s.now }
        ensures same_arrays { SameArrays self.old self.new }
    {
        *self.small = small_of(s);
        *self.classes = [s.rcte.breaks, s.rcte.sends];
        *self.counts = [s.reader.len, s.rcte.count, s.rcte.filled];
        *self.body = s.reader.body;
        *self.marks = s.table.marks;
        *self.cells = s.table.cells;
        *self.waiting = s.rcte.waiting;
        *self.gathered = s.rcte.gathered;
    }

    pub fn store(&mut self, s: Printer)
        ensures stored { arrays_in self.new ≡ encoded_printer s }
        ensures same_arrays { SameArrays self.old self.new }
    {
        self.put(&s);
    }

    // A call's answer in numbers; its state is stored if it is done, so that a refusal changes nothing.
    pub fn kept(&mut self, a: &Answer) -> Outcome
        ensures keeps { KeepsPrinter a.now (lent_between self.old self.new) result }
        ensures same_arrays { SameArrays self.old self.new }
    {
        let outcome = numbers::outcome(a.code, a.note, a.paper, a.wire);
        if a.code == Code::Done {
            self.put(&a.state);
        }
        outcome
    }
}

impl From<Answer> for Outcome {
    ghost from_gives = { λ a o. o ≡ printer_outcome a };

    fn from(a: Answer) -> Outcome {
        numbers::outcome(a.code, a.note, a.paper, a.wire)
    }
}

fn small_of(s: &Printer) -> [u8; 22]
    ensures { result ≡ small_of_printer s.now }
{
    let mut small = [0; 22];
    small[..10].copy_from_slice(&numbers::sides_and_phase(s.sides, s.reader.phase));
    small[10] = s.reader.marred.into();
    small[11] = s.rcte.held.into();
    small[12] = s.rcte.action.skipbreak.into();
    small[13] = s.rcte.action.skiptext.into();
    small[14..].copy_from_slice(&numbers::value_numbers(s.values));
    small
}

// Stores the option states and the reader's phase alone.
pub fn put_in_place(sides: Sides, phase: Phase, small: &mut [u8; 22])
    ensures { small.new ≡ small_in_place small.old sides phase }
{
    small[..10].copy_from_slice(&numbers::sides_and_phase(sides, phase));
}
