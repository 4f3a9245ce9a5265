// A network byte: read as it stands, or replaced by a macro's text.
ghost use Rattle.std.specs.Prelude.{◌≡◌};
ghost use Rattle.lists.specs.Buffers.{lent, RoomFor};
ghost use Rattle.printer.specs.State.{nothing};
ghost use Rattle.printer.specs.Network.{after_data, data_read, item_read, byte_read, bytes_read, entry_read, network_read};
ghost use Rattle.received_macros.specs.Texts.{entry_of};
ghost use Rattle.printer.specs.Refinement.{view_printer, RefinesStep, RefinesState, RefinesStepOnPaper, is_ordinary};

use crate::{Printer, Step, body, in_place, moves};
use codes::Note;
use negotiation::{End, Sides};
use rcte::Rcte;
use reader::{Item, Phase};

// Data that is printed and changes nothing: the state is then handed on without a copy of any part.
pub fn is_ordinary(sides: Sides, phase: Phase, b: u8) -> bool
    ensures { result ≡ is_ordinary sides phase b }
{
    !negotiation::macros_in_force(End::Printer, sides)
        && !negotiation::rcte_in_force(sides)
        && reader::is_data(phase, b)
}

// Under RCTE data holds.
fn after_data(s: Printer) -> Printer
    ensures { RefinesState (nothing (after_data (view_printer s))) s result }
{
    if !negotiation::rcte_in_force(s.sides) {
        return s;
    }
    Printer {
        rcte: Rcte {
            held: true,
            ..s.rcte
        },
        ..s
    }
}

// Data is printed as it is; under RCTE it then holds.
#[tactic(auto, unfolding(crate::specs::Network::data_read))]
pub fn data_read(s: Printer, b: u8, paper: &mut [u8]) -> Step
    requires { RoomFor (data_read (view_printer s) b).paper paper.old }
    ensures { RefinesStepOnPaper (data_read (view_printer s) b) s (lent paper) result }
{
    paper[0] = b;
    Step {
        note: Note::Clear,
        paper: 1,
        wire: 0,
        state: after_data(s),
    }
}

// What a byte completed.
fn item_read(s: Printer, item: Item, paper: &mut [u8], wire: &mut [u8]) -> Step
    requires room_for { RoomFor (item_read (view_printer s) item).paper paper.old }
    requires room_for_2 { RoomFor (item_read (view_printer s) item).wire wire.old }
    ensures { RefinesStep (item_read (view_printer s) item) s (lent paper) (lent wire) result }
{
    match item {
        Item::Nothing => Step::notes(Note::Clear, s),
        Item::Data(b) => data_read(s, b, paper),
        Item::Negotiated(v, option) => moves::negotiated(s, v, option, paper, wire),
        Item::BodyEnd => body::body_read(s, paper, wire),
        Item::StrayCommand => Step::notes(Note::Stray, s),
    }
}

// A byte read as it stands. One that is data leaves the reader as it is, so that the state is not copied for it.
pub fn byte_read(s: Printer, b: u8, paper: &mut [u8], wire: &mut [u8]) -> Step
    requires room_for { RoomFor (byte_read (view_printer s) b).paper paper.old }
    requires room_for_2 { RoomFor (byte_read (view_printer s) b).wire wire.old }
    ensures { RefinesStep (byte_read (view_printer s) b) s (lent paper) (lent wire) result }
{
    if reader::is_data(s.reader.phase, b) {
        return data_read(s, b, paper);
    }
    let read = reader::read_byte(s.reader, b);
    let t = Printer {
        reader: read.reader,
        ..s
    };
    item_read(t, read.item, paper, wire)
}

// The bytes of a macro's text, in reading order; the first note is kept. A plain stretch is printed by one copy: a turn takes
// a byte or as many as that came to, so there is nothing that a `for` could go over.
fn text_read(s: Printer, bytes: &[u8], paper: &mut [u8], wire: &mut [u8]) -> Step
    requires room_for { RoomFor (bytes_read (view_printer s) bytes.now).paper paper.old }
    requires room_for_2 { RoomFor (bytes_read (view_printer s) bytes.now).wire wire.old }
    ensures { RefinesStep (bytes_read (view_printer s) bytes.now) s (lent paper) (lent wire) result }
{
    let mut done = Step::notes(Note::Clear, s);
    let mut rest = bytes;
    while !rest.is_empty() {
        let n = done.state.parts().text_stretch(rest);
        if n > 0 {
            done.paper += wire::put_bytes(&rest[..n], &mut paper[done.paper..]);
            rest = &rest[n..];
            continue;
        }
        let step = byte_read(
            done.state,
            rest[0],
            &mut paper[done.paper..],
            &mut wire[done.wire..],
        );
        rest = &rest[1..];
        done = Step {
            note: codes::first_note(done.note, step.note),
            paper: done.paper + step.paper,
            wire: done.wire + step.wire,
            state: step.state,
        };
    }
    done
}

// A byte that has a mark; BM is in force and no command is being read. A text that is plain throughout is printed from where it lies.
fn marked_read(s: Printer, b: u8, paper: &mut [u8], wire: &mut [u8]) -> Step
    requires room_for { RoomFor (entry_read (view_printer s) b (entry_of (view_printer s).table b)).paper paper.old }
    requires room_for_2 { RoomFor (entry_read (view_printer s) b (entry_of (view_printer s).table b)).wire wire.old }
    ensures { RefinesStep (entry_read (view_printer s) b (entry_of (view_printer s).table b)) s (lent paper) (lent wire) result }
{
    let Some(text) = received_macros::text_in(&s.table.marks, &s.table.cells, b) else {
        return byte_read(s, b, paper, wire);
    };
    match in_place::text_read(s.parts(), text, paper) {
        Some(printed) => Step {
            note: Note::Clear,
            paper: printed.paper,
            wire: printed.wire,
            state: s,
        },
        None => text_read(s, text, paper, wire),
    }
}

// A defined byte stands for its text if BM is in force and no command is being read.
pub fn network_read(s: Printer, b: u8, paper: &mut [u8], wire: &mut [u8]) -> Step
    requires room_for { RoomFor (network_read (view_printer s) b).paper paper.old }
    requires room_for_2 { RoomFor (network_read (view_printer s) b).wire wire.old }
    ensures { RefinesStep (network_read (view_printer s) b) s (lent paper) (lent wire) result }
{
    if in_place::may_replace(s.parts(), &s.table.marks, b) {
        return marked_read(s, b, paper, wire);
    }
    byte_read(s, b, paper, wire)
}
