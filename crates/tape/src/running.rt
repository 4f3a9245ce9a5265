// Running a tape: one step looks up the next field, or does one item.
ghost use Rattle.std.specs.Prelude.{◌≡◌, ◌+◌, ◌-◌, ◌^◌, ◌≤◌, ◌<◌, cond, ltb, length};
ghost use Rattle.lists.specs.Buffers.{lent};
ghost use Rattle.tape.specs.Whole.{line_room};
ghost use Rattle.tape.specs.Fields.{found_at, kind_of};
ghost use Rattle.tape.specs.Lines.{bad_tape};
ghost use Rattle.tape.specs.Refinement.Steps.{width, is_over, is_too_long, at_tape_end, past_item, goes, item_step, first_item, field_step, stepped};
ghost use Rattle.tape.specs.Refinement.ManySteps.{ran_for};
ghost use Rattle.tape.specs.Refinement.Machine.{view_machine, RefinesProgress, RefinesRun, start_cells};

use super::{Field, Item, Machine, Place, Stepped, Tag, fields, items, lines, scanning};
use codes::{PAPER_ROOM, WIRE_ROOM};
use printer::calls;

// The sizes of the buffers that are lent.
const PAPER: usize = 4096;

const WIRE: usize = 16384;

// The buffers that items are lent. What an earlier item wrote there is read by none.
#[derive(Drop)]
struct Buffers {
    paper: [u8; PAPER],
    wire: [u8; WIRE],
}

// A longer tape is not read.
const TAPE: usize = 65536;

// The most that a line can be.
const LINE: usize = 10260;

// Whether nothing is left to run.
#[tactic(auto, unfolding(crate::specs::Refinement::Steps::is_over))]
pub fn is_over(p: Place) -> bool
    ensures { result ≡ is_over p }
{
    p.over || p.next < p.field || p.at < p.item
}

// What the items are at a place. A place has the tag as a number, and a host may put any there: one that no field has counts as
// that of asks.
fn kind_of(tag: u8) -> Tag
    ensures { result ≡ kind_of tag }
{
    match tag {
        1 => Tag::Network,
        2 => Tag::Keys,
        _ => Tag::Asks,
    }
}

// How many bytes an item takes up.
fn width(tag: Tag) -> usize
    ensures { result ≡ width tag }
{
    match tag {
        Tag::Network => 1,
        Tag::Keys | Tag::Asks => 2,
    }
}

// How much of a buffer is used before the next item: none, where it is lent afresh.
fn used_for(used: usize, size: usize, room: usize) -> usize
    requires { (1 ≤ room) × (room ≤ size) }
    ensures { (size - result ≡ cond (ltb (size - used) room) size (size - used)) × (result + room ≤ size) }
{
    if used <= size - room { used } else { 0 }
}

fn stopped(m: Machine) -> Machine
    ensures { result ≡ record m { place = at_tape_end m.place } }
{
    let place = Place {
        over: true,
        ..m.place
    };
    Machine { place, ..m }
}

// The place behind an item.
fn past_item(p: Place) -> Place
    requires item_fits { p.item + 1 < 2 ^ 64 }
    requires at_fits { p.at + width (kind_of p.tag) < 2 ^ 64 }
    requires enough_left { width (kind_of p.tag) ≤ p.left }
    ensures { result ≡ past_item p }
{
    let n = width(kind_of(p.tag));
    Place {
        item: p.item + 1,
        at: p.at + n,
        left: p.left - n,
        over: false,
        ..p
    }
}

// One item: its buffers are the unused tails of the lent ones.
fn one_item(m: Machine, after: Place, item: Item, buffers: &mut Buffers, out: &mut [u8]) -> Stepped
    requires { line_room ≤ length out.old }
    ensures { RefinesProgress (item_step (view_machine m) after item) m (lent out) result }
{
    let p = used_for(m.paper, PAPER, PAPER_ROOM);
    let w = used_for(m.wire, WIRE, WIRE_ROOM);
    let shown = items::put_item(
        m.printer,
        m.place,
        item,
        &mut buffers.paper[p..],
        &mut buffers.wire[w..],
        out,
    );
    Stepped {
        written: shown.written,
        machine: Machine {
            printer: shown.state,
            paper: p + shown.paper,
            wire: w + shown.wire,
            place: after,
        },
    }
}

// A run in front of a field's first item.
fn entered(m: Machine, number: usize, field: Field) -> Machine
    ensures { result ≡ record m { place = first_item number field } }
{
    let place = Place {
        field: number,
        item: 1,
        tag: field.tag.into(),
        at: field.start,
        left: field.size,
        next: field.next.at,
        over: false,
    };
    Machine { place, ..m }
}

// The next field, the end, or a bad field, which is the last thing printed.
#[tactic(auto, using(crate::proofs::Steps::found_inside, crate::proofs::Bounds::bad_fits))]
fn next_field(tape: &[u8], m: Machine, out: &mut [u8]) -> Stepped
    requires field_le_next { m.place.field ≤ m.place.next }
    requires line_room_in_bounds { line_room ≤ length out.old }
    ensures { RefinesProgress (field_step (view_machine m) (found_at tape.now m.place.next)) m (lent out) result }
{
    let place = m.place;
    match scanning::next_at(tape, place.next) {
        Ok(Some(field)) => Stepped {
            written: 0,
            machine: entered(m, place.field + 1, field),
        },
        Ok(None) => Stepped {
            written: 0,
            machine: stopped(m),
        },
        Err(_) => Stepped {
            written: lines::put_bad(place.field + 1, out),
            machine: stopped(m),
        },
    }
}

// Whether the tape is too long; this is told once, in front of the first field.
#[tactic(auto, unfolding(crate::specs::Refinement::Steps::is_too_long))]
fn is_too_long(tape: &[u8], p: Place) -> bool
    ensures { result ≡ is_too_long tape.now p }
{
    p.field == 0 && TAPE < tape.len()
}

// A tape that is too long is bad as a whole.
#[tactic(auto, using(crate::proofs::Bounds::bad_fits))]
fn refuse_tape(m: Machine, out: &mut [u8]) -> Stepped
    requires { line_room ≤ length out.old }
    ensures { RefinesProgress (goes (bad_tape 0) (view_machine m).run (at_tape_end m.place)) m (lent out) result }
{
    Stepped {
        written: lines::put_bad(0, out),
        machine: stopped(m),
    }
}

// One step. The output is a slice with a clause, and no array of a line's room: cut off by `first_chunk_mut` or
// `split_first_chunk_mut`, it left `run` with no more than the length of what was cut, and `loop-buffers-preserved` and
// `returns-in-loop-buffers` stayed open.
fn step(tape: &[u8], m: Machine, buffers: &mut Buffers, out: &mut [u8]) -> Stepped
    requires { line_room ≤ length out.old }
    ensures { RefinesProgress (stepped tape.now (view_machine m)) m (lent out) result }
{
    let place = m.place;
    if is_over(place) {
        return Stepped {
            written: 0,
            machine: m,
        };
    }
    if is_too_long(tape, place) {
        return refuse_tape(m, out);
    }
    let rest = fields::part_of(tape, place.at, place.left);
    match items::next_item(kind_of(place.tag), rest) {
        Some(item) => one_item(m, past_item(place), item, buffers, out),
        None => next_field(tape, m, out),
    }
}

// A run in front of its tape.
pub fn begin() -> Machine
    ensures { result ≡ start_cells }
{
    Machine {
        printer: calls::fresh(),
        paper: 0,
        wire: 0,
        place: Place {
            field: 0,
            item: 0,
            tag: Tag::Network.into(),
            at: 0,
            left: 0,
            next: 0,
            over: false,
        },
    }
}

// The lines of a tape that the output surely has room for: steps while a line surely fits and the run is not over. The
// buffers that items are lent are this function's own.
pub fn run(tape: &[u8], m: Machine, out: &mut [u8]) -> Stepped
    ensures { RefinesRun (ran_for tape.now (view_machine m)) m (lent out) result }
{
    let mut buffers = Buffers {
        paper: [0; PAPER],
        wire: [0; WIRE],
    };
    // where a run stands is its own state, so there is nothing that a `for` could go over
    let mut machine = m;
    let mut written = 0;
    while !is_over(machine.place) && LINE <= out.len() - written {
        let s = step(tape, machine, &mut buffers, &mut out[written..]);
        machine = s.machine;
        written += s.written;
    }
    Stepped { written, machine }
}
