// The two scanners, for text and for commands. Each is done at the first byte that is the other's, and calls that for the rest,
// where a loop would do: document 02 names this form (docs/RULES.md 12.9).
ghost use Rattle.std.specs.Prelude.{◌+◌, ◌≤◌, ◌<◌, ◌≡◌, length, take};
ghost use Rattle.lists.specs.Fronts.{front};
ghost use Rattle.lists.specs.Buffers.{lent, WroteAtStart, RoomFor};
ghost use Rattle.codes.specs.Telnet.{not_iac};
ghost use Rattle.mending.specs.Mending.{capture_room, copied_of};
ghost use Rattle.mending.specs.Refinement.{run_of, piece_scan, part_scan, RefinesScan};

use crate::{Found, Reason, Scanned, lines, pieces};

// How far the text at the front goes, of so many bytes at most.
fn text_within(rest: &[u8], part: usize) -> usize
    ensures { result ≡ front not_iac (take part rest.now) }
{
    reader::text_front(&rest[..part.min(rest.len())])
}

// A piece, if it is copied.
fn put_copied(piece: &[u8], judged: Result<(), Reason>, out: &mut [u8]) -> usize
    requires { RoomFor (copied_of piece.now judged) out.old }
    ensures { WroteAtStart (copied_of piece.now judged) (lent out) result }
{
    match judged {
        Ok(()) => wire::put_bytes(piece, out),
        Err(_) => 0,
    }
}

// The text at the front of a part, up to the first IAC.
fn put_run(rest: &[u8], part: usize, out: &mut [u8]) -> usize
    requires { RoomFor (run_of part rest.now) out.old }
    ensures { WroteAtStart (run_of part rest.now) (lent out) result }
{
    let n = text_within(rest, part);
    wire::put_bytes(&rest[..n], out)
}

// The first piece, copied or told of.
fn put_piece(rest: &[u8], at: usize, out: &mut [u8], list: &mut [u8]) -> Scanned
    requires rest_nonzero { 0 < length rest.now }
    requires room_for { RoomFor (piece_scan at rest.now).bytes out.old }
    requires room_for_2 { RoomFor (piece_scan at rest.now).lines list.old }
    ensures { RefinesScan (piece_scan at rest.now) (lent out) (lent list) result }
{
    let Found { size, judged } = pieces::first_found(rest);
    let written = put_copied(&rest[..size], judged, out);
    let listed = lines::put_drop(at, size, judged, list);
    Scanned {
        taken: size,
        written,
        listed,
    }
}

// What is left of a capture from an offset on: a part of so many bytes at its front is scanned, and the rest of a command that
// begins in it.
#[cycle(scan_command_scan_text)]
pub fn scan_text(rest: &[u8], at: usize, part: usize, out: &mut [u8], list: &mut [u8]) -> Scanned
    requires rest_bound { at + length rest.now ≤ capture_room }
    requires room_for { RoomFor (part_scan at part rest.now).bytes out.old }
    requires room_for_2 { RoomFor (part_scan at part rest.now).lines list.old }
    ensures { RefinesScan (part_scan at part rest.now) (lent out) (lent list) result }
{
    let n = put_run(rest, part, out);
    let run = Scanned {
        taken: n,
        written: n,
        listed: 0,
    };
    if n == part || n == rest.len() {
        return run;
    }
    run.then(scan_command(&rest[n..], at + n, part - n, &mut out[n..], list))
}

// The same where a command stands at the front.
#[cycle(scan_command_scan_text)]
fn scan_command(rest: &[u8], at: usize, part: usize, out: &mut [u8], list: &mut [u8]) -> Scanned
    requires rest_nonzero { 0 < length rest.now }
    requires part_nonzero { 0 < part }
    requires rest_bound { at + length rest.now ≤ capture_room }
    requires room_for { RoomFor (part_scan at part rest.now).bytes out.old }
    requires room_for_2 { RoomFor (part_scan at part rest.now).lines list.old }
    ensures { RefinesScan (part_scan at part rest.now) (lent out) (lent list) result }
{
    let p = put_piece(rest, at, out, list);
    if part <= p.taken {
        return p;
    }
    p.then(scan_text(
        &rest[p.taken..],
        at + p.taken,
        part - p.taken,
        &mut out[p.written..],
        &mut list[p.listed..],
    ))
}
