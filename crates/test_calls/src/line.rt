// A list is run line by line.
use crate::bad_line::BadLine;
use crate::run::{PAPER_ROOM, Run, Setting, WIRE_ROOM};
use crate::words::{self, Head, Named};
use crate::{bulletin_end, hex, printer_end};

// `room PAPER WIRE`: how large a buffer is lent from here on.
fn room(run: &mut Run, line: &[u8]) -> Result<(), BadLine> {
    let head = words::head_of(line);
    let (paper, rest) = hex::split_number(words::past_spaces(head.rest));
    let (wire, rest) = hex::split_number(words::past_spaces(rest));
    let is_room = matches!(head.named, Some(Named::Room)) && words::past_spaces(rest).is_empty();
    if !is_room || paper > PAPER_ROOM || wire > WIRE_ROOM {
        return Err(BadLine::Room);
    }
    run.setting = Setting {
        paper,
        wire,
        ..run.setting
    };
    Ok(())
}

// The call that a line names behind the letter of its end, and its bytes.
fn call_in<'a>(line: &'a [u8], buffer: &'a mut [u8]) -> Result<(Head<'a>, &'a [u8]), BadLine> {
    let head = words::head_of(line);
    let bytes = hex::read(head.rest, buffer).ok_or(BadLine::Bytes)?;
    Ok((head, bytes))
}

fn line_run(rt: &impl Print, run: &mut Run, line: &[u8]) -> Result<(), BadLine> {
    let mut buffer = [0u8; hex::ROOM];
    match line {
        [b'#', ..] => {
            let _ = rt.write_all(line);
        }
        // an empty line: fresh ends
        [b'\n', ..] => {
            let _ = rt.write_all(line);
            *run = Run {
                called: run.called,
                ..Run::begin()
            };
        }
        [b'r', ..] => room(run, line)?,
        [b'P', rest @ ..] => {
            let (head, bytes) = call_in(rest, &mut buffer)?;
            printer_end::line_run(rt, run, head, bytes)?;
        }
        [b'B', rest @ ..] => {
            let (head, bytes) = call_in(rest, &mut buffer)?;
            bulletin_end::line_run(rt, run, head, bytes)?;
        }
        _ => return Err(BadLine::Beginning),
    }
    Ok(())
}

pub fn run_list(rt: &impl Print, text: &[u8]) {
    let mut run = Run::begin();
    for (i, line) in text.split_inclusive(|b| *b == b'\n').enumerate() {
        if let Err(why) = line_run(rt, &mut run, line) {
            let _ = println!(rt; "bad line {}: {why}", i + 1);
            return;
        }
    }
    if !run.called {
        let _ = println!(rt; "no calls");
    }
}
