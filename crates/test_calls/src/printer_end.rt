// The lines of the printer end.
use crate::bad_line::BadLine;
use crate::run::Run;
use crate::words::{self, Head, Item, Kind, Named};
use crate::{hex, questions};
use keys::Key;
use printer::calls;
use sessions::recorded_printer;

fn network(rt: &impl Print, run: &mut Run, bytes: &[u8]) {
    for (i, b) in bytes.iter().enumerate() {
        run.printer.call(
            rt,
            run.setting,
            i + 1,
            |s, paper, wire| calls::network_byte(s, *b, paper, wire),
            |s, paper, wire| recorded_printer::network_byte(s, *b, paper, wire),
        );
    }
}

fn press(rt: &impl Print, run: &mut Run, key: Key, call: usize) {
    run.printer.call(
        rt,
        run.setting,
        call,
        |s, paper, wire| calls::press(s, key, paper, wire),
        |s, paper, wire| recorded_printer::press(s, key, paper, wire),
    );
}

fn keys(rt: &impl Print, run: &mut Run, kind: Option<Kind>, bytes: &[u8]) -> Result<(), BadLine> {
    match words::item_of(kind.ok_or(BadLine::KeyKind)?, bytes)? {
        Item::Characters => {
            for (i, b) in bytes.iter().enumerate() {
                press(rt, run, Key::Char(*b), i + 1);
            }
        }
        Item::One(key) => press(rt, run, key, 1),
    }
    Ok(())
}

// `sessions` has no recorded form of asks and suggestions: they are made by value at both.
fn ask(rt: &impl Print, run: &mut Run, bytes: &[u8]) -> Result<(), BadLine> {
    let [option, way] = hex::exactly::<2>(bytes)?;
    run.printer.call(
        rt,
        run.setting,
        1,
        |s, paper, wire| calls::ask(s, option, way, paper, wire),
        |s, paper, wire| calls::ask(s, option, way, paper, wire),
    );
    Ok(())
}

fn suggest(rt: &impl Print, run: &mut Run, bytes: &[u8]) -> Result<(), BadLine> {
    let [option, v] = hex::exactly::<2>(bytes)?;
    run.printer.call(
        rt,
        run.setting,
        1,
        |s, paper, wire| calls::suggest(s, option, v, paper, wire),
        |s, paper, wire| calls::suggest(s, option, v, paper, wire),
    );
    Ok(())
}

fn report(rt: &impl Print, run: &Run, bytes: &[u8]) -> Result<(), BadLine> {
    let [] = hex::exactly::<0>(bytes)?;
    questions::report(rt, run.setting.line, calls::report(run.printer.by_value));
    Ok(())
}

pub fn line_run(rt: &impl Print, run: &mut Run, head: Head, bytes: &[u8]) -> Result<(), BadLine> {
    run.next_line();
    // a match on the call's name: each call has other arguments
    match head.named.ok_or(BadLine::PrinterCall)? {
        Named::Network => network(rt, run, bytes),
        Named::Key => keys(rt, run, head.kind, bytes)?,
        Named::Ask => ask(rt, run, bytes)?,
        Named::Suggest => suggest(rt, run, bytes)?,
        Named::Report => report(rt, run, bytes)?,
        _ => return Err(BadLine::PrinterCall),
    }
    Ok(())
}
