// The lines of the bulletin end.
use crate::bad_line::BadLine;
use crate::run::Run;
use crate::words::{self, Head, Item, Kind, Named};
use crate::{hex, questions};
use bulletin::calls;
use keys::Key;
use sessions::recorded_bulletin;

fn network(rt: &impl Print, run: &mut Run, bytes: &[u8]) {
    for (i, b) in bytes.iter().enumerate() {
        run.bulletin.call(
            rt,
            run.setting,
            i + 1,
            |s, host, wire| calls::network_byte(s, *b, host, wire),
            |s, host, wire| recorded_bulletin::network_byte(s, *b, host, wire),
        );
    }
}

fn text_item(rt: &impl Print, run: &mut Run, key: Key, call: usize) {
    run.bulletin.call(
        rt,
        run.setting,
        call,
        |s, _, wire| calls::text_item(s, key, wire),
        |s, _, wire| recorded_bulletin::text_item(s, key, wire),
    );
}

fn text(rt: &impl Print, run: &mut Run, kind: Option<Kind>, bytes: &[u8]) -> Result<(), BadLine> {
    match words::item_of(kind.ok_or(BadLine::TextKind)?, bytes)? {
        Item::Characters => {
            for (i, b) in bytes.iter().enumerate() {
                text_item(rt, run, Key::Char(*b), i + 1);
            }
        }
        Item::One(key) => text_item(rt, run, key, 1),
    }
    Ok(())
}

fn ask(rt: &impl Print, run: &mut Run, bytes: &[u8]) -> Result<(), BadLine> {
    let [option, way] = hex::exactly::<2>(bytes)?;
    run.bulletin.call(
        rt,
        run.setting,
        1,
        |s, _, wire| calls::ask(s, option, way, wire),
        |s, _, wire| recorded_bulletin::ask(s, option, way, wire),
    );
    Ok(())
}

// `sessions` has no recorded form of orders and suggestions: they are made by value at both.
fn suggest(rt: &impl Print, run: &mut Run, bytes: &[u8]) -> Result<(), BadLine> {
    let [option, v] = hex::exactly::<2>(bytes)?;
    run.bulletin.call(
        rt,
        run.setting,
        1,
        |s, _, wire| calls::suggest(s, option, v, wire),
        |s, _, wire| calls::suggest(s, option, v, wire),
    );
    Ok(())
}

// The class pairs are numbers of two bytes, the high one first.
fn order(rt: &impl Print, run: &mut Run, bytes: &[u8]) -> Result<(), BadLine> {
    let [cmd, b1, b2, s1, s2] = hex::exactly::<5>(bytes)?;
    let breaks = u16::from_be_bytes([b1, b2]);
    let sends = u16::from_be_bytes([s1, s2]);
    run.bulletin.call(
        rt,
        run.setting,
        1,
        |s, _, wire| calls::order(s, cmd, breaks, sends, wire),
        |s, _, wire| calls::order(s, cmd, breaks, sends, wire),
    );
    Ok(())
}

// The byte, then its text.
fn define(rt: &impl Print, run: &mut Run, bytes: &[u8]) -> Result<(), BadLine> {
    let (x, text) = bytes.split_first().ok_or(BadLine::Count)?;
    run.bulletin.call(
        rt,
        run.setting,
        1,
        |s, _, wire| calls::define(s, *x, text, wire),
        |s, _, wire| recorded_bulletin::define(s, *x, text, wire),
    );
    Ok(())
}

fn use_macro(rt: &impl Print, run: &mut Run, bytes: &[u8]) -> Result<(), BadLine> {
    let [x] = hex::exactly::<1>(bytes)?;
    run.bulletin.call(
        rt,
        run.setting,
        1,
        |s, _, wire| calls::use_macro(s, x, wire),
        |s, _, wire| recorded_bulletin::use_macro(s, x, wire),
    );
    Ok(())
}

fn issue(rt: &impl Print, run: &mut Run, bytes: &[u8]) -> Result<(), BadLine> {
    let n = u16::from_be_bytes(hex::exactly::<2>(bytes)?);
    run.bulletin.call(
        rt,
        run.setting,
        1,
        |s, _, wire| calls::issue(s, n, wire),
        |s, _, wire| recorded_bulletin::issue(s, n, wire),
    );
    Ok(())
}

// The questions, of the state by value.
fn asked(rt: &impl Print, run: &Run, named: Named, bytes: &[u8]) -> Result<(), BadLine> {
    let s = run.bulletin.by_value;
    let line = run.setting.line;
    // matched on as in line_run
    match named {
        Named::Report => {
            let [] = hex::exactly::<0>(bytes)?;
            questions::report(rt, line, calls::report(s));
        }
        Named::Output => {
            let [] = hex::exactly::<0>(bytes)?;
            questions::output(rt, line, calls::output(s));
        }
        Named::Status => {
            let [x] = hex::exactly::<1>(bytes)?;
            questions::standing(rt, line, calls::macro_standing(s, x));
        }
        _ => return Err(BadLine::BulletinCall),
    }
    Ok(())
}

pub fn line_run(rt: &impl Print, run: &mut Run, head: Head, bytes: &[u8]) -> Result<(), BadLine> {
    run.next_line();
    // a match on the call's name: each call has other arguments
    match head.named.ok_or(BadLine::BulletinCall)? {
        Named::Network => network(rt, run, bytes),
        Named::Text => text(rt, run, head.kind, bytes)?,
        Named::Ask => ask(rt, run, bytes)?,
        Named::Suggest => suggest(rt, run, bytes)?,
        Named::Order => order(rt, run, bytes)?,
        Named::Define => define(rt, run, bytes)?,
        Named::Use => use_macro(rt, run, bytes)?,
        Named::Issue => issue(rt, run, bytes)?,
        question => asked(rt, run, question, bytes)?,
    }
    Ok(())
}
