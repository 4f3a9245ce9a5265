// Why a line is refused; the list ends with it.
use std::fmt;
use std::fmt::Display;

#[derive(Clone, Copy)]
pub enum BadLine {
    Beginning,
    Room,
    Bytes,
    Count,
    KeyKind,
    TextKind,
    PrinterCall,
    BulletinCall,
}

impl Display for BadLine {
    fn fmt<W: fmt::Write>(&self, f: &mut fmt::Formatter<W>) -> fmt::Result {
        f.write_str(match self {
            BadLine::Beginning => "a line begins with P, B, room or #, or is empty",
            BadLine::Room => "room takes two numbers, up to 4096 and 8192",
            BadLine::Bytes => "bytes are two hex capitals each, at most 1,024 to a line",
            BadLine::Count => "this call takes another number of bytes",
            BadLine::KeyKind => "a key is char, line or command",
            BadLine::TextKind => "a text item is char, line or command",
            BadLine::PrinterCall => "no such call at the printer end",
            BadLine::BulletinCall => "no such call at the bulletin end",
        })
    }
}
