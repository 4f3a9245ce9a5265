// The line that tells of a drop. No Display: the contracts say which bytes stand where in the lent list.
ghost use Rattle.std.specs.Prelude.{◌≡◌, [], ◌∷◌};
ghost use Rattle.lists.specs.Buffers.{lent, WroteAtStart, RoomFor};
ghost use Rattle.codes.specs.Telnet.{LF};
ghost use Rattle.mending.specs.Mending.{reason_mark, drop_line};
ghost use Rattle.mending.specs.Refinement.{piece_lines};

use crate::Reason;
use codes::{LF, SPACE};

impl From<Reason> for u8 {
    ghost from_gives = { λ reason n. n ≡ reason_mark reason };

    fn from(reason: Reason) -> u8 {
        match reason {
            Reason::Unreadable => b'1',
            Reason::Stray => b'4',
            Reason::Unfinished => b'E',
        }
    }
}

// The reason and the line's end.
fn put_reason(reason: Reason, list: &mut [u8]) -> usize
    requires { RoomFor (reason_mark reason ∷ LF ∷ []) list.old }
    ensures { WroteAtStart (reason_mark reason ∷ LF ∷ []) (lent list) result }
{
    wire::put_bytes(&[u8::from(reason), LF], list)
}

// `offset size reason`
fn put_line(offset: usize, size: usize, reason: Reason, list: &mut [u8]) -> usize
    requires { RoomFor (drop_line (record { offset = offset; size = size; reason = reason })) list.old }
    ensures { WroteAtStart (drop_line (record { offset = offset; size = size; reason = reason })) (lent list) result }
{
    let a = decimals::put_number(offset, SPACE, list);
    let b = a + decimals::put_number(size, SPACE, &mut list[a..]);
    b + put_reason(reason, &mut list[b..])
}

// The line of a piece, if it is dropped.
pub fn put_drop(offset: usize, size: usize, judged: Result<(), Reason>, list: &mut [u8]) -> usize
    requires { RoomFor (piece_lines offset size judged) list.old }
    ensures { WroteAtStart (piece_lines offset size judged) (lent list) result }
{
    match judged {
        Ok(()) => 0,
        Err(reason) => put_line(offset, size, reason, list),
    }
}
