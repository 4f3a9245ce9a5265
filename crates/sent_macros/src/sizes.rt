// The stored length of a text, and whether all texts fit with a new one among them.
ghost use Rattle.std.specs.Prelude.{◌≡◌, ◌≤◌, ltb, length};
ghost use Rattle.received_macros.specs.Refinement.{view_texts};
ghost use Rattle.sent_macros.specs.Sending.{stored, stored_room};
ghost use Rattle.sent_macros.specs.Refinement.{stored_total, RefinesFitted};

use crate::{SendingTable, kept};
use codes::IAC;
use received_macros::Texts;

// The longest stored form, as a DEFINE's count is one byte.
const STORED_ROOM: usize = 255;

// Each 255 is stored as two.
fn stored_length(bytes: &[u8]) -> usize
    requires { length bytes.now ≤ 1024 }
    ensures { result ≡ length (stored bytes.now) }
{
    bytes.len() + bytes.iter().filter(|b| **b == IAC).count()
}

fn is_over(text: &[u8]) -> bool
    ensures { result ≡ ltb stored_room (length (stored text.now)) }
{
    text.len() > STORED_ROOM || stored_length(text) > STORED_ROOM
}

// The texts stand one behind the other in the cells.
fn stored_total(texts: Texts) -> usize
    ensures { result ≡ stored_total (view_texts texts) }
{
    stored_length(&texts.cells[..received_macros::total_of(texts)])
}

// The texts with a new one among them, if that fits.
pub fn fitted(t: SendingTable, x: u8, text: &[u8]) -> Option<Texts>
    ensures { RefinesFitted t x text.now result }
{
    if is_over(text) {
        return None;
    }
    let Ok(texts) = received_macros::define_any(kept::kept_texts(t), x, text) else {
        return None;
    };
    if stored_total(texts) <= received_macros::ROOM {
        Some(texts)
    } else {
        None
    }
}
