// The data of a text item, as the sender handles the characters that options are about.
ghost use Rattle.std.specs.Prelude.{◌≡◌};
ghost use Rattle.lists.specs.Buffers.{lent, WroteAtStart, RoomFor};
ghost use Rattle.keys.specs.declared.Key.TheVariants.{Char};
ghost use Rattle.disposition.specs.ItemData.{
  disposition_of,
  character_bytes,
  replacement,
  nul_count,
  nuls,
  character_data,
  line_data,
  item_data,
  in_line,
  character_of,
  takes_part,
  awaits,
};

use crate::{Handling, Handlings, handled};
use codes::{CR, Disposition, FF, HT, LF, NUL, SPACE};
use keys::Key;

// The most data of an item: CR LF, and 250 NULs for each of the two.
pub const ITEM_ROOM: usize = 502;

// What a value asks of the end that handles: up to that many NULs; to send something else; to drop the character; to wait.
const MOST_NULS: u8 = 250;

const REPLACES: u8 = 251;

const DROPS: u8 = 252;

const WAITS: u8 = 254;

// The option that a character has, if any.
#[tactic(auto, unfolding(crate::specs::ItemData::disposition_of))]
fn disposition_of(b: u8) -> Option<Disposition>
    ensures { result ≡ disposition_of b }
{
    match b {
        CR => Some(Disposition::Naocrd),
        LF => Some(Disposition::Naolfd),
        FF => Some(Disposition::Naoffd),
        HT => Some(Disposition::Naohtd),
        _ => None,
    }
}

// A character where nothing is done about it.
fn put_plainly(d: Disposition, out: &mut [u8]) -> usize
    requires { RoomFor (character_bytes d) out.old }
    ensures { WroteAtStart (character_bytes d) (lent out) result }
{
    match d {
        Disposition::Naocrd => wire::put_bytes(&[CR, NUL], out),
        Disposition::Naolfd => wire::put_bytes(&[LF], out),
        Disposition::Naoffd => wire::put_bytes(&[FF], out),
        Disposition::Naohtd => wire::put_bytes(&[HT], out),
    }
}

// What 251 sends for it.
fn put_replacement(d: Disposition, out: &mut [u8]) -> usize
    requires { RoomFor (replacement d) out.old }
    ensures { WroteAtStart (replacement d) (lent out) result }
{
    match d {
        Disposition::Naocrd | Disposition::Naolfd => put_plainly(d, out),
        Disposition::Naoffd => wire::put_bytes(&[CR, LF], out),
        Disposition::Naohtd => wire::put_bytes(&[SPACE], out),
    }
}

// How many NULs a handling adds.
fn nul_count(h: Handling) -> usize
    ensures { result ≡ nul_count h }
{
    match h {
        Handling::Sender(n @ 1..=MOST_NULS) => usize::from(n),
        Handling::Sender(_) | Handling::Receiver(_) => 0,
    }
}

fn put_nuls(n: usize, out: &mut [u8]) -> usize
    requires { RoomFor (nuls n) out.old }
    ensures { WroteAtStart (nuls n) (lent out) result }
{
    out[..n].fill(NUL);
    n
}

// A character's data.
fn put_character(d: Disposition, h: Handling, out: &mut [u8]) -> usize
    requires { RoomFor (character_data d h) out.old }
    ensures { WroteAtStart (character_data d h) (lent out) result }
{
    if handled::handled_by(DROPS, h) {
        return 0;
    }
    if handled::handled_by(REPLACES, h) {
        return put_replacement(d, out);
    }
    let n = put_plainly(d, out);
    let m = put_nuls(nul_count(h), &mut out[n..]);
    n + m
}

// A Line's data; its NULs stand behind the LF.
fn put_line(returns: Handling, feeds: Handling, out: &mut [u8]) -> usize
    requires { RoomFor (line_data returns feeds) out.old }
    ensures { WroteAtStart (line_data returns feeds) (lent out) result }
{
    if handled::handled_by(DROPS, returns) {
        return put_character(Disposition::Naolfd, feeds, out);
    }
    if handled::handled_by(DROPS, feeds) {
        return put_character(Disposition::Naocrd, returns, out);
    }
    let n = wire::put_bytes(&[CR, LF], out);
    let m = put_nuls(nul_count(returns) + nul_count(feeds), &mut out[n..]);
    n + m
}

// A typed character's data.
#[tactic(auto, unfolding(crate::specs::ItemData::item_data))]
fn put_char(h: Handlings, b: u8, out: &mut [u8]) -> usize
    requires { RoomFor (item_data h (Char b)) out.old }
    ensures { WroteAtStart (item_data h (Char b)) (lent out) result }
{
    match disposition_of(b) {
        Some(d) => put_character(d, h.of(d), out),
        None => wire::put_bytes(&[b], out),
    }
}

// The data of a text item; a Command has none.
#[tactic(auto, unfolding(crate::specs::ItemData::item_data))]
pub fn put_item(h: Handlings, k: Key, out: &mut [u8]) -> usize
    requires { RoomFor (item_data h k) out.old }
    ensures { WroteAtStart (item_data h k) (lent out) result }
{
    match k {
        Key::Char(b) => put_char(h, b, out),
        Key::Line => put_line(h.naocrd, h.naolfd, out),
        Key::Command(_) => 0,
    }
}

// Whether an option's character is in a Line.
fn in_line(d: Disposition) -> bool
    ensures { result ≡ in_line d }
{
    matches!(d, Disposition::Naocrd | Disposition::Naolfd)
}

fn character_of(d: Disposition) -> u8
    ensures { result ≡ character_of d }
{
    match d {
        Disposition::Naocrd => CR,
        Disposition::Naolfd => LF,
        Disposition::Naoffd => FF,
        Disposition::Naohtd => HT,
    }
}

// Whether an item has the character of an option.
pub fn takes_part(k: Key, d: Disposition) -> bool
    ensures { result ≡ takes_part k d }
{
    match k {
        Key::Char(b) => b == character_of(d),
        Key::Line => in_line(d),
        Key::Command(_) => false,
    }
}

// Whether output waits behind it.
pub fn awaits(h: Handling) -> bool
    ensures { result ≡ awaits h }
{
    handled::handled_by(WAITS, h)
}
