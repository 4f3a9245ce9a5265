// Reading the wire: bytes to items. The reader knows no macro and no option.
#![tactic(auto)]

ghost use Rattle.std.specs.Prelude.{◌≡◌, min};
ghost use Rattle.lists.specs.Fronts.{front};
ghost use Rattle.codes.specs.Telnet.{not_iac};
ghost use Rattle.reader.specs.Reading.{in_phase, gives, keeping, marring, command_read, body_command_read, read_in, read, is_between, is_data};
ghost use Rattle.reader.specs.Refinement.{view_reader, idle_cells, RefinesRead};

use codes::{IAC, SE, Verb};

mod network_runs;
mod numbers;
mod phases;

pub use network_runs::{ByteOutcome, Ran, ReadsNetwork, cannot_begin, read_bytes};
pub use phases::phase_read;

// The first bytes of a body that are kept, its option among them.
pub const BODY_ROOM: usize = 260;

// Where the reader stands. Between is between commands.
#[derive(Clone, Copy)]
pub enum Phase {
    Between,
    AfterIac,
    AfterVerb(Verb),
    InBody,
    InBodyAfterIac,
}

// What a byte completes. At BodyEnd the reader still keeps the body. Nothing is a case and no Option of an item: each match has one arm
// for it either way.
#[derive(Clone, Copy)]
pub enum Item {
    Nothing,
    Data(u8),
    Negotiated(Verb, u8),
    BodyEnd,
    StrayCommand,
}

// The body that is read, or was read last, stands in the first len cells: a count beside an array, as a host lends both to the library for C.
#[derive(Clone, Copy)]
pub struct Reader {
    pub phase: Phase,
    pub marred: bool,
    pub body: [u8; BODY_ROOM],
    pub len: usize,
}

#[derive(Clone, Copy)]
pub struct Read {
    pub item: Item,
    pub reader: Reader,
}

// What a byte completes and the phase after it, of a byte that moves the phase alone.
#[derive(Clone, Copy)]
pub struct PhaseRead {
    pub item: Item,
    pub phase: Phase,
}

pub fn idle() -> Reader
    ensures { result ≡ idle_cells }
{
    Reader {
        phase: Phase::Between,
        marred: false,
        body: [0u8; BODY_ROOM],
        len: 0,
    }
}

pub fn is_between(phase: Phase) -> bool
    ensures { result ≡ is_between phase }
{
    matches!(phase, Phase::Between)
}

// The item, and the same reader in another phase.
fn stepped(r: Reader, phase: Phase, item: Item) -> Read
    ensures { RefinesRead (gives item (in_phase (view_reader r) phase)) r result }
{
    Read {
        item,
        reader: Reader { phase, ..r },
    }
}

// A byte of the body: past the room it is dropped.
fn kept(r: Reader, b: u8) -> Read
    ensures { RefinesRead (gives Item.Nothing (keeping (view_reader r) b)) r result }
{
    let mut reader = Reader {
        phase: Phase::InBody,
        ..r
    };
    let fits = r.len < BODY_ROOM;
    if fits {
        reader.body[r.len] = b;
        reader.len += 1;
    }
    Read {
        item: Item::Nothing,
        reader,
    }
}

fn marred(r: Reader) -> Read
    ensures { RefinesRead (gives Item.Nothing (marring (view_reader r))) r result }
{
    Read {
        item: Item::Nothing,
        reader: Reader {
            phase: Phase::InBody,
            marred: true,
            ..r
        },
    }
}

// A byte that is data as it stands, for which the reader need not be asked.
pub fn is_data(phase: Phase, b: u8) -> bool
    ensures { result ≡ is_data phase b }
{
    b != IAC && is_between(phase)
}

// How far the text goes that comes before a command: up to the first IAC.
pub fn text_front(bytes: &[u8]) -> usize
    ensures { result ≡ front not_iac bytes.now }
{
    lists::front(bytes, |b| b != IAC)
}

fn text_byte(r: Reader, b: u8) -> Read
    ensures { RefinesRead (read_in Phase.Between (view_reader r) b) r result }
{
    if b == IAC {
        return stepped(r, Phase::AfterIac, Item::Nothing);
    }
    Read {
        item: Item::Data(b),
        reader: r,
    }
}

// The byte after IAC.
fn command_byte(r: Reader, b: u8) -> Read
    ensures { RefinesRead (command_read (view_reader r) b) r result }
{
    match phases::command_phase(b) {
        Some(moved) => stepped(r, moved.phase, moved.item),
        None => stepped(idle(), Phase::InBody, Item::Nothing),
    }
}

fn body_byte(r: Reader, b: u8) -> Read
    ensures { RefinesRead (read_in Phase.InBody (view_reader r) b) r result }
{
    if b == IAC {
        return stepped(r, Phase::InBodyAfterIac, Item::Nothing);
    }
    kept(r, b)
}

// The byte after IAC in a body.
#[tactic(auto, unfolding(crate::specs::Reading::body_command_read))]
fn body_command_byte(r: Reader, b: u8) -> Read
    ensures { RefinesRead (body_command_read (view_reader r) b) r result }
{
    match b {
        IAC => kept(r, IAC),
        SE => stepped(r, Phase::Between, Item::BodyEnd),
        _ => marred(r),
    }
}

#[tactic(auto, unfolding(crate::specs::Reading::read))]
pub fn read_byte(r: Reader, b: u8) -> Read
    ensures { RefinesRead (read (view_reader r) b) r result }
{
    match r.phase {
        Phase::Between => text_byte(r, b),
        Phase::AfterIac => command_byte(r, b),
        Phase::AfterVerb(v) => stepped(r, Phase::Between, Item::Negotiated(v, b)),
        Phase::InBody => body_byte(r, b),
        Phase::InBodyAfterIac => body_command_byte(r, b),
    }
}

// How many bytes of a body are kept.
pub fn body_len(n: usize) -> usize
    ensures { result ≡ min n 260 }
{
    n.min(BODY_ROOM)
}

impl Reader {
    // The bytes of the body that are kept.
    pub fn kept_body(&self) -> &[u8]
        ensures { result.now ≡ (view_reader self.now).body }
    {
        &self.body[..body_len(self.len)]
    }
}
