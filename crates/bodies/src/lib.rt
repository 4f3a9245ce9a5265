// The parsed bodies of RCTE, BM and the options about output disposition: None is a body of the wrong shape.
#![tactic(auto)]

ghost use Rattle.std.specs.Prelude.{◌≡◌, true, cond, ◌+◌, ◌<◌, length};
ghost use Rattle.bodies.specs.RcteBodies.{bit, sets_breaks, sets_sends, action_of, pair_at, classes_at, rcte_length, performed, rcte_body};
ghost use Rattle.bodies.specs.MacroBodies.{macro_body, reply_body};
ghost use Rattle.bodies.specs.ValueBodies.{is_bad_value, value_body};

use codes::{ACCEPT, DEFINE, Disposition, IAC, LITERAL, PLEASE_CANCEL, REFUSE};

// The bits of an RCTE command, each by its weight.
const SKIPS_BREAK: u8 = 2;

const SKIPS_TEXT: u8 = 4;

const SETS_BREAKS: u8 = 8;

const SETS_SENDS: u8 = 16;

// All of them, with the weight 1 that every command to perform has.
const ALL_BITS: u8 = 31;

// Which keys are not printed: break characters, and text up to them.
#[derive(Clone, Copy)]
pub struct Action {
    pub skipbreak: bool,
    pub skiptext: bool,
}

// A class pair is one number, its first byte high: those of the break characters and of the transmission characters, where
// the command sets them.
#[derive(Clone, Copy)]
pub enum RcteCommand {
    Repeat,
    Perform(Action, Option<u16>, Option<u16>),
}

// What the printer end takes of BM; a DEFINE's count and string stay in the body, from its fourth byte on.
#[derive(Clone, Copy)]
pub enum MacroCommand {
    Define(u8),
    Literal(u8),
}

// What the bulletin end takes of BM.
#[derive(Clone, Copy)]
pub enum MacroReply {
    Accept(u8),
    Refuse(u8),
    PleaseCancel(u8),
}

fn has_bit(cmd: u8, weight: u8) -> bool
    requires { 0 < weight }
    ensures { result ≡ bit weight cmd }
{
    cmd / weight % 2 == 1
}

fn action_of(cmd: u8) -> Action
    ensures { result ≡ action_of cmd }
{
    Action {
        skipbreak: has_bit(cmd, SKIPS_BREAK),
        skiptext: has_bit(cmd, SKIPS_TEXT),
    }
}

// Whether a command has a class pair for break characters, and one for transmission characters.
pub fn sets_breaks(cmd: u8) -> bool
    ensures { result ≡ sets_breaks cmd }
{
    has_bit(cmd, SETS_BREAKS)
}

pub fn sets_sends(cmd: u8) -> bool
    ensures { result ≡ sets_sends cmd }
{
    has_bit(cmd, SETS_SENDS)
}

// A class pair takes two bytes where its bit is on.
fn pair_length(set: bool) -> usize
    ensures { result ≡ cond set 2 0 }
{
    if set { 2 } else { 0 }
}

fn rcte_length(cmd: u8) -> usize
    ensures { result ≡ rcte_length cmd }
{
    2 + pair_length(sets_breaks(cmd)) + pair_length(sets_sends(cmd))
}

fn pair_at(body: &[u8], at: usize) -> u16
    requires { at + 1 < length body.now }
    ensures { result ≡ pair_at body.now at }
{
    u16::from_be_bytes([body[at], body[at + 1]])
}

fn classes_at(set: bool, body: &[u8], at: usize) -> Option<u16>
    requires { set ≡ true → at + 1 < length body.now }
    ensures { result ≡ classes_at set body.now at }
{
    set.then(|| pair_at(body, at))
}

// An odd command with a body of its length.
fn perform(cmd: u8, body: &[u8]) -> RcteCommand
    requires { length body.now ≡ rcte_length cmd }
    ensures { result ≡ performed cmd body.now }
{
    let set_breaks = sets_breaks(cmd);
    let breaks = classes_at(set_breaks, body, 2);
    let sends = classes_at(sets_sends(cmd), body, 2 + pair_length(set_breaks));
    RcteCommand::Perform(action_of(cmd), breaks, sends)
}

#[tactic(auto, unfolding(crate::specs::RcteBodies::rcte_body))]
pub fn rcte_body(body: &[u8]) -> Option<RcteCommand>
    ensures { result ≡ rcte_body body.now }
{
    let [_, cmd, rest @ ..] = body else {
        return None;
    };
    if cmd % 2 == 0 {
        return rest.is_empty().then_some(RcteCommand::Repeat);
    }
    if *cmd > ALL_BITS || body.len() != rcte_length(*cmd) {
        return None;
    }
    Some(perform(*cmd, body))
}

#[tactic(auto, unfolding(crate::specs::MacroBodies::macro_body))]
pub fn macro_body(body: &[u8]) -> Option<MacroCommand>
    ensures { result ≡ macro_body body.now }
{
    match body {
        [_, DEFINE, x, ..] => Some(MacroCommand::Define(*x)),
        [_, LITERAL, x] if *x != IAC => Some(MacroCommand::Literal(*x)),
        _ => None,
    }
}

#[tactic(auto, unfolding(crate::specs::MacroBodies::reply_body))]
pub fn reply_body(body: &[u8]) -> Option<MacroReply>
    ensures { result ≡ reply_body body.now }
{
    match body {
        [_, ACCEPT, x] => Some(MacroReply::Accept(*x)),
        [_, REFUSE, x, _] => Some(MacroReply::Refuse(*x)),
        [_, PLEASE_CANCEL, x, _] => Some(MacroReply::PleaseCancel(*x)),
        _ => None,
    }
}

// The values that an option does not allow.
pub fn bad_value(d: Disposition, v: u8) -> bool
    ensures { result ≡ is_bad_value d v }
{
    matches!(
        (d, v),
        (Disposition::Naocrd, 251 | 253) | (Disposition::Naolfd, 251)
    )
}

#[tactic(auto, unfolding(crate::specs::ValueBodies::value_body))]
pub fn value_body(d: Disposition, who: u8, body: &[u8]) -> Option<u8>
    ensures { result ≡ value_body d who body.now }
{
    match body {
        [_, speaker, v] if *speaker == who && !bad_value(d, *v) => Some(*v),
        _ => None,
    }
}
