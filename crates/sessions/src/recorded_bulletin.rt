// The bulletin end's calls for a caller that keeps the state by value, as the printer end's: written out for the same reason.
ghost use Rattle.lists.specs.Buffers.{lent};
ghost use Rattle.bulletin.specs.Calls.{network_call, ask_call, define_call, use_call, text_call, issue_call};
ghost use Rattle.bulletin.specs.Refinement.{view_bulletin, RefinesAnswer, RefinesAnswerOnWire};

use crate::bulletin_end;
use bulletin::{Answer, Bulletin};
use keys::Key;

pub fn network_byte(mut s: Bulletin, b: u8, host: &mut [u8], wire: &mut [u8]) -> Answer
    ensures { RefinesAnswer (network_call (view_bulletin s) b) s (lent host) (lent wire) result }
{
    let o = bulletin_end::network_byte(&mut s, b, host, wire);
    o.with(s)
}

pub fn ask(mut s: Bulletin, option: u8, way: u8, wire: &mut [u8]) -> Answer
    ensures { RefinesAnswerOnWire (ask_call (view_bulletin s) option way) s (lent wire) result }
{
    let o = bulletin_end::ask(&mut s, option, way, wire);
    o.with(s)
}

pub fn define(mut s: Bulletin, x: u8, text: &[u8], wire: &mut [u8]) -> Answer
    ensures { RefinesAnswerOnWire (define_call (view_bulletin s) x text.now) s (lent wire) result }
{
    let o = bulletin_end::define(&mut s, x, text, wire);
    o.with(s)
}

pub fn use_macro(mut s: Bulletin, x: u8, wire: &mut [u8]) -> Answer
    ensures { RefinesAnswerOnWire (use_call (view_bulletin s) x) s (lent wire) result }
{
    let o = bulletin_end::use_macro(&mut s, x, wire);
    o.with(s)
}

pub fn text_item(mut s: Bulletin, k: Key, wire: &mut [u8]) -> Answer
    ensures { RefinesAnswerOnWire (text_call (view_bulletin s) k) s (lent wire) result }
{
    let o = bulletin_end::text_item(&mut s, k, wire);
    o.with(s)
}

pub fn issue(mut s: Bulletin, n: u16, wire: &mut [u8]) -> Answer
    ensures { RefinesAnswerOnWire (issue_call (view_bulletin s) n) s (lent wire) result }
{
    let o = bulletin_end::issue(&mut s, n, wire);
    o.with(s)
}
