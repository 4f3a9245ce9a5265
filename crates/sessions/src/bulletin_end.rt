// The bulletin end's calls and its questions on a lent `Bulletin`, as the printer end's on a lent `Printer`.
ghost use Rattle.std.specs.Prelude.{◌≡◌};
ghost use Rattle.lists.specs.Buffers.{lent};
ghost use Rattle.disposition.specs.Handled.{reports_of};
ghost use Rattle.bulletin.specs.Calls.{
  network_call,
  ask_call,
  suggest_call,
  order_call,
  define_call,
  use_call,
  text_call,
  issue_call,
  macro_standing,
  dispositions_report,
  output_now,
};
ghost use Rattle.bulletin.specs.Refinement.{view_bulletin};
ghost use Rattle.sessions.specs.Refinement.{RefinesOnBulletin, RefinesOnBulletinWire, bulletin_answer};

use crate::BulletinOutcome;
use bulletin::{Answer, Bulletin, Output, Standing, calls};
use disposition::Handlings;
use keys::Key;

// What a call answers by value, its state put into the record.
fn kept(s: &mut Bulletin, a: Answer) -> BulletinOutcome
    ensures { bulletin_answer result s.new ≡ a }
{
    *s = a.state;
    BulletinOutcome {
        code: a.code,
        note: a.note,
        host: a.host,
        wire: a.wire,
    }
}

pub fn network_byte(s: &mut Bulletin, b: u8, host: &mut [u8], wire: &mut [u8]) -> BulletinOutcome
    ensures { RefinesOnBulletin (λ t. network_call t b) s (lent host) (lent wire) result }
{
    let a = calls::network_byte(*s, b, host, wire);
    kept(s, a)
}

pub fn ask(s: &mut Bulletin, option: u8, way: u8, wire: &mut [u8]) -> BulletinOutcome
    ensures { RefinesOnBulletinWire (λ t. ask_call t option way) s (lent wire) result }
{
    let a = calls::ask(*s, option, way, wire);
    kept(s, a)
}

pub fn suggest(s: &mut Bulletin, option: u8, v: u8, wire: &mut [u8]) -> BulletinOutcome
    ensures { RefinesOnBulletinWire (λ t. suggest_call t option v) s (lent wire) result }
{
    let a = calls::suggest(*s, option, v, wire);
    kept(s, a)
}

pub fn order(s: &mut Bulletin, cmd: u8, breaks: u16, sends: u16, wire: &mut [u8]) -> BulletinOutcome
    ensures { RefinesOnBulletinWire (λ t. order_call t cmd breaks sends) s (lent wire) result }
{
    let a = calls::order(*s, cmd, breaks, sends, wire);
    kept(s, a)
}

pub fn define(s: &mut Bulletin, x: u8, text: &[u8], wire: &mut [u8]) -> BulletinOutcome
    ensures { RefinesOnBulletinWire (λ t. define_call t x text.now) s (lent wire) result }
{
    let a = calls::define(*s, x, text, wire);
    kept(s, a)
}

pub fn use_macro(s: &mut Bulletin, x: u8, wire: &mut [u8]) -> BulletinOutcome
    ensures { RefinesOnBulletinWire (λ t. use_call t x) s (lent wire) result }
{
    let a = calls::use_macro(*s, x, wire);
    kept(s, a)
}

pub fn text_item(s: &mut Bulletin, k: Key, wire: &mut [u8]) -> BulletinOutcome
    ensures { RefinesOnBulletinWire (λ t. text_call t k) s (lent wire) result }
{
    let a = calls::text_item(*s, k, wire);
    kept(s, a)
}

pub fn issue(s: &mut Bulletin, n: u16, wire: &mut [u8]) -> BulletinOutcome
    ensures { RefinesOnBulletinWire (λ t. issue_call t n) s (lent wire) result }
{
    let a = calls::issue(*s, n, wire);
    kept(s, a)
}

// How the last DEFINE of a byte stands, and the issue that it kept.
pub fn macro_standing(s: &Bulletin, x: u8) -> Standing
    ensures { result ≡ macro_standing (view_bulletin s.now) x }
{
    calls::macro_standing(*s, x)
}

// Of each option about output disposition who handles its character, and how.
pub fn report(s: &Bulletin) -> Handlings
    ensures { reports_of result ≡ dispositions_report (view_bulletin s.now) }
{
    calls::report(*s)
}

// Whether output waits.
pub fn output(s: &Bulletin) -> Output
    ensures { result ≡ output_now (view_bulletin s.now) }
{
    calls::output(*s)
}
