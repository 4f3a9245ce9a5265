// The sides that each end carries, their states, and ECHO against RCTE.
ghost use Rattle.std.specs.Prelude.{◌≡◌};
ghost use Rattle.codes.specs.Dispositions.{disposition_numbered, of_disposition};
ghost use Rattle.negotiation.specs.Table.{is_yes};
ghost use Rattle.negotiation.specs.Carried.{
  printer_side,
  carried_side,
  is_carried,
  state_of,
  moved,
  all_no,
  may_enable,
  clashes,
  macros_in_force,
  disposition_in_force,
};

use crate::{End, OptionState, Side, Sides, table};
use codes::{BM, Disposition, ECHO, Each, RCTE, SGA, Whose};

// The side of an option about output disposition; that of another option is not carried.
fn disposing_side(option: u8) -> Side
    ensures { result ≡ of_disposition Side.Uncarried Side.Disposes (disposition_numbered option) }
{
    codes::disposition_numbered(option).map_or(Side::Uncarried, Side::Disposes)
}

// What the printer end carries: four options on his side, five on ours.
#[tactic(auto, unfolding(crate::specs::Carried::printer_side))]
fn printer_side(w: Whose, option: u8) -> Side
    ensures { result ≡ printer_side w option }
{
    match (w, option) {
        (Whose::His, ECHO) => Side::Echo,
        (Whose::His, SGA) => Side::BulletinSga,
        (Whose::His, RCTE) => Side::Rcte,
        (Whose::His, BM) => Side::Macro,
        (Whose::His, _) => Side::Uncarried,
        (Whose::Ours, SGA) => Side::PrinterSga,
        (Whose::Ours, _) => disposing_side(option),
    }
}

// The bulletin end carries the mirror of this.
pub fn carried_side(end: End, w: Whose, option: u8) -> Side
    ensures { result ≡ carried_side end w option }
{
    match end {
        End::Printer => printer_side(w, option),
        End::Bulletin => printer_side(codes::other_side(w), option),
    }
}

pub fn is_carried(side: Side) -> bool
    ensures { result ≡ is_carried side }
{
    !matches!(side, Side::Uncarried)
}

pub fn state_of(s: Sides, side: Side) -> OptionState
    ensures { result ≡ state_of s side }
{
    match side {
        Side::Echo => s.echo,
        Side::BulletinSga => s.sga,
        Side::Rcte => s.rcte,
        Side::Macro => s.bm,
        Side::PrinterSga => s.printersga,
        Side::Disposes(d) => s.dispositions.of(d),
        Side::Uncarried => OptionState::No,
    }
}

// As an end begins: nothing is agreed.
pub fn all_no() -> Sides
    ensures { result ≡ all_no }
{
    Sides {
        echo: OptionState::No,
        sga: OptionState::No,
        rcte: OptionState::No,
        bm: OptionState::No,
        printersga: OptionState::No,
        dispositions: Each::all(OptionState::No),
    }
}

// The sides with one of them at q.
pub fn moved(s: Sides, side: Side, q: OptionState) -> Sides
    ensures { result ≡ moved s side q }
{
    match side {
        Side::Echo => Sides { echo: q, ..s },
        Side::BulletinSga => Sides { sga: q, ..s },
        Side::Rcte => Sides { rcte: q, ..s },
        Side::Macro => Sides { bm: q, ..s },
        Side::PrinterSga => Sides { printersga: q, ..s },
        Side::Disposes(d) => Sides {
            dispositions: s.dispositions.with(d, q),
            ..s
        },
        Side::Uncarried => s,
    }
}

// Whether a request of the side is agreed: ECHO is not while RCTE is away from NO, nor the reverse.
pub fn may_enable(s: Sides, side: Side) -> bool
    ensures { result ≡ may_enable s side }
{
    match side {
        Side::Echo => table::is_no(s.rcte),
        Side::Rcte => table::is_no(s.echo),
        Side::BulletinSga | Side::Macro | Side::PrinterSga | Side::Disposes(_) => true,
        Side::Uncarried => false,
    }
}

// In force means YES.
pub fn echo_in_force(s: Sides) -> bool
    ensures { result ≡ is_yes s.echo }
{
    table::is_yes(s.echo)
}

pub fn rcte_in_force(s: Sides) -> bool
    ensures { result ≡ is_yes s.rcte }
{
    table::is_yes(s.rcte)
}

pub fn disposition_in_force(s: Sides, d: Disposition) -> bool
    ensures { result ≡ disposition_in_force s d }
{
    table::is_yes(s.dispositions.of(d))
}

// BM is in force at YES; at the printer end until the other end has said that it stopped.
pub fn macros_in_force(end: End, s: Sides) -> bool
    ensures { result ≡ macros_in_force end s }
{
    match end {
        End::Printer => table::is_yes_or_ending(s.bm),
        End::Bulletin => table::is_yes(s.bm),
    }
}

// Whether an ask meets ECHO against RCTE.
#[tactic(auto, unfolding(crate::specs::Carried::clashes))]
pub fn clashes(s: Sides, side: Side, enable: bool) -> bool
    ensures { result ≡ clashes s side enable }
{
    enable && table::is_no(state_of(s, side)) && !may_enable(s, side)
}
