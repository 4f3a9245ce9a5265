// Who handles the character of an option, and by which value; the values that the two ends suggest.
ghost use Rattle.std.specs.Prelude.{◌≡◌};
ghost use Rattle.lists.specs.Buffers.{lent, WroteAtStart, RoomFor};
ghost use Rattle.codes.specs.Answers.{allowed};
ghost use Rattle.disposition.specs.Handled.{handling, handling_while, handling_in, handlings_in, handled_by, report_of, suggestion, suggest_guards};

use crate::by_option::UNSPOKEN_DS;
use crate::{AllValues, Handling, Handlings, Values};
use codes::{Code, DR, DS, Disposition, Each};
use negotiation::Sides;

#[tactic(auto, unfolding(crate::specs::Handled::handling))]
pub fn handling_by(v: Values) -> Handling
    ensures { result ≡ handling v }
{
    match v.ds {
        0 => Handling::Sender(v.dr),
        ds => Handling::Receiver(ds),
    }
}

// While the option is not in force, the receiver handles with 255.
fn handling_while(on: bool, v: Values) -> Handling
    ensures { result ≡ handling_while on v }
{
    if on {
        handling_by(v)
    } else {
        Handling::Receiver(UNSPOKEN_DS)
    }
}

// Of one option, as an end has it.
pub fn handling_in(sides: Sides, v: AllValues, d: Disposition) -> Handling
    ensures { result ≡ handling_in sides v d }
{
    handling_while(negotiation::disposition_in_force(sides, d), v.of(d))
}

// Of all four.
pub fn handlings_in(sides: Sides, v: AllValues) -> Handlings
    ensures { result ≡ handlings_in sides v }
{
    Each {
        naocrd: handling_in(sides, v, Disposition::Naocrd),
        naolfd: handling_in(sides, v, Disposition::Naolfd),
        naoffd: handling_in(sides, v, Disposition::Naoffd),
        naohtd: handling_in(sides, v, Disposition::Naohtd),
    }
}

// Whether the sender handles by just this value.
pub fn handled_by(value: u8, h: Handling) -> bool
    ensures { result ≡ handled_by value h }
{
    matches!(h, Handling::Sender(n) if n == value)
}

// A report in the numbers that the C interface gives: who handles, as DR and DS are numbered ..
pub fn handler_number(h: Handling) -> u8
    ensures { result ≡ (report_of h).who }
{
    match h {
        Handling::Sender(_) => DS,
        Handling::Receiver(_) => DR,
    }
}

// .. and by which value.
pub fn handling_value(h: Handling) -> u8
    ensures { result ≡ (report_of h).value }
{
    match h {
        Handling::Sender(n) | Handling::Receiver(n) => n,
    }
}

// A value as its end suggests it, who being DR or DS.
pub fn put_suggestion(d: Disposition, who: u8, v: u8, out: &mut [u8]) -> usize
    requires { RoomFor (suggestion d who v) out.old }
    ensures { WroteAtStart (suggestion d who v) (lent out) result }
{
    wire::put_frame(&[u8::from(d), who, v], out)
}

// The first refusal of a suggestion after codes 1 and 4, if any; own is the value that counts for this end.
#[tactic(auto, unfolding(codes::specs::Answers::allowed))]
pub fn suggest_refusal(d: Disposition, on: bool, own: u8, v: u8) -> Result<(), Code>
    ensures { result ≡ allowed (suggest_guards d on own v) }
{
    if !on {
        return Err(Code::NotInForce);
    }
    if bodies::bad_value(d, v) {
        return Err(Code::BadValue);
    }
    if v == own {
        return Err(Code::AlreadySo);
    }
    Ok(())
}
