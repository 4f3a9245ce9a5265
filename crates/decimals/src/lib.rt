// A number under 100,000 in decimal, for what is printed. Each encoder writes at the beginning of the output that it is
// handed. No Display: the contracts say which bytes stand where in the lent output.
#![tactic(auto)]

ghost use Rattle.lists.specs.Buffers.{lent, WroteAtStart, RoomFor};
ghost use Rattle.decimals.specs.Decimals.{digits, number_then};

// The most digits that a number is printed with.
const DIGITS: usize = 5;

// At most that many digits of a number, its last ones.
#[tactic(auto, using(crate::proofs::Digits::no_digits, crate::proofs::Digits::one_digit, crate::proofs::Digits::more_digits, lists::proofs::Starts::wrote_none, lists::proofs::Starts::wrote_start, lists::proofs::Behind::room_front, lists::proofs::Behind::last_place, lists::proofs::Behind::wrote_last))]
fn put_digits(most: usize, m: usize, out: &mut [u8]) -> usize
    requires { RoomFor (digits most m) out.old }
    ensures { WroteAtStart (digits most m) (lent out) result }
{
    if most == 0 {
        return 0;
    }
    let last = b'0' + (m % 10) as u8;
    if m < 10 {
        out[0] = last;
        return 1;
    }
    let n = put_digits(most - 1, m / 10, out);
    out[n] = last;
    n + 1
}

// A number and the byte that parts it from what follows.
#[tactic(auto, using(lists::proofs::Behind::room_front, lists::proofs::Behind::last_place, lists::proofs::Behind::last_inside, lists::proofs::Behind::wrote_last), unfolding(crate::specs::Decimals::number_then))]
pub fn put_number(n: usize, then: u8, out: &mut [u8]) -> usize
    requires { RoomFor (number_then n then) out.old }
    ensures { WroteAtStart (number_then n then) (lent out) result }
{
    let at = put_digits(DIGITS, n, out);
    out[at] = then;
    at + 1
}
