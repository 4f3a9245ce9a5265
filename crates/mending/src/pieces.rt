// The first piece of what is left of a capture.
ghost use Rattle.std.specs.Prelude.{◌≡◌};
ghost use Rattle.mending.specs.Refinement.{first_found};

use crate::{Found, Reason, judging};

pub fn first_found(rest: &[u8]) -> Found
    ensures { result ≡ first_found rest.now }
{
    let mut r = reader::idle();
    for (i, b) in rest.iter().enumerate() {
        let x = reader::read_byte(r, *b);
        r = x.reader;
        if reader::is_between(r.phase) {
            return Found {
                size: i + 1,
                judged: judging::item_judged(x.item, r),
            };
        }
    }
    Found {
        size: rest.len(),
        judged: Err(Reason::Unfinished),
    }
}
