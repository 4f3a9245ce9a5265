// The statuses by their numbers: the table keeps numbers, for a host in C lends its cells.
ghost use Rattle.std.specs.Prelude.{◌≡◌, get_or};
ghost use Rattle.sent_macros.specs.Sending.{status_number, sent_of, is_pending, is_accepted, is_free};
ghost use Rattle.sent_macros.specs.Refinement.{status_from, bare_table};

use crate::{BYTES, Status};

const FREE: u8 = 0;

const PENDING: u8 = 1;

const PENDING_FREE: u8 = 2;

const ACCEPTED: u8 = 3;

const REFUSED: u8 = 4;

impl From<Status> for u8 {
    ghost from_gives = { λ s n. n ≡ status_number s };

    fn from(s: Status) -> u8 {
        match s {
            Status::Free => FREE,
            Status::Pending => PENDING,
            Status::PendingFree => PENDING_FREE,
            Status::Accepted => ACCEPTED,
            Status::Refused => REFUSED,
        }
    }
}

// Every number stands for a status, so that any table of a host's is one.
impl From<u8> for Status {
    ghost from_gives = { λ n s. s ≡ status_from n };

    fn from(n: u8) -> Status {
        match n {
            FREE => Status::Free,
            PENDING => Status::Pending,
            PENDING_FREE => Status::PendingFree,
            ACCEPTED => Status::Accepted,
            _ => Status::Refused,
        }
    }
}

// One look, without the table by value.
pub fn status_at(numbers: &[u8; BYTES], x: u8) -> Status
    ensures { result ≡ status_from (get_or numbers.now x 0) }
{
    Status::from(numbers[x as usize])
}

pub fn is_pending(numbers: &[u8; BYTES], x: u8) -> bool
    ensures { result ≡ is_pending (sent_of (bare_table numbers.now) x) }
{
    matches!(status_at(numbers, x), Status::Pending | Status::PendingFree)
}

pub fn is_accepted(numbers: &[u8; BYTES], x: u8) -> bool
    ensures { result ≡ is_accepted (sent_of (bare_table numbers.now) x) }
{
    matches!(status_at(numbers, x), Status::Accepted)
}

pub fn is_free(numbers: &[u8; BYTES], x: u8) -> bool
    ensures { result ≡ is_free (sent_of (bare_table numbers.now) x) }
{
    matches!(status_at(numbers, x), Status::Free)
}
