// The library that a host in C or Rust links: both ends' calls on arrays of numbers that the host lends. Each call has the arrays one by one,
// as C lends them; behind its parameters they are one struct,
// which is written out in each: for a constructor of it the callers' proofs did not close.
#![tactic(auto)]

pub mod bulletin_calls;
pub mod printer_calls;
