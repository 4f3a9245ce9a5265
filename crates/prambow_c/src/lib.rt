// The exports of `prambow`, which a host in C or Rust links: include/prambow.h declares them. Each is written out:
// an export needs an item with `no_mangle`, and the claims of `traces/ArrayContracts` cite the contracts of `prambow`.
#![tactic(auto)]

mod bulletin_calls;
mod printer_calls;
