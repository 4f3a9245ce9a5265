// Definitions and laws on lists that every other crate shares, and the scan for the bytes at the front that pass a test.
#![tactic(auto)]

mod scans;

pub use scans::front;
