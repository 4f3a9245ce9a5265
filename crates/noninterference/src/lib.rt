// Noninterference (secrecy): what two sessions that differ in typed characters have in common. There is no code here.
#![tactic(auto)]
