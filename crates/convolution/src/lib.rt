// Steps 3 and 4, termination and code: what they are, and the last input bits.
#![tactic(auto)]

pub mod ends;
