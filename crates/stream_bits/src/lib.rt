// The stream of the marked frames, bit by bit: the bit at a place (`marked`), and a reader that hands them out (`reader`).
#![tactic(auto)]

pub mod marked;
pub mod reader;
