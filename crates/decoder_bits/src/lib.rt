// The decoder's slow way, bit by bit: the input bits one after another (`back`), and the first coded bit that is another (`compare`).
#![tactic(auto)]

pub mod back;
pub mod compare;
