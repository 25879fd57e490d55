// Worked values of the rack and of fades, which antt computes. They take seconds, so they are in a crate that has no must-fail edit and is checked once.
// There is no code here.
#![tactic(auto)]
