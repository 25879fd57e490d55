// The stream that blocks hold: its bits and bytes (`joined`), and what the questions look for in it (`looks`).
#![tactic(auto)]

pub mod joined;
pub mod looks;
