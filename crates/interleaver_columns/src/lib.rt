// What step 5 asks of the 72 columns. In go the coded bits that the first line of the word takes; out come, for writing (`out`) and for
// reading (`back`), where each column begins and by how many rows its bits go up, and the masks that do so (`masks`).
#![tactic(auto)]

pub mod back;
pub mod masks;
pub mod out;
mod short;
