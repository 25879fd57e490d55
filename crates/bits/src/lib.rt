// What all layers share: reading and writing bits of packed bytes, most significant bit first, and finding the first one among them.
// The laws that the layers above cite are in proofs/Laws: sums of bits, lists by index, packing, the first that fails, counts of ones.
#![tactic(auto)]

pub mod change;
pub mod packing;
pub mod pieces;
pub mod scan;
pub mod stretch;
