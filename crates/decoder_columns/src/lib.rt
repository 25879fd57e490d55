// The coded word by columns of seven bits, for the decoder's fast way: the sums of neighbours (`rows`), and whether sums of three
// columns are zero at every second or third place (`apart`).
#![tactic(auto)]

pub mod apart;
pub mod rows;
