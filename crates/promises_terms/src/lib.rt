// The meaning of the terms in which the promises speak of bits, bytes, lists, questions and answers; statements and theorems alone.
// The crate `promises` has a function for each demand and card.
#![tactic(auto)]
