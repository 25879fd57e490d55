// What the customer is promised of the rack: card 10; statements and theorems alone.
// The crate `promises` has a function for each demand and card.
#![tactic(auto)]
