// What the customer is promised of the uplink: card 14; statements and theorems alone.
// The crate `promises` has a function for each demand and card.
#![tactic(auto)]
