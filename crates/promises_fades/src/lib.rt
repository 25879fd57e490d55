// What the customer is promised of fades: card 8; statements and theorems alone.
// The crate `promises` has a function for each demand and card.
#![tactic(auto)]
