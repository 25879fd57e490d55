// What the customer is promised of headers: the questions put to one, the sizes that follow from it, and card 6; statements and theorems alone.
// The crate `promises` has a function for each demand and card.
#![tactic(auto)]
