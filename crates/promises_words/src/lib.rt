// What the customer is promised of words and passes: demand 3 and cards 2, 3, 4, 7, 12 and 13; statements and theorems alone.
// The crate `promises` has a function for each demand and card.
#![tactic(auto)]
