// What the customer is promised of all calls: demand 1, what becomes of a refused header, and cards 9 and 11; statements and theorems alone.
// The crate `promises` has a function for each demand and card.
#![tactic(auto)]
