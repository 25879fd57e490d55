// What the customer is promised of runs and captures: demand 2, cards 1 and 5, the search from a slot on, and places; statements and theorems alone.
// The crate `promises` has a function for each demand and card.
#![tactic(auto)]
