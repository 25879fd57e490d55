// What the customer is promised of the program `runsheet`; statements and theorems alone.
// The crate `promises` has a function for them.
#![tactic(auto)]
