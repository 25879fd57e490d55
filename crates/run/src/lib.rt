// Runs: the definitions and laws that the run writer and the run reader rest on. There is no code here.
#![tactic(auto)]
