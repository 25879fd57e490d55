// Questions 1 to 7 and 20 of a header: what they ask, in which order, and laws of them. There is no code here.
#![tactic(auto)]
