// Finding a start in a capture: what the answer is, and laws of it. There is no code here.
#![tactic(auto)]
