// Step 2, the check: what it is, and its laws. There is no code here.
#![tactic(auto)]
