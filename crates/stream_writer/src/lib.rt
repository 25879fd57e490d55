// Step 1: what the stream of the marked frames is, and its blocks. Definitions and laws; there is no code here.
#![tactic(auto)]
