// Fades over a run: which of its symbols they cover, and how many symbols of each word. What they are, and their laws; there is no code here.
#![tactic(auto)]
