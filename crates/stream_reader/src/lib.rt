// Step 1 undone: what the frames are in packed blocks, and what questions 16 and 18 ask of the stream that the blocks hold. Definitions and
// laws; there is no code here.
#![tactic(auto)]
