// What the rack's calls say and do, and what a mission is told, in `specs/`. There is no code here: `rack_entries`, `rack_asked` and `rack_calls`
// have it.
#![tactic(auto)]
