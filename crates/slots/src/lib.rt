// Slots: the definitions and laws that their writer and reader rest on, steps 8 to 10 and questions 9 to 12 for a plan's numbers. There is no code
// here.
#![tactic(auto)]
