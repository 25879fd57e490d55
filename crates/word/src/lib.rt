// Words: the definitions and laws that the word writer and the word reader rest on. There is no code here.
#![tactic(auto)]
