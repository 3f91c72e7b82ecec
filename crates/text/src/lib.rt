// The text of an input and of an answer: definitions and theorems, no code.
#![tactic(auto)]
