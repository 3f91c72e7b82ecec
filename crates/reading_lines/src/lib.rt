// Words, numbers and lines of the program's text: each function reads at the front of a text, and answers with the text after it.
#![tactic(auto)]

pub mod lines;
pub mod words;
