// Words and numbers of a line of bytes.
#![tactic(auto)]

pub mod lines;
pub mod numbers;
pub mod words;
