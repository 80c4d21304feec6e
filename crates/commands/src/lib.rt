// What a line asks for, and how the answers are written.
#![tactic(auto)]

pub mod answers;
pub mod command;
pub mod faults;
pub mod parsing;
