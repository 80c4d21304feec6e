// What a link map means: plain lists, and what each call answers and leaves of them.
#![tactic(auto)]

pub mod edge;
