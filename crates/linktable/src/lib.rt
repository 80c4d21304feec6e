// The commands of a line, carried out on a table of links.
#![tactic(auto)]

pub mod links;
pub mod room;
