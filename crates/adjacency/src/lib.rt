// The nodes of a map with their rows, and what the coming and going of a link's cells does to them.
#![tactic(auto)]

pub mod adjacency;
pub mod edits;
pub mod joins;
pub mod leaves;
pub mod moves;
pub mod reads;
