// A link map over lent memory: petgraph's `GraphMap`.
#![tactic(auto)]

pub mod adding;
mod edges;
pub mod map;
pub mod neighbors;
pub mod parts;
pub mod questions;
pub mod removing;
#[cfg(test)]
mod tests;
