// Keys and weights of a link map, refusals, and the links of a list.
#![tactic(auto)]

pub mod edges;
pub mod kinds;
pub mod nodes;
pub mod order;
pub mod refusals;
#[cfg(test)]
mod tests;
pub mod weights;
