// Rows of cells over lent memory: each row is a doubly linked list, and a cell is in one row at most.
#![tactic(auto)]

pub mod asked;
pub mod cells;
pub mod changes;
pub mod memory;
pub mod questions;
pub mod row;
pub mod sides;
pub mod walk;
