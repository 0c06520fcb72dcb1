// The calls of the cases, on lent memory, and what they leave there.
#![tactic(auto)]

pub mod certificates;
pub mod print;
pub mod questions;
pub mod states;
pub mod tables;
