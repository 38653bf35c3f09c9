// Every fault of tables, parameters and rows, found before a run writes.
#![tactic(auto)]

mod fields;
mod grammar;
pub mod rows;
mod sizes;
mod stack;
pub mod tables;
