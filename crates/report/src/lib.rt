// What the programs print of trees, names, reasons, refusals and faults, and why they stop.
#![tactic(auto)]

pub mod fault;
pub mod faults;
pub mod names;
pub mod rows;
pub mod words;
