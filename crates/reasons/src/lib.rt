// What a run names and why: definitions of tables and rows alone, and what is proved of them.
#![tactic(auto)]

pub mod laws;
pub mod sentences;
pub mod small;
