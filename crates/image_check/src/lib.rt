// The check of a whole image: its first fault, or none.
#![tactic(auto)]

pub mod check;
mod rank;
