// Naming an identifier, and the second pass: names for what scopes and inner functions take.
#![tactic(auto)]

pub mod identifier;
pub mod temporaries;
