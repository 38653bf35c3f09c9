// The last pass: names for all identifiers that share a declaration with one that this run named.
#![tactic(auto)]

pub mod instances;
