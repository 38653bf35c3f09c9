// The first pass: declarations of JSX tags, and those of pruned scopes that are used in another scope.
#![tactic(auto)]

pub mod links;
pub mod promotable;
