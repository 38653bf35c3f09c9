// One walk over a tree, for any visitor.
#![tactic(auto)]

pub mod visitor;
pub mod walking;
