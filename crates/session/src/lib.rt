// Runs over the trees of one image, with memory of their own.
#![tactic(auto)]

pub mod session;
