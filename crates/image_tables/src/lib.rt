// Tables filled from an image.
#![tactic(auto)]

pub mod fault;
pub mod lists;
pub mod load;
pub mod tables;
