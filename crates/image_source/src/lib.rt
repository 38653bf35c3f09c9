// A tree source straight over the bytes of a T section.
#![tactic(auto)]

pub mod promise;
mod row;
pub mod source;
mod standing;
mod state;
