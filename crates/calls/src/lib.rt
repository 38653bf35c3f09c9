// Give, look, spell and run, and lists of such calls.
#![tactic(auto)]

pub mod gifts;
pub mod perform;
pub mod promise;
pub mod requests;
pub mod run;
