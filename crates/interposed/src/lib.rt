// The third pass: names for temporaries that are used after something was interposed.
#![tactic(auto)]

pub mod acts;
pub mod interposed;
pub mod kinds;
