// Trees of a reactive function, as rows in walk order.
#![tactic(auto)]

pub mod code;
pub mod given;
pub mod kind;
pub mod mixed;
pub mod mode;
pub mod row;
pub mod source;
pub mod table;
