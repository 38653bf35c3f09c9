// Numbers, tables, the environment and scratch: what the passes read and write.
#![tactic(auto)]

pub mod environment;
pub mod ids;
pub mod packed;
pub mod refusal;
pub mod scratch;
pub mod span;
pub mod tables;
pub mod tag;
pub mod unknown;
