// Images made from tables and rows.
#![tactic(auto)]

pub mod bytes;
pub mod encode;
pub mod fault;
pub mod panel;
pub mod promise;
pub mod row;
mod section;
pub mod tree;
