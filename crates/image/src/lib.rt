// The image reader in three layers: bytes, sections, rows.
#![tactic(auto)]

pub mod bytes;
pub mod cursor;
pub mod fault;
pub mod fields;
pub mod open_any;
pub mod row;
pub mod section;
#[cfg(test)]
mod tests;
