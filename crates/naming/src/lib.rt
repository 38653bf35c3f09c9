// Texts of promoted names: what a naming promises, and the two namings.
#![tactic(auto)]

pub mod decimal;
mod digits;
pub mod hexadecimal;
pub mod letter;
pub mod naming;
#[cfg(test)]
mod tests;
mod text;
