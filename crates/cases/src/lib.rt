// The tests of all crates, and their worked cases.
#![tactic(auto)]

#[cfg(test)]
mod calling;
pub mod firing;
pub mod games;
pub mod levels;
pub mod mails;
mod sizes;
pub mod striking;
