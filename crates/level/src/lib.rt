// Levels: the bytes that a designer writes, read once and held with an index of what stands where.
#![tactic(auto)]

mod cursor;
pub mod entry;
pub mod fault;
mod index;
mod readers;
mod scope;
mod store;
mod tables;

pub use store::Level;
