// Games, and the calls on them.
#![tactic(auto)]

mod board;
mod judging;
mod looking;
mod setting_out;
mod settling;
mod striking;
mod tapping;

pub use board::Game;
