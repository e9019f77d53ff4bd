// How moves are carried out: the rows of the pieces, the trails that a call fills, and the evaluation of guards and effects.
#![tactic(auto)]

mod arithmetic;
mod effects;
mod expressions;
mod halt;
pub mod listed;
pub mod lookup;
mod names;
pub mod table;
pub mod trail;
mod transitions;
pub mod turn;
mod view;
