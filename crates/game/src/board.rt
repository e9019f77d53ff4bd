// A game in memory.
use evaluator::table::Table;

// How the pieces stand, and the mail that holds what waits for them. The level is lent to each call.
#[derive(Drop)]
pub struct Game<M> {
    pub(crate) table: Table,
    pub(crate) mail: M,
}
