// The tables of a level. Those whose entries have a bound of their own are types with that bound.
mod kind_table;
mod signal_table;

ghost use Rattle.std.specs.Prelude.{ℕ, ◌≤◌, slice_index};
ghost use Rattle.level.specs.Tables.{entry_counts};

use crate::entry::{KindEntry, PieceEntry, TransitionEntry};
use arrayvec::ArrayVec;

// The transitions of all kinds, in order.
pub type Transitions = ArrayVec<TransitionEntry, 128>;

pub type Pieces = ArrayVec<PieceEntry, 32>;

// The signals, each by the number of its parameters: at most two.
#[derive(Drop)]
pub struct Signals {
    pub counts: ArrayVec<u8, 32>,
    ghost few: { (k : ℕ) → slice_index counts.items k ≤ 2 },
}

// The kinds: none has more than eight numbers.
#[derive(Drop)]
pub struct Kinds {
    pub entries: ArrayVec<KindEntry, 16>,
    ghost small: { (k : ℕ) → slice_index (entry_counts entries.items) k ≤ 8 },
}
