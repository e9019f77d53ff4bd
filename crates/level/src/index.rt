// What stands where in a level.
mod reading;

use crate::tables::{Kinds, Pieces, Signals, Transitions};

// A signal is held by the number of its parameters. All memory is fixed, so loading needs no heap.
#[derive(Drop)]
pub struct Index {
    pub signals: Signals,
    pub kinds: Kinds,
    pub transitions: Transitions,
    pub pieces: Pieces,
}
