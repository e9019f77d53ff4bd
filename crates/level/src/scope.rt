// What the code of a kind may name.
use crate::entry::KindEntry;
use crate::tables::Signals;

// The level's signals, the kind's number and its shape.
#[derive(Clone, Copy)]
pub struct Scope<'s> {
    pub signals: &'s Signals,
    pub kind: u8,
    pub shape: KindEntry,
}
