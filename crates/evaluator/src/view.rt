// What a move's code sees.
use crate::table::Table;
use level::Level;
use rules::trail::Change;

// The level in which the code stands, the rows as they were before the beat, the changes that the moves listed earlier made, the
// move's own, and the piece that moves.
#[derive(Drop)]
pub struct View<'a> {
    pub level: &'a Level<'a>,
    pub table: &'a Table,
    pub earlier: &'a [Change],
    pub own: &'a [Change],
    pub mover: u8,
}
