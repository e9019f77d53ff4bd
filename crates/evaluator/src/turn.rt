// The move that is being judged.
mod trailing;

use crate::listed::Listed;
use crate::table::Table;
use level::Level;

// It is a move of piece `mover` in a level, with the rows and the mail as they stood before the beat, and this move already noted
// among those listed. Its own entries in the trails begin at the two marks.
#[derive(Drop)]
pub struct Turn<'a, M> {
    pub level: &'a Level<'a>,
    pub table: &'a Table,
    pub mail: &'a M,
    pub listed: &'a Listed,
    pub mover: u8,
    pub written: usize,
    pub sent: usize,
}
