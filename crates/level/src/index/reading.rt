// The index read from a level's bytes.
ghost use Rattle.std.specs.Prelude.{◌≡◌, length};
ghost use Rattle.level.specs.Contents.{contents};
ghost use Rattle.level.specs.Entries.{index_of};
ghost use Rattle.level.specs.Reading.{empty, read_sections};
ghost use Rattle.level.specs.Readers.{Holds, Moves, nothing};

use super::Index;
use crate::cursor::Cursor;
use crate::fault::Reason;
use crate::tables::{Kinds, Pieces, Signals, Transitions};

impl Index {
    // The index of a level of nothing.
    pub fn new() -> Self
        ensures { contents result ≡ index_of empty }
    {
        Index {
            signals: Signals::new(),
            kinds: Kinds::new(),
            transitions: Transitions::new(),
            pieces: Pieces::new(),
        }
    }

    // Section by section, from the first byte of the level.
    pub fn read(&mut self, cursor: &mut Cursor) -> Result<(), Reason>
        requires none { contents self.old ≡ index_of empty }
        requires whole { cursor.old.total ≡ length cursor.old.rest.now }
        ensures read { Moves nothing (read_sections cursor.old.rest.now) result cursor.old cursor.new }
        ensures index { Holds (read_sections cursor.old.rest.now) (λ L. contents self.new ≡ index_of L) }
    {
        cursor.signals(&mut self.signals)?;
        cursor.kinds(&self.signals, &mut self.kinds, &mut self.transitions)?;
        cursor.pieces(&self.kinds, &mut self.pieces)?;
        cursor.end()
    }
}
