// Loading a level.
ghost use Rattle.std.specs.Prelude.{◌≡◌, [], ◌∷◌, if◌then◌else◌};
ghost use Rattle.level.specs.Law.{LevelLaw};
ghost use Rattle.level.specs.Levels.{code, loaded};
ghost use Rattle.level.specs.Reading.{accepted, read};

use super::Level;
use crate::cursor::Cursor;
use crate::fault::{LevelFault, Reason};
use crate::index::Index;

impl<'a> Level<'a> {
    // The level of the one byte 06: no signals, no kinds, no pieces.
    pub fn new() -> Self
        ensures { code result ≡ 6 ∷ [] }
    {
        Level {
            bytes: &[0x06],
            index: Index::new(),
        }
    }

    // Takes these bytes for the level, and answers how many pieces it has; or refuses, and stays the level that it was.
    pub fn load(&mut self, bytes: &'a [u8]) -> Result<usize, LevelFault>
        ensures answer { result ≡ loaded (read bytes.now) }
        ensures after { code self.new ≡ (if accepted bytes.now then bytes.now else code self.old) }
        ensures law { LevelLaw }
    {
        let total = bytes.len();
        if total > 8192 {
            return Err(LevelFault {
                reason: Reason::TooLong,
                byte: 0,
            });
        }
        let mut cursor = Cursor { rest: bytes, total };
        let mut index = Index::new();
        if let Err(reason) = index.read(&mut cursor) {
            let byte = cursor.place();
            return Err(LevelFault { reason, byte });
        }
        let pieces = index.pieces.len();
        *self = Level { bytes, index };
        Ok(pieces)
    }
}
