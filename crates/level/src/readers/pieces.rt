// The pieces of a level, and its end.
ghost use Rattle.std.specs.Prelude.{◌≡◌, ◌+◌, ◌≤◌, [], map, length};
ghost use Rattle.level.specs.Entries.{piece_entry, starting};
ghost use Rattle.level.specs.Reading.{read_end, read_piece, read_pieces, read_start, read_starts, room};
ghost use Rattle.level.specs.Readers.{Holds, Moves, nothing, start_pair, turn};
ghost use Rattle.level.specs.Tables.{entry_counts};

use crate::cursor::Cursor;
use crate::entry::PieceEntry;
use crate::fault::Reason;
use crate::tables::{Kinds, Pieces};

impl<'a> Cursor<'a> {
    // One starting number of a piece that has so many: its index, and the number of 32 bits.
    fn start(&mut self, numbers: u8) -> Result<(u8, i32), Reason>
        ensures { Moves start_pair (room 6 self.old.rest.now (read_start numbers self.old.rest.now)) result self.old self.new }
    {
        let [_, _, a, b, c, d, ..] = self.rest else {
            return Err(self.truncated());
        };
        let value = i32::from_be_bytes([*a, *b, *c, *d]);
        let number = self.operand(1, 0, numbers as usize)?;
        self.advance(6);
        Ok((number, value))
    }

    // What the row of a piece starts with.
    fn starts(&mut self, numbers: u8) -> Result<[i32; 8], Reason>
        requires { numbers ≤ 8 }
        ensures { Moves starting (read_starts numbers (length self.old.rest.now + 2) self.old.rest.now) result self.old self.new }
    {
        let mut row = [0; 8];
        while self.sees(0x05) {
            let (number, value) = self.start(numbers)?;
            row[number as usize] = value;
        }
        Ok(row)
    }

    // One piece more than the table has.
    fn piece(&mut self, kinds: &Kinds, pieces: &Pieces) -> Result<PieceEntry, Reason>
        ensures { Moves (piece_entry (entry_counts kinds.now.entries.items)) (turn 2 32 (length pieces.now.items) self.old.rest.now (read_piece (entry_counts kinds.now.entries.items) self.old.rest.now)) result self.old self.new }
    {
        self.opens(2, pieces)?;
        let kind = self.operand(1, 0, kinds.entries.len())?;
        self.advance(2);
        let numbers = kinds.numbers(kind);
        let starts = self.starts(numbers)?;
        Ok(PieceEntry {
            kind,
            numbers,
            starts,
        })
    }

    // All pieces, into an empty table.
    pub fn pieces(&mut self, kinds: &Kinds, pieces: &mut Pieces) -> Result<(), Reason>
        requires { pieces.old.items ≡ [] }
        ensures read { Moves nothing (read_pieces (entry_counts kinds.now.entries.items) self.old.rest.now) result self.old self.new }
        ensures table { Holds (read_pieces (entry_counts kinds.now.entries.items) self.old.rest.now) (λ ps. pieces.new.items ≡ map (piece_entry (entry_counts kinds.now.entries.items)) ps) }
    {
        while self.sees(0x04) {
            let entry = self.piece(kinds, pieces)?;
            pieces.push(entry);
        }
        Ok(())
    }

    // The end of the level, and nothing after it.
    pub fn end(&mut self) -> Result<(), Reason>
        ensures { Moves nothing (read_end self.old.rest.now) result self.old self.new }
    {
        match self.rest {
            [] => Err(self.truncated()),
            [0x06, ..] => {
                self.advance(1);
                if self.rest.is_empty() {
                    Ok(())
                } else {
                    Err(Reason::NotCommand)
                }
            }
            _ => Err(Reason::NotCommand),
        }
    }
}
