// Rows read, lent and changed.
ghost use Rattle.std.specs.Prelude.{◌≡◌, set, replicate, pos};
ghost use Rattle.evaluator.specs.Rows.{states_of, numbers_of, entered, written};

use super::{Row, Table};
use rules::trail::Change;

// A row that is changed is indexed after a test, since `get_mut` does not say what the rows are after its loan.
impl Table {
    // Every piece in state 0 with all numbers 0.
    pub fn new() -> Self
        ensures { result.rows ≡ replicate 32 (record { state = 0; numbers = replicate 8 (pos 0) }) }
    {
        Table {
            rows: [Row::default(); 32],
        }
    }

    // The state of a piece.
    pub fn state(&self, piece: u8) -> u8
        ensures { result ≡ states_of self.now piece }
    {
        self.rows.get(piece as usize).map_or(0, |row| row.state)
    }

    // A number of a piece; a number that its row has not is 0.
    pub fn number(&self, piece: u8, index: usize) -> i32
        ensures { result ≡ numbers_of self.now piece index }
    {
        let Some(row) = self.rows.get(piece as usize) else {
            return 0;
        };
        row.numbers.get(index).copied().unwrap_or(0)
    }

    // Piece `piece` gets state 0 and these numbers; a piece over 31 has no row.
    pub fn place(&mut self, piece: u8, numbers: [i32; 8])
        ensures { self.new.rows ≡ set self.old.rows piece (record { state = 0; numbers = numbers }) }
    {
        if piece > 31 {
            return;
        }
        let row = &mut self.rows[piece as usize];
        row.state = 0;
        row.numbers = numbers;
    }

    // A piece that has a row gets a state.
    pub fn enter(&mut self, piece: u8, state: u8)
        ensures states { states_of self.new ≡ entered (states_of self.old) piece state }
        ensures numbers { numbers_of self.new ≡ numbers_of self.old }
    {
        if piece > 31 {
            return;
        }
        let row = &mut self.rows[piece as usize];
        row.state = state;
    }

    // A cell that has a place gets a value.
    pub fn write(&mut self, change: Change)
        ensures states { states_of self.new ≡ states_of self.old }
        ensures numbers { numbers_of self.new ≡ written (numbers_of self.old) change }
    {
        if change.piece > 31 || change.number > 7 {
            return;
        }
        let row = &mut self.rows[change.piece as usize];
        row.numbers[change.number as usize] = change.value;
    }
}
