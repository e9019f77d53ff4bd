// Making a game ready for a level.
ghost use Rattle.std.specs.Prelude.{◌≡◌};
ghost use Rattle.level.specs.Levels.{meaning};
ghost use Rattle.rules.specs.Game.{set_out};
ghost use Rattle.rules.specs.Law.{LawIn};
ghost use Rattle.game.specs.Games.{means, row_start, setting, unmoved};
ghost use Rattle.level.specs.Tables.{nth};

use crate::board::Game;
use evaluator::table::Table;
use level::Level;
use mail::Mail;

// What the row of a piece starts with; a row without a piece has zeros.
fn first_numbers(level: &Level, piece: u8) -> [i32; 8]
    ensures { result ≡ row_start (nth (meaning level.now).pieces piece) }
{
    // Not by `map_or`: of a closure that answers an array the check learns nothing.
    let Some(entry) = level.piece(piece as usize) else {
        return [0; 8];
    };
    entry.starts
}

impl<M: Mail> Game<M> {
    // Every piece in state 0 with all numbers 0. The mail is emptied, so no message comes in but by a call on the game.
    pub fn new(mail: M) -> Self
        ensures { means M.Mail result ≡ unmoved }
    {
        let mut game = Game {
            table: Table::new(),
            mail,
        };
        game.mail.clear();
        game
    }

    // Every piece in state 0 with its starting numbers, every tray empty. Runs from here keep the law over runs.
    pub fn set_out(&mut self, level: &Level)
        ensures game { means M.Mail self.new ≡ set_out (meaning level.now) }
        ensures law { LawIn (setting M.Mail level.now) }
    {
        for piece in 0..32 {
            let numbers = first_numbers(level, piece);
            self.table.place(piece, numbers);
        }
        self.mail.clear();
    }
}
