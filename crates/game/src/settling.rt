// Settling a beat that is accepted: its moves, then what it wrote and sent.
ghost use Rattle.std.specs.Prelude.{◌≡◌};
ghost use Rattle.level.specs.Levels.{meaning};
ghost use Rattle.rules.specs.declared.moves.Act.TheVariants.{Transition};
ghost use Rattle.rules.specs.Calls.{front_moves};
ghost use Rattle.evaluator.specs.Rows.{states_of, numbers_of};
ghost use Rattle.evaluator.specs.Trails.{lists};
ghost use Rattle.game.specs.Games.{means, setting};
ghost use Rattle.game.specs.Settling.{written_all, put_all, made, made_all, settled};

use crate::board::Game;
use evaluator::table::Table;
use evaluator::trail::Trails;
use level::Level;
use mail::Mail;
use rules::moves::{Act, Move, Moves};
use rules::trail::{Change, Parcel};

// Each change gives its cell a value.
fn write_all(table: &mut Table, changes: &[Change])
    ensures states { states_of table.new ≡ states_of table.old }
    ensures numbers { numbers_of table.new ≡ written_all (numbers_of table.old) changes.now }
{
    for change in changes {
        table.write(*change);
    }
}

// Each parcel goes into the tray of its piece. An accepted beat sends none that the mail refuses.
fn put_all<M: Mail>(mail: &mut M, parcels: &[Parcel])
    ensures { M.Mail.trays mail.new ≡ put_all M.Mail.LIMIT M.Mail.place (M.Mail.trays mail.old) parcels.now }
{
    for parcel in parcels {
        let _ = mail.put(parcel.piece, parcel.message);
    }
}

impl<M: Mail> Game<M> {
    // A transition leaves its piece in its target state. It takes a message if it has a trigger.
    fn transit(&mut self, level: &Level, piece: u8, number: u8)
        ensures { means M.Mail self.new ≡ made (meaning level.now) (means M.Mail self.old) (record { piece = piece; act = Transition number }) }
    {
        let Some(transition) = level.transition(number as usize) else {
            return;
        };
        self.table.enter(piece, transition.target);
        if transition.signal != 0 {
            let _ = self.mail.take(piece);
        }
    }

    // One move. A discard takes a message and leaves its piece in the state that it has.
    fn make(&mut self, level: &Level, moving: Move)
        ensures { means M.Mail self.new ≡ made (meaning level.now) (means M.Mail self.old) moving }
    {
        match moving.act {
            Act::Transition(number) => self.transit(level, moving.piece, number),
            Act::Discard => {
                let _ = self.mail.take(moving.piece);
            }
        }
    }

    // The moves at the front of the bytes.
    fn make_all(&mut self, level: &Level, moves: &[u8])
        ensures { means M.Mail self.new ≡ made_all (meaning level.now) (means M.Mail self.old) (front_moves moves.now) }
    {
        for moving in Moves::new(moves) {
            self.make(level, moving);
        }
    }

    // All messages are taken before the first is put.
    pub(crate) fn settle(&mut self, level: &Level, moves: &[u8], trails: &Trails)
        ensures { means M.Mail self.new
            ≡ settled (setting M.Mail level.now) (means M.Mail self.old) (front_moves moves.now) (lists trails.now) }
    {
        self.make_all(level, moves);
        write_all(&mut self.table, trails.changes.entries());
        put_all(&mut self.mail, trails.parcels.entries());
    }
}
