// Firing one move, and striking a beat.
ghost use Rattle.std.specs.Prelude.{◌≡◌, ◌≤◌, true, length, is_ok};
ghost use Rattle.rules.specs.Calls.{call, fire, front_moves, full, move_of, moves_of, strike};
ghost use Rattle.rules.specs.Single.{Step};
ghost use Rattle.evaluator.specs.Trails.{both, Kept, KeptBoth, lent, lists, places};
ghost use Rattle.game.specs.Games.{after_strike, EndsAsEnabled, means, setting};
ghost use Rattle.game.specs.Judged.{all_judged, counted, empty, left_after, with_trails};

use crate::board::Game;
use evaluator::listed::Listed;
use evaluator::trail::{Trail, Trails};
use level::Level;
use mail::Mail;
use rules::fault::{MoveFault, StrikeFault};
use rules::moves::Moves;
use rules::trail::{Change, Parcel};

// Whether the trails have places for all that a beat may write and send.
fn full(trails: &Trails) -> bool
    ensures { result ≡ full (places trails.now) }
{
    trails.changes.room() >= 160 && trails.parcels.room() >= 128
}

// How many moves the bytes are, 1 to 16. Each has three bytes, and nothing may be left.
fn count_moves(bytes: &[u8]) -> Result<usize, StrikeFault>
    ensures { result ≡ counted (moves_of bytes.now) }
{
    let count = Moves::new(bytes).count();
    match count {
        1..=16 if bytes.len() == 3 * count => Ok(count),
        _ => Err(StrikeFault::NotMoves),
    }
}

impl<M: Mail> Game<M> {
    // Each move in full before the next, against the trails as those listed before it have left them.
    fn judge_all(&self, level: &Level, moves: &[u8], trails: &mut Trails) -> Result<(), MoveFault>
        requires few { length (front_moves moves.now) ≤ 16 }
        requires empty { lists trails.old ≡ empty }
        requires full { full (places trails.old) ≡ true }
        ensures lists { with_trails result (lists trails.new)
            ≡ all_judged M.Mail level.now self.now (front_moves moves.now) }
        ensures kept { KeptBoth trails.old trails.new }
    {
        let mut listed = Listed::new();
        for (place, moving) in Moves::new(moves).enumerate() {
            self.judge(level, &mut listed, moving, trails)
                .map_err(|why| MoveFault { place, moving, why })?;
        }
        Ok(())
    }

    // A beat with trails that are still empty: they stay as its judging leaves them.
    fn beat(
        &mut self,
        level: &Level,
        moves: &[u8],
        trails: &mut Trails,
    ) -> Result<usize, StrikeFault>
        requires { lists trails.old ≡ empty }
        ensures call { after_strike result (means M.Mail self.new) (left_after result (lists trails.new))
            ≡ call (setting M.Mail level.now) (means M.Mail self.old) (strike (places trails.old) moves.now) }
        ensures kept { KeptBoth trails.old trails.new }
    {
        if !full(trails) {
            return Err(StrikeFault::ShortTrail);
        }
        let made = count_moves(moves)?;
        self.judge_all(level, moves, trails)?;
        self.settle(level, moves, trails);
        Ok(made)
    }

    // Makes the moves that the bytes list all at once, and answers how many. The trails then hold all writes and all sends in order;
    // after a refusal they are empty, and the game is as it was.
    pub fn strike(
        &mut self,
        level: &Level,
        moves: &[u8],
        trails: &mut Trails,
    ) -> Result<usize, StrikeFault>
        ensures call { after_strike result (means M.Mail self.new) (lists trails.new)
            ≡ call (setting M.Mail level.now) (means M.Mail self.old) (strike (places trails.old) moves.now) }
        ensures lent { KeptBoth trails.old trails.new }
    {
        trails.clear();
        let answer = self.beat(level, moves, trails);
        if answer.is_err() {
            trails.clear();
        }
        answer
    }

    // Makes one move of a piece, by the number of a transition or by FF for a discard, and answers 1. It is a step of the published
    // semantics of communicating state machines: it is accepted exactly where that enables the move, and ends where that says.
    pub fn fire(
        &mut self,
        level: &Level,
        piece: u8,
        transition: u8,
        trails: &mut Trails,
    ) -> Result<usize, StrikeFault>
        ensures call { after_strike result (means M.Mail self.new) (lists trails.new)
            ≡ call (setting M.Mail level.now) (means M.Mail self.old) (fire (places trails.old) piece transition) }
        ensures lent { KeptBoth trails.old trails.new }
        ensures step { is_ok result ≡ true
            → Step (setting M.Mail level.now) (means M.Mail self.old) (move_of piece transition) (means M.Mail self.new) }
        ensures enabled { full (places trails.old) ≡ true
            → EndsAsEnabled (setting M.Mail level.now) (means M.Mail self.old) (move_of piece transition) result (means M.Mail self.new) }
    {
        self.strike(level, &[0x51, piece, transition], trails)
    }

    // `strike`, into two trails that are lent each by itself.
    pub fn strike_into(
        &mut self,
        level: &Level,
        moves: &[u8],
        changes: &mut Trail<Change>,
        parcels: &mut Trail<Parcel>,
    ) -> Result<usize, StrikeFault>
        ensures call { after_strike result (means M.Mail self.new) (both changes.new parcels.new)
            ≡ call (setting M.Mail level.now) (means M.Mail self.old) (strike (lent changes.old parcels.old) moves.now) }
        ensures lent { Kept changes.old changes.new × Kept parcels.old parcels.new }
    {
        let mut trails = Trails::take(changes, parcels);
        let answer = self.strike(level, moves, &mut trails);
        trails.give_back(changes, parcels);
        answer
    }

    // `fire`, into two trails that are lent each by itself.
    pub fn fire_into(
        &mut self,
        level: &Level,
        piece: u8,
        transition: u8,
        changes: &mut Trail<Change>,
        parcels: &mut Trail<Parcel>,
    ) -> Result<usize, StrikeFault>
        ensures call { after_strike result (means M.Mail self.new) (both changes.new parcels.new)
            ≡ call (setting M.Mail level.now) (means M.Mail self.old) (fire (lent changes.old parcels.old) piece transition) }
        ensures lent { Kept changes.old changes.new × Kept parcels.old parcels.new }
        ensures step { is_ok result ≡ true
            → Step (setting M.Mail level.now) (means M.Mail self.old) (move_of piece transition) (means M.Mail self.new) }
        ensures enabled { full (lent changes.old parcels.old) ≡ true
            → EndsAsEnabled (setting M.Mail level.now) (means M.Mail self.old) (move_of piece transition) result (means M.Mail self.new) }
    {
        let mut trails = Trails::take(changes, parcels);
        let answer = self.fire(level, piece, transition, &mut trails);
        trails.give_back(changes, parcels);
        answer
    }
}
