// Judging: whether moves may be made, and what they would write and send. The game stays as it is.
ghost use Rattle.std.specs.Prelude.{◌≡◌, true, is_ok, nat_lt};
ghost use Rattle.mail.specs.Trays.{front};
ghost use Rattle.level.specs.Levels.{meaning};
ghost use Rattle.rules.specs.declared.moves.Act.TheVariants.{Transition, Discard};
ghost use Rattle.rules.specs.Beat.{and_so};
ghost use Rattle.rules.specs.Names.{transition_of};
ghost use Rattle.evaluator.specs.Lookup.{parcels_to};
ghost use Rattle.evaluator.specs.Meeting.{lists_or};
ghost use Rattle.evaluator.specs.Trails.{KeptBoth, held, lists};
ghost use Rattle.game.specs.Judged.{awaited, before, deed_of, entry_of, judged, Roomy};

use crate::board::Game;
use evaluator::listed::Listed;
use evaluator::lookup::parcels_to;
use evaluator::trail::Trails;
use evaluator::turn::Turn;
use level::Level;
use level::entry::TransitionEntry;
use mail::Mail;
use mail::message::Message;
use rules::fault::Why;
use rules::moves::{Act, Move};

// The transition of a number, if it belongs to the kind of a piece.
fn transition_of(level: &Level, piece: u8, number: u8) -> Option<TransitionEntry>
    ensures { result ≡ entry_of (transition_of (meaning level.now) piece number) }
{
    let entry = level.piece(piece as usize)?;
    level
        .transition(number as usize)
        .filter(|found| found.kind == entry.kind)
}

impl<M: Mail> Game<M> {
    // The message that a transition on this signal takes from the tray of a piece: none if it is spontaneous.
    fn awaited(&self, piece: u8, signal: u8, trails: &Trails) -> Result<Option<Message>, Why>
        ensures { result ≡ awaited signal (nat_lt 0 (parcels_to (held trails.now.parcels) piece)) (front (M.Mail.trays self.now.mail piece)) }
    {
        if signal == 0 {
            return Ok(None);
        }
        let message = self
            .mail
            .look(piece)
            .filter(|message| message.signal == signal)
            .ok_or(Why::NoMessage)?;
        match parcels_to(trails.parcels.entries(), piece) {
            0 => Ok(Some(message)),
            _ => Err(Why::Clash),
        }
    }

    // A move of a piece by the transition of a number: the checks in their order, then its evaluation. What was noted and the trails
    // stay two arguments, here and below: a discard changes the one and not the other.
    fn judge_transition(
        &self,
        level: &Level,
        listed: &mut Listed,
        piece: u8,
        number: u8,
        trails: &mut Trails,
    ) -> Result<(), Why>
        requires { Roomy trails.old }
        ensures lists { lists_or result (lists trails.new)
            ≡ judged M.Mail level.now self.now listed.old trails.old (record { piece = piece; act = Transition number }) }
        ensures earlier { is_ok result ≡ true → before listed.new trails.new
            ≡ and_so (before listed.old trails.old) (deed_of M.Mail level.now self.now (record { piece = piece; act = Transition number })) }
        ensures kept { KeptBoth trails.old trails.new }
    {
        let Some(found) = transition_of(level, piece, number) else {
            return Err(Why::Unknown);
        };
        if listed.has_moved(piece) {
            return Err(Why::MovesAlready);
        }
        if self.table.state(piece) != found.source {
            return Err(Why::OtherState);
        }
        let message = self.awaited(piece, found.signal, trails)?;
        listed.note(piece, found.signal != 0);
        let turn = Turn {
            level,
            table: &self.table,
            mail: &self.mail,
            listed,
            mover: piece,
            written: trails.changes.len(),
            sent: trails.parcels.len(),
        };
        turn.transit(number as usize, message, trails)
    }

    // A discard by a piece: the checks in their order, then the trial of the guards.
    fn judge_discard(
        &self,
        level: &Level,
        listed: &mut Listed,
        piece: u8,
        trails: &Trails,
    ) -> Result<(), Why>
        requires { Roomy trails.now }
        ensures lists { lists_or result (lists trails.now)
            ≡ judged M.Mail level.now self.now listed.old trails.now (record { piece = piece; act = Discard }) }
        ensures earlier { is_ok result ≡ true → before listed.new trails.now
            ≡ and_so (before listed.old trails.now) (deed_of M.Mail level.now self.now (record { piece = piece; act = Discard })) }
    {
        let Some(entry) = level.piece(piece as usize) else {
            return Err(Why::Unknown);
        };
        if listed.has_moved(piece) {
            return Err(Why::MovesAlready);
        }
        let Some(message) = self.mail.look(piece) else {
            return Err(Why::NoMessage);
        };
        if parcels_to(trails.parcels.entries(), piece) > 0 {
            return Err(Why::Clash);
        }
        listed.note(piece, true);
        // Written out here and above: a function that makes it would need a clause for each field.
        let turn = Turn {
            level,
            table: &self.table,
            mail: &self.mail,
            listed,
            mover: piece,
            written: trails.changes.len(),
            sent: trails.parcels.len(),
        };
        turn.discard(entry.kind, message, &trails.changes)
    }

    // A move, after those listed before it.
    pub(crate) fn judge(
        &self,
        level: &Level,
        listed: &mut Listed,
        moving: Move,
        trails: &mut Trails,
    ) -> Result<(), Why>
        requires { Roomy trails.old }
        ensures lists { lists_or result (lists trails.new)
            ≡ judged M.Mail level.now self.now listed.old trails.old moving }
        ensures earlier { is_ok result ≡ true → before listed.new trails.new
            ≡ and_so (before listed.old trails.old) (deed_of M.Mail level.now self.now moving) }
        ensures kept { KeptBoth trails.old trails.new }
    {
        match moving.act {
            Act::Transition(number) => {
                self.judge_transition(level, listed, moving.piece, number, trails)
            }
            Act::Discard => self.judge_discard(level, listed, moving.piece, trails),
        }
    }
}
