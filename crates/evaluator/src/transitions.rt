// A move's evaluation: that of a transition, and that of a discard.
ghost use Rattle.std.specs.Prelude.{◌≡◌, true, ◌&&◌, ◌==◌};
ghost use Rattle.level.specs.Levels.{meaning};
ghost use Rattle.level.specs.Places.{placed};
ghost use Rattle.level.specs.Sound.{deepest};
ghost use Rattle.level.specs.Tables.{nth};
ghost use Rattle.rules.specs.Trace.{unwanted};
ghost use Rattle.evaluator.specs.Meeting.{around, lists_or, receiving, sight_with, transiting_by};
ghost use Rattle.evaluator.specs.Reckoning.{board_of, legible};
ghost use Rattle.evaluator.specs.Rows.{states_of};
ghost use Rattle.evaluator.specs.Standing.{expression_at};
ghost use Rattle.evaluator.specs.Trails.{KeptBoth, held, lists, places};
ghost use Rattle.evaluator.specs.Trying.{discarded, held_at, numbers_of, trial_of, tried_at, wanted_at};

use crate::arithmetic::holds;
use crate::trail::{Trail, Trails};
use crate::turn::Turn;
use level::entry::TransitionEntry;
use mail::Mail;
use mail::message::Message;
use rules::fault::Why;
use rules::trail::Change;

// Whether a transition is one of this kind that leaves this state on the message's signal.
fn wants(found: TransitionEntry, kind: u8, state: u8, message: Message) -> bool
    ensures { result ≡ (found.kind == kind && (found.source == state && found.signal == message.signal)) }
{
    found.kind == kind && found.source == state && found.signal == message.signal
}

impl<M: Mail> Turn<'_, M> {
    // A number of the mover becomes a number of the message, if one receives it.
    fn receive(&self, into: Option<u8>, value: i32, trails: &mut Trails) -> Result<(), Why>
        ensures lists { lists_or result (lists trails.new) ≡ receiving (around M.Mail self.now (places trails.old)) (lists trails.old) (numbers_of into value) }
        ensures kept { KeptBoth trails.old trails.new }
    {
        let Some(number) = into else {
            return Ok(());
        };
        self.write(self.own_change(number, value), &mut trails.changes)
    }

    // The numbers of the message are received in order, before the guard.
    fn received(
        &self,
        found: TransitionEntry,
        message: Option<Message>,
        trails: &mut Trails,
    ) -> Result<(), Why>
        ensures lists { lists_or result (lists trails.new) ≡ receiving (around M.Mail self.now (places trails.old)) (lists trails.old) (trial_of found message) }
        ensures kept { KeptBoth trails.old trails.new }
    {
        let Some(message) = message else {
            return Ok(());
        };
        self.receive(found.first, message.first, trails)?;
        self.receive(found.second, message.second, trails)
    }

    // Whether the guard at a place holds, with these changes as the move's own and all in the trail as earlier ones.
    fn trial(&self, at: usize, own: &[Change], changes: &Trail<Change>) -> Result<bool, Why>
        requires { legible (expression_at self.now.level.now deepest at) ≡ true }
        ensures { result ≡ held_at (sight_with self.now (held changes.now) own.now) at (expression_at self.now.level.now deepest at) }
    {
        let view = self.view(changes.entries(), own);
        let (value, _) = view.expression(at)?;
        Ok(holds(value))
    }

    // Whether a transition, which wants the message, has a true guard. The numbers that it would receive are laid over for the trial
    // only. A second is never without a first.
    fn tried(
        &self,
        found: TransitionEntry,
        message: Message,
        changes: &Trail<Change>,
    ) -> Result<bool, Why>
        requires { legible (expression_at self.now.level.now deepest found.guard) ≡ true }
        ensures { result ≡ tried_at self.now (held changes.now) message found }
    {
        match (found.first, found.second) {
            (Some(first), Some(second)) => {
                let own = [
                    self.own_change(first, message.first),
                    self.own_change(second, message.second),
                ];
                self.trial(found.guard, &own, changes)
            }
            (Some(first), None) => {
                let own = [self.own_change(first, message.first)];
                self.trial(found.guard, &own, changes)
            }
            (None, _) => self.trial(found.guard, &[], changes),
        }
    }

    // Whether a transition is one of this kind that wants the message in the mover's state, and has a true guard.
    fn wanted(
        &self,
        found: TransitionEntry,
        kind: u8,
        message: Message,
        changes: &Trail<Change>,
    ) -> Result<bool, Why>
        requires { legible (expression_at self.now.level.now deepest found.guard) ≡ true }
        ensures { result ≡ wanted_at self.now (held changes.now) kind message found }
    {
        if !wants(found, kind, self.table.state(self.mover), message) {
            return Ok(false);
        }
        self.tried(found, message, changes)
    }

    // A discard by a piece of this kind: refused where a transition that wants the message has a true guard, each tried in level
    // order.
    pub fn discard(&self, kind: u8, message: Message, changes: &Trail<Change>) -> Result<(), Why>
        ensures { result ≡ discarded (held changes.now) (unwanted (meaning self.now.level.now) (board_of self.now.table.now) self.now.mover kind (states_of self.now.table.now self.now.mover) message (placed (meaning self.now.level.now))) }
    {
        for found in self.level.transitions() {
            if self.wanted(*found, kind, message, changes)? {
                return Err(Why::Guard);
            }
        }
        Ok(())
    }

    // The transition of a number: it receives the numbers of the message that it takes, if it takes one; its guard must be true; then
    // its effect is carried out.
    pub fn transit(
        &self,
        number: usize,
        message: Option<Message>,
        trails: &mut Trails,
    ) -> Result<(), Why>
        ensures lists { lists_or result (lists trails.new) ≡ transiting_by (around M.Mail self.now (places trails.old)) (lists trails.old) (nth (placed (meaning self.now.level.now)) number) message }
        ensures kept { KeptBoth trails.old trails.new }
    {
        let Some(found) = self.level.transition(number) else {
            return Err(Why::Unknown);
        };
        self.received(found, message, trails)?;
        let (value, _) = self.expression(found.guard, trails)?;
        if !holds(value) {
            return Err(Why::Guard);
        }
        self.effect(found.effect, trails)
    }
}
