// The transitions of a kind.
ghost use Rattle.std.specs.Prelude.{◌≡◌, ◌+◌, ◌-◌, ◌<◌, ◌≤◌, ◌++◌, map, length};
ghost use Rattle.level.specs.Entries.{transition_entry};
ghost use Rattle.level.specs.Places.{in_kind, placed_at};
ghost use Rattle.level.specs.Reading.{at, read_transition, read_transitions};
ghost use Rattle.level.specs.Readers.{Holds, Moves, head_entry, nothing, read_head, receiving, turn};

use crate::cursor::Cursor;
use crate::entry::TransitionEntry;
use crate::fault::{OperandFault, Reason};
use crate::scope::Scope;
use crate::tables::Transitions;

impl<'a> Cursor<'a> {
    // The number into which a parameter is received, of so many where one stands; else the place must hold FF.
    fn receiver(&self, after: usize, numbers: Option<u8>) -> Result<Option<u8>, OperandFault>
        requires { after < length self.now.rest.now }
        ensures { result ≡ receiving numbers (at self.now.rest.now after) }
    {
        match numbers {
            Some(numbers) => self.operand(after, 0, numbers as usize).map(Some),
            None => self.operand(after, 0xFF, 0x100).map(|_| None),
        }
    }

    // A transition by its operands. Its guard comes next; where its effect stands is not known before the guard is read.
    fn head(&mut self, scope: &Scope<'_>) -> Result<TransitionEntry, Reason>
        requires { 6 ≤ length self.old.rest.now }
        ensures { Moves (head_entry scope.now.kind (self.old.total - length self.old.rest.now + 6)) (read_head scope.now.signals.now.counts.items scope.now.shape.numbers scope.now.shape.states self.old.rest.now) result self.old self.new }
    {
        let &Scope {
            signals,
            kind,
            shape,
        } = scope;
        let source = self.operand(1, 0, shape.states as usize)?;
        let target = self.operand(2, 0, shape.states as usize)?;
        let signal = self.operand(3, 0, signals.counts.len() + 1)?;
        let parameters = signals.parameters(signal);
        let first = self.receiver(4, (parameters > 0).then_some(shape.numbers))?;
        let second = self.receiver(5, (parameters > 1).then_some(shape.numbers))?;
        self.advance(6);
        let guard = self.place();
        Ok(TransitionEntry {
            kind,
            source,
            target,
            signal,
            first,
            second,
            guard,
            // A stand-in until the guard is read: a type of its own without it would copy the other seven by hand.
            effect: guard,
        })
    }

    // One transition more than the table has.
    fn transition(
        &mut self,
        scope: &Scope<'_>,
        transitions: &Transitions,
    ) -> Result<TransitionEntry, Reason>
        ensures { Moves (λ t. transition_entry (placed_at scope.now.kind scope.now.shape.numbers (self.old.total - length self.old.rest.now) t)) (turn 6 128 (length transitions.now.items) self.old.rest.now (read_transition scope.now.signals.now.counts.items scope.now.shape.numbers scope.now.shape.states self.old.rest.now)) result self.old self.new }
    {
        self.opens(6, transitions)?;
        let head = self.head(scope)?;
        self.expression(scope.shape.numbers)?;
        let effect = self.place();
        self.effect(scope)?;
        Ok(TransitionEntry { effect, ..head })
    }

    // All transitions of the kind, after those in the table.
    pub fn transitions(
        &mut self,
        scope: &Scope<'_>,
        transitions: &mut Transitions,
    ) -> Result<(), Reason>
        ensures read { Moves nothing (read_transitions scope.now.signals.now.counts.items scope.now.shape.numbers scope.now.shape.states (128 - length transitions.old.items) self.old.rest.now) result self.old self.new }
        ensures table { Holds (read_transitions scope.now.signals.now.counts.items scope.now.shape.numbers scope.now.shape.states (128 - length transitions.old.items) self.old.rest.now) (λ ts. transitions.new.items ≡ transitions.old.items ++ map transition_entry (in_kind scope.now.kind scope.now.shape.numbers (self.old.total - length self.old.rest.now) ts)) }
    {
        while self.sees(0x03) {
            let entry = self.transition(scope, transitions)?;
            transitions.push(entry);
        }
        Ok(())
    }
}
