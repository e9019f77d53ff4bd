// The kinds of a level.
ghost use Rattle.std.specs.Prelude.{◌≡◌, ◌+◌, ◌-◌, [], ◌++◌, map, length};
ghost use Rattle.level.specs.Entries.{kind_entry, transition_entry};
ghost use Rattle.level.specs.Places.{in_kind, in_kinds};
ghost use Rattle.level.specs.Reading.{read_kind, read_kinds};
ghost use Rattle.level.specs.Readers.{Holds, Moves, nothing, read_shape, turn};

use crate::cursor::Cursor;
use crate::entry::KindEntry;
use crate::fault::Reason;
use crate::scope::Scope;
use crate::tables::{Kinds, Signals, Transitions};

impl<'a> Cursor<'a> {
    // The operands of one kind more than the table has.
    fn shape(&mut self, kinds: &Kinds) -> Result<KindEntry, Reason>
        ensures { Moves (λ k. k) (turn 3 16 (length kinds.now.entries.items) self.old.rest.now (read_shape self.old.rest.now)) result self.old self.new }
    {
        self.opens(3, &kinds.entries)?;
        let numbers = self.operand(1, 0, 9)?;
        let states = self.operand(2, 1, 17)?;
        self.advance(3);
        Ok(KindEntry { numbers, states })
    }

    // One kind more than the table has, with its transitions.
    fn kind(
        &mut self,
        signals: &Signals,
        kinds: &Kinds,
        transitions: &mut Transitions,
    ) -> Result<KindEntry, Reason>
        ensures read { Moves kind_entry (turn 3 16 (length kinds.now.entries.items) self.old.rest.now (read_kind signals.now.counts.items (length transitions.old.items) self.old.rest.now)) result self.old self.new }
        ensures table { Holds (turn 3 16 (length kinds.now.entries.items) self.old.rest.now (read_kind signals.now.counts.items (length transitions.old.items) self.old.rest.now)) (λ k. transitions.new.items ≡ transitions.old.items ++ map transition_entry (in_kind (length kinds.now.entries.items) k.numbers (self.old.total - length self.old.rest.now + 3) k.transitions)) }
    {
        let shape = self.shape(kinds)?;
        let scope = Scope {
            signals,
            kind: kinds.entries.len() as u8,
            shape,
        };
        self.transitions(&scope, transitions)?;
        Ok(shape)
    }

    // All kinds with their transitions, into empty tables.
    pub fn kinds(
        &mut self,
        signals: &Signals,
        kinds: &mut Kinds,
        transitions: &mut Transitions,
    ) -> Result<(), Reason>
        requires kinds { kinds.old.entries.items ≡ [] }
        requires transitions { transitions.old.items ≡ [] }
        ensures read { Moves nothing (read_kinds signals.now.counts.items self.old.rest.now) result self.old self.new }
        ensures kinds { Holds (read_kinds signals.now.counts.items self.old.rest.now) (λ ks. kinds.new.entries.items ≡ map kind_entry ks) }
        ensures transitions { Holds (read_kinds signals.now.counts.items self.old.rest.now) (λ ks. transitions.new.items ≡ map transition_entry (in_kinds 0 (self.old.total - length self.old.rest.now) ks)) }
    {
        while self.sees(0x02) {
            let shape = self.kind(signals, kinds, transitions)?;
            kinds.push(shape);
        }
        Ok(())
    }
}
