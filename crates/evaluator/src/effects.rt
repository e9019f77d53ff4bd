// Statements and effects.
ghost use Rattle.std.specs.Prelude.{◌≡◌, true, slice_index};
ghost use Rattle.level.specs.Levels.{code, meaning};
ghost use Rattle.level.specs.Sound.{most_statements, parameters};
ghost use Rattle.evaluator.specs.Meeting.{around, lists_or, message_at, sight_of, stepped, steps_at, there, with_lists};
ghost use Rattle.evaluator.specs.Reckoning.{legible};
ghost use Rattle.evaluator.specs.Standing.{effect_at, expressions_at, statement_at};
ghost use Rattle.evaluator.specs.Trails.{KeptBoth, held, lists, places};

use crate::names::{cell_named, piece_named};
use crate::trail::Trails;
use crate::turn::Turn;
use level::Level;
use mail::Mail;
use mail::message::Message;
use rules::fault::{Cause, Stumble, Why};
use rules::trail::{Change, Parcel};

// How many numbers a message of this signal has; one that is not declared has none. Apart from its call, so that a clause says in
// the rules' word what the level's answer and the 0 come to.
fn parameters(level: &Level, signal: u8) -> u8
    ensures { result ≡ parameters (meaning level.now).signals signal }
{
    level.parameters(signal as usize).unwrap_or(0)
}

// The piece that a command at this place names, or the stumble where there is none.
fn there(named: Option<u8>, place: usize) -> Result<u8, Stumble>
    ensures { result ≡ there named place }
{
    named.ok_or(Stumble {
        cause: Cause::Missing,
        place,
    })
}

// That the code at a place was read is required, and not held by a struct: it would lend the level with every place.
impl<M: Mail> Turn<'_, M> {
    // The message of a signal whose numbers are the values of the expressions at a place, and the place after them.
    fn message(&self, signal: u8, at: usize, trails: &Trails) -> Result<(Message, usize), Why>
        requires { legible (expressions_at self.now.level.now signal at) ≡ true }
        ensures { result ≡ message_at (sight_of self.now (held trails.now.changes)) signal at (expressions_at self.now.level.now signal at) }
    {
        let (first, second, next) = match parameters(self.level, signal) {
            0 => (0, 0, at),
            1 => {
                let (first, next) = self.expression(at, trails)?;
                (first, 0, next)
            }
            _ => {
                let (first, middle) = self.expression(at, trails)?;
                let (second, next) = self.expression(middle, trails)?;
                (first, second, next)
            }
        };
        Ok((
            Message {
                signal,
                first,
                second,
            },
            next,
        ))
    }

    // An own number becomes a value. Like the two after it, this carries out the statement at a place, and answers the place after it.
    fn assign(&self, at: usize, trails: &mut Trails) -> Result<usize, Why>
        requires legible { legible (statement_at self.now.level.now at) ≡ true }
        requires byte { slice_index (code self.now.level.now) at ≡ 0x20 }
        ensures lists { with_lists result (lists trails.new) ≡ stepped M.Mail self.now trails.old at }
        ensures kept { KeptBoth trails.old trails.new }
    {
        let number = self.level.code()[at + 1];
        let (value, next) = self.expression(at + 2, trails)?;
        self.write(self.own_change(number, value), &mut trails.changes)?;
        Ok(next)
    }

    // A number of a piece becomes a value. Not one with `assign`: there the cell is an own one, here an expression names it.
    fn store(&self, at: usize, trails: &mut Trails) -> Result<usize, Why>
        requires legible { legible (statement_at self.now.level.now at) ≡ true }
        requires byte { slice_index (code self.now.level.now) at ≡ 0x21 }
        ensures lists { with_lists result (lists trails.new) ≡ stepped M.Mail self.now trails.old at }
        ensures kept { KeptBoth trails.old trails.new }
    {
        let number = self.level.code()[at + 1];
        let (named, middle) = self.expression(at + 2, trails)?;
        let (value, next) = self.expression(middle, trails)?;
        let piece = there(cell_named(self.level, named, number), at)?;
        self.write(
            Change {
                piece,
                number,
                value,
            },
            &mut trails.changes,
        )?;
        Ok(next)
    }

    // A message goes to a piece.
    fn post(&self, at: usize, trails: &mut Trails) -> Result<usize, Why>
        requires legible { legible (statement_at self.now.level.now at) ≡ true }
        requires byte { slice_index (code self.now.level.now) at ≡ 0x22 }
        ensures lists { with_lists result (lists trails.new) ≡ stepped M.Mail self.now trails.old at }
        ensures kept { KeptBoth trails.old trails.new }
    {
        let signal = self.level.code()[at + 1];
        let (named, middle) = self.expression(at + 2, trails)?;
        let (message, next) = self.message(signal, middle, trails)?;
        let piece = there(piece_named(self.level, named), at)?;
        self.send(Parcel { piece, message }, &mut trails.parcels)?;
        Ok(next)
    }

    // The statement at a place, and the place after it.
    fn statement(&self, at: usize, trails: &mut Trails) -> Result<usize, Why>
        requires { legible (statement_at self.now.level.now at) ≡ true }
        ensures lists { with_lists result (lists trails.new) ≡ stepped M.Mail self.now trails.old at }
        ensures kept { KeptBoth trails.old trails.new }
    {
        match self.level.code()[at] {
            0x20 => self.assign(at, trails),
            0x21 => self.store(at, trails),
            0x22 => self.post(at, trails),
            _ => unreachable(),
        }
    }

    // The statements of an effect from a place on, of which `left` may still come. It calls itself, as the definition does, since
    // the length of an effect is not known before.
    fn statements(&self, at: usize, left: u8, trails: &mut Trails) -> Result<(), Why>
        requires { legible (effect_at self.now.level.now left at) ≡ true }
        ensures lists { lists_or result (lists trails.new) ≡ steps_at (around M.Mail self.now (places trails.old)) (lists trails.old) at (effect_at self.now.level.now left at) }
        ensures kept { KeptBoth trails.old trails.new }
    {
        if self.level.code()[at] == 0x00 {
            return Ok(());
        }
        let next = self.statement(at, trails)?;
        self.statements(next, left - 1, trails)
    }

    // The whole effect at a place.
    pub(crate) fn effect(&self, at: usize, trails: &mut Trails) -> Result<(), Why>
        requires { legible (effect_at self.now.level.now most_statements at) ≡ true }
        ensures lists { lists_or result (lists trails.new) ≡ steps_at (around M.Mail self.now (places trails.old)) (lists trails.old) at (effect_at self.now.level.now most_statements at) }
        ensures kept { KeptBoth trails.old trails.new }
    {
        self.statements(at, 8, trails)
    }
}
