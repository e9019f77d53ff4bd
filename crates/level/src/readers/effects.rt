// Statements and effects.
ghost use Rattle.level.specs.Reading.{read_effect, read_stmt};
ghost use Rattle.level.specs.Readers.{Moves, nothing};
ghost use Rattle.level.specs.Sound.{most_statements};

use crate::cursor::Cursor;
use crate::fault::{OperandFault, Reason};
use crate::scope::Scope;

impl<'a> Cursor<'a> {
    // A statement.
    pub fn statement(&mut self, scope: &Scope<'_>) -> Result<(), Reason>
        ensures { Moves nothing (read_stmt scope.now.signals.now.counts.items scope.now.shape.numbers self.old.rest.now) result self.old self.new }
    {
        let numbers = scope.shape.numbers;
        let code = self.rest;
        let [command, ..] = code else {
            return Err(self.truncated());
        };
        match *command {
            0x20..=0x22 if code.len() < 2 => Err(self.truncated()),
            0x20 if code[1] >= numbers => Err(OperandFault::OutOfRange.into()),
            0x20 => {
                self.advance(2);
                self.expression(numbers)
            }
            0x21 if code[1] >= 8 => Err(OperandFault::OutOfRange.into()),
            0x21 => {
                self.advance(2);
                self.expression(numbers)?;
                self.expression(numbers)
            }
            0x22 => {
                let signal = scope.signals.get(code[1] as usize);
                let parameters = signal.ok_or(OperandFault::OutOfRange)?;
                self.advance(2);
                self.expression(numbers)?;
                self.expressions(parameters, numbers)
            }
            _ => Err(Reason::NotCommand),
        }
    }

    // The statements of an effect, of which `left` may still come, and its end: by recursion, as the definition reads them.
    pub fn statements(&mut self, left: u8, scope: &Scope<'_>) -> Result<(), Reason>
        ensures { Moves nothing (read_effect scope.now.signals.now.counts.items scope.now.shape.numbers left self.old.rest.now) result self.old self.new }
    {
        let [command, ..] = self.rest else {
            return Err(self.truncated());
        };
        match *command {
            0x00 => {
                self.advance(1);
                Ok(())
            }
            0x20..=0x22 if left == 0 => Err(Reason::TooManyStatements),
            0x20..=0x22 => {
                self.statement(scope)?;
                self.statements(left - 1, scope)
            }
            _ => Err(Reason::NotCommand),
        }
    }

    // A whole effect.
    pub fn effect(&mut self, scope: &Scope<'_>) -> Result<(), Reason>
        ensures { Moves nothing (read_effect scope.now.signals.now.counts.items scope.now.shape.numbers most_statements self.old.rest.now) result self.old self.new }
    {
        self.statements(8, scope)
    }
}
