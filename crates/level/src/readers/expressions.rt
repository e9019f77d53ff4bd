// Expressions, by recursion over the prefix code.
ghost use Rattle.level.specs.Reading.{read_expr, read_exprs};
ghost use Rattle.level.specs.Readers.{Moves, nothing};
ghost use Rattle.level.specs.Sound.{deepest};

use crate::cursor::Cursor;
use crate::fault::{OperandFault, Reason};

impl<'a> Cursor<'a> {
    // An expression nested at most `depth` deep, in a kind of so many numbers.
    pub fn nested(&mut self, depth: u8, numbers: u8) -> Result<(), Reason>
        ensures { Moves nothing (read_expr depth numbers self.old.rest.now) result self.old self.new }
    {
        let code = self.rest;
        let [command, ..] = code else {
            return Err(self.truncated());
        };
        // Lengths and operands are tested by guards: under slice patterns of several lengths an arm is reached on two or three ways,
        // and its proof goes by names that the checker makes up for them.
        match *command {
            0x10..=0x1D if depth == 0 => Err(Reason::TooDeep),
            0x10 if code.len() < 5 => Err(self.truncated()),
            0x10 => {
                self.advance(5);
                Ok(())
            }
            0x11 => {
                self.advance(1);
                Ok(())
            }
            0x12 if code.len() < 2 => Err(self.truncated()),
            0x12 if code[1] >= numbers => Err(OperandFault::OutOfRange.into()),
            0x12 => {
                self.advance(2);
                Ok(())
            }
            0x13 if code.len() < 2 => Err(self.truncated()),
            0x13 if code[1] >= 8 => Err(OperandFault::OutOfRange.into()),
            0x13 => {
                self.advance(2);
                self.nested(depth - 1, numbers)
            }
            0x14..=0x1C => {
                self.advance(1);
                self.nested(depth - 1, numbers)?;
                self.nested(depth - 1, numbers)
            }
            0x1D => {
                self.advance(1);
                self.nested(depth - 1, numbers)
            }
            _ => Err(Reason::NotCommand),
        }
    }

    // A whole expression.
    pub fn expression(&mut self, numbers: u8) -> Result<(), Reason>
        ensures { Moves nothing (read_expr deepest numbers self.old.rest.now) result self.old self.new }
    {
        self.nested(8, numbers)
    }

    // So many expressions, by recursion, as the definition reads them: so the proof finds itself, where a loop over `0..count` takes
    // an invariant on how all that may follow is read, two lemmas and four answers.
    pub fn expressions(&mut self, count: u8, numbers: u8) -> Result<(), Reason>
        ensures { Moves nothing (read_exprs count numbers self.old.rest.now) result self.old self.new }
    {
        if count == 0 {
            return Ok(());
        }
        self.expression(numbers)?;
        self.expressions(count - 1, numbers)
    }
}
