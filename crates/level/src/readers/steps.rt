// The steps that all readers are made of.
ghost use Rattle.std.specs.Prelude.{◌≡◌, ◌-◌, ◌<◌, ◌≤◌, ◌&&◌, [], length, drop, if◌then◌else◌, Ok, Err, ◌==◌, nat_le, nat_lt};
ghost use Rattle.level.specs.declared.fault.OperandFault.TheVariants.{OutOfRange};
ghost use Rattle.level.specs.declared.fault.Reason.TheVariants.{Truncated};
ghost use Rattle.level.specs.Reading.{at};
ghost use Rattle.level.specs.Readers.{Moves, nothing, opened};

use crate::cursor::Cursor;
use crate::fault::{OperandFault, Reason};
use arrayvec::ArrayVec;

impl<'a> Cursor<'a> {
    // Past so many bytes.
    pub fn advance(&mut self, count: usize)
        requires { count ≤ length self.old.rest.now }
        ensures rest { self.new.rest.now ≡ drop count self.old.rest.now }
        ensures stays { self.new.total ≡ self.old.total }
    {
        self.rest = &self.rest[count..];
    }

    // The bytes end too soon: what is named is their end.
    pub fn truncated(&mut self) -> Reason
        ensures answer { result ≡ Truncated }
        ensures rest { self.new.rest.now ≡ [] }
        ensures stays { self.new.total ≡ self.old.total }
    {
        self.rest = &[];
        Reason::Truncated
    }

    // Whether the next byte is this command.
    pub fn sees(&self, command: u8) -> bool
        requires { 0 < command }
        ensures { result ≡ (at self.now.rest.now 0 == command) }
    {
        matches!(self.rest, [next, ..] if *next == command)
    }

    // The place of the next byte in the level.
    pub fn place(&self) -> usize
        ensures { result ≡ self.now.total - length self.now.rest.now }
    {
        self.total - self.rest.len()
    }

    // The operand so many bytes after the next command's, which must be from `least` and below `limit`.
    pub fn operand(&self, after: usize, least: usize, limit: usize) -> Result<u8, OperandFault>
        requires { after < length self.now.rest.now }
        ensures { result ≡ (if nat_le least (at self.now.rest.now after) && nat_lt (at self.now.rest.now after) limit then Ok (at self.now.rest.now after) else Err OutOfRange) }
    {
        let value = self.rest[after];
        if (least..limit).contains(&(value as usize)) {
            Ok(value)
        } else {
            Err(OperandFault::OutOfRange)
        }
    }

    // Whether the next command's bytes are all there, and the table has a place for one entry more.
    pub fn opens<T, const N: usize>(
        &mut self,
        size: usize,
        table: &ArrayVec<T, N>,
    ) -> Result<(), Reason>
        ensures { Moves nothing (opened size N (length table.now.items) self.old.rest.now) result self.old self.new }
    {
        if self.rest.len() < size {
            return Err(self.truncated());
        }
        if table.is_full() {
            return Err(OperandFault::TooMany.into());
        }
        Ok(())
    }
}
