// Expressions, by recursion over the prefix code.
ghost use Rattle.std.specs.Prelude.{◌≡◌, ◌+◌, ◌≤◌, true, length, slice_index};
ghost use Rattle.level.specs.Reading.{number};
ghost use Rattle.level.specs.Sound.{deepest};
ghost use Rattle.evaluator.specs.Reckoning.{cell_value, faulted, legible, sight, told, value_at};
ghost use Rattle.evaluator.specs.Standing.{expression_at};

use crate::arithmetic::{computed, holds, truth};
use crate::halt::Halt;
use crate::lookup::last_change;
use crate::names::cell_named;
use crate::view::View;
use rules::fault::{Cause, Stumble, Why};

// The number in the four bytes from a place on.
fn number_at(code: &[u8], at: usize) -> i32
    requires { at + 4 ≤ length code.now }
    ensures { result ≡ number (slice_index code.now at) (slice_index code.now (at + 1)) (slice_index code.now (at + 2)) (slice_index code.now (at + 3)) }
{
    i32::from_be_bytes([code[at], code[at + 1], code[at + 2], code[at + 3]])
}

impl Halt {
    // The refusal, where the reading of the code stopped at this place.
    fn at(self, place: usize) -> Why
        ensures { result ≡ faulted self place }
    {
        match self {
            Halt::Clash => Why::Clash,
            Halt::Stumbles(cause) => Why::Stumbles(Stumble { cause, place }),
        }
    }
}

impl View<'_> {
    // The value of a cell: the own one, if the move has written it. Else it is a read, which clashes with an earlier write.
    fn read(&self, piece: u8, number: u8) -> Result<i32, Halt>
        ensures { result ≡ cell_value (sight self.now) piece number }
    {
        if let Some(value) = last_change(self.own, piece, number) {
            return Ok(value);
        }
        if last_change(self.earlier, piece, number).is_some() {
            return Err(Halt::Clash);
        }
        Ok(self.table.number(piece, number as usize))
    }

    // The value of the expression at a place, which moves past it; at a stumble, to the command that met it. One match over the
    // command bytes, which calls itself as the depth falls, is a rule of the project.
    fn nested(&self, at: &mut usize, depth: u8) -> Result<i32, Halt>
        requires { legible (expression_at self.now.level.now depth at.old) ≡ true }
        ensures { told result at.new ≡ value_at (sight self.now) at.old (expression_at self.now.level.now depth at.old) }
    {
        let code = self.level.code();
        let here = *at;
        match code[here] {
            0x10 => {
                *at = here + 5;
                Ok(number_at(code, here + 1))
            }
            0x11 => {
                *at = here + 1;
                Ok(i32::from(self.mover))
            }
            0x12 => {
                *at = here + 2;
                self.read(self.mover, code[here + 1])
            }
            0x13 => {
                let number = code[here + 1];
                *at = here + 2;
                let named = self.nested(at, depth - 1)?;
                let Some(piece) = cell_named(self.level, named, number) else {
                    *at = here;
                    return Err(Halt::Stumbles(Cause::Missing));
                };
                self.read(piece, number)
            }
            0x14..=0x1C => {
                *at = here + 1;
                let left = self.nested(at, depth - 1)?;
                let right = self.nested(at, depth - 1)?;
                let Some(value) = computed(code[here], left, right) else {
                    *at = here;
                    return Err(Halt::Stumbles(Cause::ZeroDivisor));
                };
                Ok(value)
            }
            0x1D => {
                *at = here + 1;
                let value = self.nested(at, depth - 1)?;
                Ok(truth(!holds(value)))
            }
            _ => unreachable(),
        }
    }

    // The value of the whole expression at a place, and the place after it. Both answers hold the place where the reading stopped, so
    // a match is plainer than a map of each.
    pub fn expression(&self, at: usize) -> Result<(i32, usize), Why>
        requires { legible (expression_at self.now.level.now deepest at) ≡ true }
        ensures { result ≡ value_at (sight self.now) at (expression_at self.now.level.now deepest at) }
    {
        let mut place = at;
        match self.nested(&mut place, 8) {
            Ok(value) => Ok((value, place)),
            Err(halt) => Err(halt.at(place)),
        }
    }
}
