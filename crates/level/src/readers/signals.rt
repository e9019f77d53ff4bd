// The signals of a level.
ghost use Rattle.std.specs.Prelude.{◌≡◌, [], length};
ghost use Rattle.level.specs.Reading.{read_signal, read_signals};
ghost use Rattle.level.specs.Readers.{Holds, Moves, nothing, turn};

use crate::cursor::Cursor;
use crate::fault::Reason;
use crate::tables::Signals;

impl<'a> Cursor<'a> {
    // One signal more than the table has: how many parameters it has.
    fn signal(&mut self, signals: &Signals) -> Result<u8, Reason>
        ensures { Moves (λ n. n) (turn 2 32 (length signals.now.counts.items) self.old.rest.now (read_signal self.old.rest.now)) result self.old self.new }
    {
        self.opens(2, &signals.counts)?;
        let count = self.operand(1, 0, 3)?;
        self.advance(2);
        Ok(count)
    }

    // All signals, into an empty table.
    pub fn signals(&mut self, signals: &mut Signals) -> Result<(), Reason>
        requires { signals.old.counts.items ≡ [] }
        ensures read { Moves nothing (read_signals self.old.rest.now) result self.old self.new }
        ensures table { Holds (read_signals self.old.rest.now) (λ ss. signals.new.counts.items ≡ ss) }
    {
        while self.sees(0x01) {
            let count = self.signal(signals)?;
            signals.push(count);
        }
        Ok(())
    }
}
