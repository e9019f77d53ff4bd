// The signals by number. `new` and `push` are like those of the kinds, but the bound on what is pushed is their own.
ghost use Rattle.std.specs.Prelude.{◌≡◌, ◌<◌, ◌≤◌, [], ◌∷◌, ◌++◌, length};
ghost use Rattle.level.specs.Levels.{signal_parameters};
ghost use Rattle.level.specs.Sound.{parameters};

use super::Signals;
use arrayvec::ArrayVec;

impl Signals {
    // No signals.
    pub fn new() -> Self
        ensures { result.counts.items ≡ [] }
    {
        Signals {
            counts: ArrayVec::new(),
        }
    }

    // One more at the end.
    pub fn push(&mut self, count: u8)
        requires room { length self.old.counts.items < 32 }
        requires few { count ≤ 2 }
        ensures { self.new.counts.items ≡ self.old.counts.items ++ (count ∷ []) }
    {
        self.counts.push(count);
    }

    // How many parameters a signal has, if it is declared: signals are numbered from 1.
    pub fn get(&self, signal: usize) -> Option<u8>
        ensures { result ≡ signal_parameters self.now.counts.items signal }
    {
        let at = signal.checked_sub(1)?;
        self.counts.get(at).copied()
    }

    // The same; none where it is not declared.
    pub fn parameters(&self, signal: u8) -> u8
        ensures { result ≡ parameters self.now.counts.items signal }
    {
        self.get(signal as usize).unwrap_or(0)
    }
}
