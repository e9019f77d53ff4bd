// The kinds by number. `new` and `push` are like those of the signals, but the bound on what is pushed is their own.
ghost use Rattle.std.specs.Prelude.{◌≡◌, ◌<◌, ◌≤◌, [], ◌∷◌, ◌++◌, length, slice_index};
ghost use Rattle.level.specs.Tables.{entry_counts};

use super::Kinds;
use crate::entry::KindEntry;
use arrayvec::ArrayVec;

impl Kinds {
    // No kinds.
    pub fn new() -> Self
        ensures { result.entries.items ≡ [] }
    {
        Kinds {
            entries: ArrayVec::new(),
        }
    }

    // One more at the end.
    pub fn push(&mut self, entry: KindEntry)
        requires room { length self.old.entries.items < 16 }
        requires small { entry.numbers ≤ 8 }
        ensures { self.new.entries.items ≡ self.old.entries.items ++ (entry ∷ []) }
    {
        self.entries.push(entry);
    }

    // How many numbers the pieces of a kind have.
    pub fn numbers(&self, kind: u8) -> u8
        ensures value { result ≡ slice_index (entry_counts self.now.entries.items) kind }
        ensures small { result ≤ 8 }
    {
        self.entries
            .get(kind as usize)
            .map_or(0, |entry| entry.numbers)
    }
}
