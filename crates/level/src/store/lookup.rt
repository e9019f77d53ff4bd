// Looking up what stands in a level. Pieces, kinds and transitions have a lookup each: each is of another table, with its own promise.
ghost use Rattle.std.specs.Prelude.{◌≡◌, map, length};
ghost use Rattle.level.specs.Entries.{kind_entry, piece_entry, transition_entry};
ghost use Rattle.level.specs.Levels.{code, meaning, signal_parameters};
ghost use Rattle.level.specs.Places.{placed};
ghost use Rattle.level.specs.Sound.{counts};
ghost use Rattle.level.specs.Tables.{nth};

use super::Level;
use crate::entry::{KindEntry, PieceEntry, TransitionEntry};

impl<'a> Level<'a> {
    // Its bytes, in which the code of its transitions stands.
    pub fn code(&self) -> &'a [u8]
        ensures { result.now ≡ code self.now }
    {
        self.bytes
    }

    // How many pieces it has.
    pub fn pieces(&self) -> usize
        ensures { result ≡ length (meaning self.now).pieces }
    {
        self.index.pieces.len()
    }

    // The piece of this number, if there is one.
    pub fn piece(&self, number: usize) -> Option<PieceEntry>
        ensures { result ≡ nth (map (piece_entry (counts (meaning self.now).kinds)) (meaning self.now).pieces) number }
    {
        self.index.pieces.get(number).copied()
    }

    // The kind of this number, if there is one.
    pub fn kind(&self, number: usize) -> Option<KindEntry>
        ensures { result ≡ nth (map kind_entry (meaning self.now).kinds) number }
    {
        self.index.kinds.entries.get(number).copied()
    }

    // All transitions, in the level's order: a transition's number is its place here.
    pub fn transitions(&self) -> &[TransitionEntry]
        ensures { result.now ≡ map transition_entry (placed (meaning self.now)) }
    {
        self.index.transitions.as_slice()
    }

    // The transition of this number, counted through the level, if there is one.
    pub fn transition(&self, number: usize) -> Option<TransitionEntry>
        ensures { result ≡ nth (map transition_entry (placed (meaning self.now))) number }
    {
        self.index.transitions.get(number).copied()
    }

    // How many parameters this signal has; signals are numbered from 1.
    pub fn parameters(&self, signal: usize) -> Option<u8>
        ensures { result ≡ signal_parameters (meaning self.now).signals signal }
    {
        self.index.signals.get(signal)
    }
}
