// Moves noted, and looked up.
ghost use Rattle.std.specs.Prelude.{◌≡◌, false, ◌&&◌, ◌||◌};
ghost use Rattle.evaluator.specs.Listing.{moved_in, note_of, noted, took_in};

use super::{Listed, Note};

impl Listed {
    // No move yet.
    pub fn new() -> Self
        ensures moved { moved_in result ≡ (λ p. false) }
        ensures took { took_in result ≡ (λ p. false) }
    {
        Listed {
            notes: [Note::default(); 32],
        }
    }

    // The note of a piece; a piece over 31 is never noted.
    fn note_of(&self, piece: u8) -> Note
        ensures { result ≡ note_of self.now piece }
    {
        self.notes.get(piece as usize).copied().unwrap_or_default()
    }

    // Whether a piece has moved.
    pub fn has_moved(&self, piece: u8) -> bool
        ensures { result ≡ moved_in self.now piece }
    {
        self.note_of(piece).moved
    }

    // Whether a message was taken from its tray.
    pub fn has_taken(&self, piece: u8) -> bool
        ensures { result ≡ took_in self.now piece }
    {
        self.note_of(piece).took
    }

    // One move more, of this piece, which may take a message. A piece over 31 is none. The note is indexed after a test, as a row is
    // that is changed.
    pub fn note(&mut self, piece: u8, takes: bool)
        ensures moved { moved_in self.new ≡ noted (moved_in self.old) piece }
        ensures took { took_in self.new ≡ (λ q. took_in self.old q || (takes && noted (λ _. false) piece q)) }
    {
        if piece > 31 {
            return;
        }
        let note = &mut self.notes[piece as usize];
        note.moved = true;
        note.took |= takes;
    }
}
