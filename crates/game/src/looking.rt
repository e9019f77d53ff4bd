// How a piece stands.
ghost use Rattle.std.specs.Prelude.{◌≡◌, length};
ghost use Rattle.game.specs.Games.{means};

use crate::board::Game;
use mail::Mail;

impl<M: Mail> Game<M> {
    // The state of a piece.
    pub fn state(&self, piece: u8) -> u8
        ensures { result ≡ (means M.Mail self.now).states piece }
    {
        self.table.state(piece)
    }

    // A number of a piece.
    pub fn number(&self, piece: u8, index: usize) -> i32
        ensures { result ≡ (means M.Mail self.now).numbers piece index }
    {
        self.table.number(piece, index)
    }

    // How many messages wait for a piece.
    pub fn waiting(&self, piece: u8) -> usize
        ensures { result ≡ length ((means M.Mail self.now).trays piece) }
    {
        self.mail.count(piece)
    }
}
