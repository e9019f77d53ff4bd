// Tapping a piece.
ghost use Rattle.std.specs.Prelude.{◌≡◌};
ghost use Rattle.rules.specs.Calls.{call, fits, tap};
ghost use Rattle.game.specs.Games.{after_tap, means, setting};

use crate::board::Game;
use level::Level;
use mail::Mail;
use mail::message::Message;
use rules::fault::TapFault;

// Whether the numbers that a signal of so many parameters does not use are 0.
fn fits(parameters: u8, message: Message) -> bool
    ensures { result ≡ fits parameters message }
{
    match parameters {
        0 => message.first == 0 && message.second == 0,
        1 => message.second == 0,
        _ => true,
    }
}

impl<M: Mail> Game<M> {
    // Puts one message into a piece's tray, and answers 1.
    pub fn tap(&mut self, level: &Level, piece: u8, message: Message) -> Result<usize, TapFault>
        ensures call { after_tap result (means M.Mail self.new)
            ≡ call (setting M.Mail level.now) (means M.Mail self.old) (tap piece message) }
    {
        if piece as usize >= level.pieces() {
            return Err(TapFault::NoPiece);
        }
        let parameters = level
            .parameters(message.signal as usize)
            .ok_or(TapFault::NoSignal)?;
        if !fits(parameters, message) {
            return Err(TapFault::Unused);
        }
        self.mail
            .put(piece, message)
            .map_err(|_| TapFault::TrayFull)?;
        Ok(1)
    }
}
