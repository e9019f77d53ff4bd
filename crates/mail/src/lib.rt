// What a mail is: all the facts that the engine knows of one.
//
// A piece is an object of the game, its tray the queue of messages that wait for it, and a mail holds the trays of all
// the pieces, 0 to 31. Mails differ in their limit and in where they put a message, and in nothing else.
#![tactic(auto)]

ghost use Rattle.std.specs.Prelude.{◌≡◌, ℕ, ◌<◌, ◌≤◌, List, [], length};
ghost use Rattle.mail.specs.declared.message.Message.{Message};
ghost use Rattle.mail.specs.Trays.{front, no_messages, put_answer, put_trays, take_answer, take_trays};

use fault::MailFault;
use message::Message;

pub mod any_mail;
pub mod fault;
pub mod message;
pub mod placed;
pub mod placing;
pub mod queue;
pub mod urgent;

pub trait Mail {
    // How many messages a tray may hold: a number from 1 to 8, of the kind of mail and not of the mail, so no call
    // changes it.
    const LIMIT: usize;

    // The same number, as the facts below name it.
    ghost LIMIT: { ℕ };

    // What a mail means: for each piece the messages in its tray, the next one to be taken first.
    ghost trays: { Self → ℕ → List Message };

    // The mail's rule of placing: how many of the messages in a tray stay before one that is put.
    // It sees that tray and that message alone.
    ghost place: { List Message → Message → ℕ };

    // The first message of the tray, or none.
    fn look(&self, piece: u8) -> Option<Message>
        ensures { result ≡ front (trays self.now piece) };

    // How many messages are in the tray.
    fn count(&self, piece: u8) -> usize
        ensures { result ≡ length (trays self.now piece) };

    // Inserts the message at its place. Refused over 31, and exactly at the limit's length; then no tray changes.
    fn put(&mut self, piece: u8, message: Message) -> Result<(), MailFault>
        ensures answer { result ≡ put_answer LIMIT (trays self.old) piece }
        ensures after { trays self.new ≡ put_trays LIMIT place (trays self.old) piece message };

    // Takes the first message out and answers it. Refused over 31, and exactly on an empty tray; then no tray changes.
    fn take(&mut self, piece: u8) -> Result<Message, MailFault>
        ensures answer { result ≡ take_answer (trays self.old) piece }
        ensures after { trays self.new ≡ take_trays (trays self.old) piece };

    // Empties every tray.
    fn clear(&mut self)
        ensures { trays self.new ≡ no_messages };

    ghost range: { (1 ≤ LIMIT) × (LIMIT ≤ 8) };

    // A place is one in the tray, or just past its end.
    ghost within: { (l : List Message) (m : Message) → place l m ≤ length l };

    // No tray is ever longer than the limit.
    ghost bounded: { (s : Self) (p : ℕ) → length (trays s p) ≤ LIMIT };

    // Only the pieces 0 to 31 have a tray.
    ghost beyond: { (s : Self) (p : ℕ) → 31 < p → trays s p ≡ [] };
}
