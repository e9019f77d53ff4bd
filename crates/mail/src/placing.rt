// What mails differ in: how many messages a tray may hold, and where among them one is put.
ghost use Rattle.std.specs.Prelude.{◌≡◌, ℕ, ◌*◌, ◌≤◌, List, length};
ghost use Rattle.mail.specs.declared.message.Message.{Message};

use crate::message::Message;

// `PLACES` is how many messages the trays of all the pieces may hold together.
pub trait Placing<const PLACES: usize> {
    // The limit of a mail by this rule.
    const LIMIT: usize;

    ghost LIMIT: { ℕ };

    // How many of the messages in a tray stay before one that is put.
    ghost place: { List Message → Message → ℕ };

    fn place(waiting: &[Message], message: Message) -> usize
        ensures { result ≡ place waiting.now message };

    ghost range: { (1 ≤ LIMIT) × (LIMIT ≤ 8) };

    ghost within: { (l : List Message) (m : Message) → place l m ≤ length l };

    // A length of an array cannot be computed from the limit, so each rule names it.
    ghost places: { PLACES ≡ 32 * LIMIT };
}
