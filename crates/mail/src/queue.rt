// The queue mail: limit 4, a message is put last.
ghost use Rattle.mail.specs.Queue.{last_place};
ghost use Rattle.std.proofs.Common.{rules};

use crate::message::Message;
use crate::placed::PlacedMail;
use crate::placing::Placing;

pub type QueueMail = PlacedMail<Last, 128>;

#[derive(Drop)]
pub struct Last;

impl Placing<128> for Last {
    const LIMIT: usize = 4;

    ghost LIMIT = { 4 };

    ghost place = { last_place };

    ghost range = { Prim.search rules };

    ghost within = { Prim.search rules };

    ghost places = { Prim.search rules };

    fn place(waiting: &[Message], _message: Message) -> usize {
        waiting.len()
    }
}
