// The urgent mail: limit 6, a message is put before the first one with a greater signal number, else last.
ghost use Rattle.mail.specs.Urgent.{urgent_place};
ghost use Rattle.std.proofs.Common.{rules};
ghost use Rattle.mail.specs.Laws.{urgent_within};

use crate::message::Message;
use crate::placed::PlacedMail;
use crate::placing::Placing;

pub type UrgentMail = PlacedMail<BySignal, 192>;

#[derive(Drop)]
pub struct BySignal;

impl Placing<192> for BySignal {
    const LIMIT: usize = 6;

    ghost LIMIT = { 6 };

    ghost place = { urgent_place };

    ghost range = { Prim.search rules };

    ghost within = { urgent_within };

    ghost places = { Prim.search rules };

    fn place(waiting: &[Message], message: Message) -> usize {
        waiting
            .iter()
            .position(|other| message.signal < other.signal)
            .unwrap_or(waiting.len())
    }
}
