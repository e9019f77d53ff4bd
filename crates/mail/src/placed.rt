// A mail that puts its messages by a rule of placing, whichever that is.
ghost use Rattle.std.specs.Prelude.{◌≡◌, ℕ, ◌+◌, ◌-◌, ◌*◌, ◌<◌, ◌≤◌, List, [], ◌∷◌, ◌++◌, length, drop, replicate, slice_index};
ghost use Rattle.std.specs.List.{insert};
ghost use Rattle.mail.specs.declared.message.Message.{Message};
ghost use Rattle.mail.specs.Messages.{blank};
ghost use Rattle.mail.specs.Laid.{laid_trays};
ghost use Rattle.mail.specs.Laws.{laid_beyond, laid_bounded};
ghost use Rattle.mail.specs.Trays.{no_messages};

use crate::Mail;
use crate::fault::MailFault;
use crate::message::Message;
use crate::placing::Placing;
use std::marker::PhantomData;

// As many places for each piece as the limit, of which the first hold the messages in its tray, and how many those are.
// A mail needs no heap, and a queue mail is to have 128 places, all blank when it is new: so the places are one array, and
// the counts stand beside it.
#[derive(Drop)]
struct Table<const PLACES: usize> {
    places: [Message; PLACES],
    counts: [u8; 32],
}

#[derive(Drop)]
pub struct PlacedMail<R: Placing<PLACES>, const PLACES: usize> {
    table: Table<PLACES>,
    rule: PhantomData<R>,
    ghost places: { length table.places ≡ 32 * R.LIMIT },
    ghost counts: { length table.counts ≡ 32 },
    ghost few: { (p : ℕ) → slice_index table.counts p ≤ R.LIMIT },
}

// Moves the last message to the place `at`, and the others from there on one place back.
fn last_to(messages: &mut [Message], at: usize)
    requires { at < length messages.old }
    ensures { (front : List Message) (last : Message) → messages.old ≡ front ++ last ∷ [] → messages.new ≡ insert front at last }
{
    messages[at..].rotate_right(1);
}

// Moves the messages after the first one place to the front; the last stays as well, past those that still wait. By
// `rotate_left` a taking took half again as long.
fn first_out(messages: &mut [Message])
    requires { 0 < length messages.old }
    ensures { messages.new ≡ drop 1 messages.old ++ drop (length messages.old - 1) messages.old }
{
    for i in 0..messages.len() - 1 {
        messages[i] = messages[i + 1];
    }
}

impl<R: Placing<PLACES>, const PLACES: usize> PlacedMail<R, PLACES> {
    pub fn new() -> Self
        ensures blank { result.table.places ≡ replicate PLACES blank }
        ensures empty { laid_trays R.LIMIT result.table.places result.table.counts ≡ no_messages }
    {
        PlacedMail {
            table: Table {
                places: [Message::BLANK; PLACES],
                counts: [0; 32],
            },
            rule: PhantomData,
        }
    }

    // Where the places of the piece begin. All of them lie among those of the table.
    fn start(piece: u8) -> usize
        requires { piece ≤ 31 }
        ensures at { result ≡ piece * R.LIMIT }
        ensures within { result + R.LIMIT ≤ 32 * R.LIMIT }
    {
        usize::from(piece) * R::LIMIT
    }

    // The messages that wait for the piece.
    fn tray(&self, piece: u8) -> &[Message]
        ensures tray { result.now ≡ laid_trays R.LIMIT self.now.table.places self.now.table.counts piece }
        ensures counted { length result.now ≡ slice_index self.now.table.counts piece }
        ensures within { length result.now ≤ R.LIMIT }
    {
        let Some(&count) = self.table.counts.get(usize::from(piece)) else {
            return &[];
        };
        let start = Self::start(piece);
        let places = &self.table.places[..];
        &places[start..start + usize::from(count)]
    }
}

impl<R: Placing<PLACES>, const PLACES: usize> Mail for PlacedMail<R, PLACES> {
    const LIMIT: usize = R::LIMIT;

    ghost LIMIT = { R.LIMIT };

    ghost trays = { λ s. laid_trays R.LIMIT s.table.places s.table.counts };

    ghost place = { R.place };

    ghost range = { R.range };

    ghost within = { R.within };

    ghost bounded = { λ s. laid_bounded R.LIMIT s.table.places s.table.counts s.few };

    ghost beyond = { λ s. laid_beyond R.LIMIT s.table.places s.table.counts s.counts };

    fn look(&self, piece: u8) -> Option<Message> {
        self.tray(piece).first().copied()
    }

    fn count(&self, piece: u8) -> usize {
        self.tray(piece).len()
    }

    fn put(&mut self, piece: u8, message: Message) -> Result<(), MailFault> {
        if piece > 31 {
            return Err(MailFault::NoPiece);
        }
        let waiting = self.tray(piece);
        let count = waiting.len();
        if count == R::LIMIT {
            return Err(MailFault::Full);
        }
        let at = R::place(waiting, message);
        let start = Self::start(piece);
        let places = &mut self.table.places[..];
        let tray = &mut places[start..start + count + 1];
        tray[count] = message;
        last_to(tray, at);
        self.table.counts[usize::from(piece)] += 1;
        Ok(())
    }

    fn take(&mut self, piece: u8) -> Result<Message, MailFault> {
        if piece > 31 {
            return Err(MailFault::NoPiece);
        }
        let waiting = self.tray(piece);
        let count = waiting.len();
        let message = *waiting.first().ok_or(MailFault::Empty)?;
        let start = Self::start(piece);
        let places = &mut self.table.places[..];
        first_out(&mut places[start..start + count]);
        self.table.counts[usize::from(piece)] -= 1;
        Ok(message)
    }

    fn clear(&mut self) {
        self.table.counts = [0; 32];
    }
}
