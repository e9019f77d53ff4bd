// Code over any mail, which knows nothing of it but the facts of the trait.
ghost use Rattle.std.specs.Prelude.{◌≡◌, ◌+◌, true, length, is_ok, Err, ◌≢◌};
ghost use Rattle.mail.specs.declared.fault.MailFault.TheVariants.{Empty};
ghost use Rattle.mail.specs.TwoInOneOut.{two_in_one_out_answer, two_in_one_out_trays};

use crate::Mail;
use crate::fault::MailFault;
use crate::message::Message;

// What was put can be taken: with both messages in the tray taking is never refused, and one more waits than before.
pub fn two_in_one_out<M: Mail>(
    mail: &mut M,
    piece: u8,
    one: Message,
    other: Message,
) -> Result<Message, MailFault>
    ensures answer { result ≡ two_in_one_out_answer M.Mail.LIMIT M.Mail.place (M.Mail.trays mail.old) piece one other }
    ensures after { M.Mail.trays mail.new ≡ two_in_one_out_trays M.Mail.LIMIT M.Mail.place (M.Mail.trays mail.old) piece one other }
    ensures taken { result ≢ Err Empty }
    ensures longer { is_ok result ≡ true → length (M.Mail.trays mail.new piece) ≡ length (M.Mail.trays mail.old piece) + 1 }
{
    mail.put(piece, one)?;
    mail.put(piece, other)?;
    mail.take(piece)
}
