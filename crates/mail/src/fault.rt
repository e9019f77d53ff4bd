// Why a mail refuses a call.
ghost use Rattle.std.specs.Prelude.{◌≡◌};
ghost use Rattle.mail.specs.Faults.{fault_number};

#[derive(Clone, Copy, PartialEq, Eq, Debug)]
pub enum MailFault {
    // No piece has this number: it is over 31.
    NoPiece,
    // The tray is as long as the mail's limit.
    Full,
    // The tray has nothing to take.
    Empty,
}

impl MailFault {
    // The number of the refusal, 60 to 62. A method and no `From`, since it says of what it is the number.
    pub fn number(self) -> u8
        ensures { result ≡ fault_number self }
    {
        match self {
            MailFault::NoPiece => 60,
            MailFault::Full => 61,
            MailFault::Empty => 62,
        }
    }
}
