// Both mails at their limits, at their places, and at the last pieces. A message's number tells apart those of one signal.

#[cfg(test)]
mod tests {
    use crate::calling::message;
    use mail::Mail;
    use mail::fault::MailFault;
    use mail::queue::QueueMail;
    use mail::urgent::UrgentMail;
    use std::process::Abort;
    use std::test::Fail;

    #[test]
    fn the_queue_accepts_four_and_refuses_a_fifth(rt: HostRuntime) -> Result<(), Fail> {
        let mut mail = QueueMail::new();
        mail.put(0, message(9, 0, 0))?;
        mail.put(0, message(7, 1, 0))?;
        mail.put(0, message(8, 2, 0))?;
        assert_eq!(rt; mail.put(0, message(1, 3, 0)), Ok(()));
        assert_eq!(rt; mail.put(0, message(1, 4, 0)), Err(MailFault::Full));
        assert_eq!(rt; mail.count(0), 4);
        assert_eq!(rt; mail.take(0), Ok(message(9, 0, 0)));
        assert_eq!(rt; mail.look(0), Some(message(7, 1, 0)));
        Ok(())
    }

    // An urgent mail in which the signals 1 3 3 wait for piece 5.
    fn waiting() -> Result<UrgentMail, MailFault> {
        let mut mail = UrgentMail::new();
        mail.put(5, message(3, 1, 0))?;
        mail.put(5, message(1, 0, 0))?;
        mail.put(5, message(3, 2, 0))?;
        Ok(mail)
    }

    #[test]
    fn a_lesser_signal_goes_before_the_greater(rt: HostRuntime) -> Result<(), Fail> {
        let mut mail = waiting()?;
        mail.put(5, message(2, 9, 0))?;
        assert_eq!(rt; mail.take(5), Ok(message(1, 0, 0)));
        assert_eq!(rt; mail.take(5), Ok(message(2, 9, 0)));
        assert_eq!(rt; mail.take(5), Ok(message(3, 1, 0)));
        assert_eq!(rt; mail.take(5), Ok(message(3, 2, 0)));
        Ok(())
    }

    #[test]
    fn an_equal_signal_goes_after_its_equals(rt: HostRuntime) -> Result<(), Fail> {
        let mut mail = waiting()?;
        mail.put(5, message(3, 9, 0))?;
        assert_eq!(rt; mail.take(5), Ok(message(1, 0, 0)));
        assert_eq!(rt; mail.take(5), Ok(message(3, 1, 0)));
        assert_eq!(rt; mail.take(5), Ok(message(3, 2, 0)));
        assert_eq!(rt; mail.take(5), Ok(message(3, 9, 0)));
        Ok(())
    }

    // Piece 31 is the last; every call on a greater number finds nothing.
    fn ends_at_31<M: Mail>(rt: &impl Abort, mail: &mut M) {
        assert_eq!(rt; mail.take(31), Err(MailFault::Empty));
        assert_eq!(rt; mail.put(31, message(4, 0, 0)), Ok(()));
        assert_eq!(rt; mail.put(32, message(4, 0, 0)), Err(MailFault::NoPiece));
        assert_eq!(rt; mail.take(32), Err(MailFault::NoPiece));
        assert_eq!(rt; mail.look(255), None);
        assert_eq!(rt; mail.count(255), 0);
        assert_eq!(rt; mail.count(30), 0);
        assert_eq!(rt; mail.look(31), Some(message(4, 0, 0)));
        mail.clear();
        assert_eq!(rt; mail.count(31), 0);
    }

    #[test]
    fn both_mails_end_at_31(rt: HostRuntime) {
        ends_at_31(&rt, &mut QueueMail::new());
        ends_at_31(&rt, &mut UrgentMail::new());
    }

    #[test]
    fn refusals_have_their_numbers(rt: HostRuntime) {
        assert_eq!(rt; MailFault::NoPiece.number(), 60);
        assert_eq!(rt; MailFault::Full.number(), 61);
        assert_eq!(rt; MailFault::Empty.number(), 62);
    }
}
