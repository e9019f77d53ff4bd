// Games set out and tapped, and trails.

#[cfg(test)]
mod tests {
    use crate::calling::{loaded, message};
    use evaluator::trail::Trail;
    use game::Game;
    use mail::Mail;
    use mail::queue::QueueMail;
    use mail::urgent::UrgentMail;
    use rules::fault::TapFault;

    // Signal 1 has one parameter, signal 2 two and signal 3 none. Piece 0 has two numbers and starts with 5 and -6, piece 1 has
    // one and starts with 0.
    const LEVEL: [u8; 29] =
        *b"\x01\x01\x01\x02\x01\x00\x02\x02\x01\x02\x01\x01\x04\x00\x05\x00\x00\x00\x00\x05\x05\x01\xFF\xFF\xFF\xFA\x04\x01\x06";

    #[test]
    fn a_game_set_out_has_the_starting_numbers(rt: HostRuntime) {
        let bytes = LEVEL;
        let level = loaded(&bytes);
        let mut game = Game::new(QueueMail::new());
        assert_eq!(rt; game.number(0, 0), 0, "nothing before");
        game.set_out(&level);
        assert_eq!(rt; game.state(0), 0);
        assert_eq!(rt; game.number(0, 0), 5);
        assert_eq!(rt; game.number(0, 1), -6);
        assert_eq!(rt; game.number(1, 0), 0);
        assert_eq!(rt; game.waiting(0), 0);
    }

    #[test]
    fn setting_out_empties_the_trays(rt: HostRuntime) {
        let bytes = LEVEL;
        let level = loaded(&bytes);
        let mut game = Game::new(QueueMail::new());
        game.set_out(&level);
        assert_eq!(rt; game.tap(&level, 1, message(3, 0, 0)), Ok(1));
        assert_eq!(rt; game.waiting(1), 1);
        game.set_out(&level);
        assert_eq!(rt; game.waiting(1), 0);
    }

    #[test]
    fn a_tap_is_refused_in_the_order_of_the_checks(rt: HostRuntime) {
        let bytes = LEVEL;
        let level = loaded(&bytes);
        let mut game = Game::new(QueueMail::new());
        game.set_out(&level);
        assert_eq!(rt;
            game.tap(&level, 2, message(0, 0, 0)),
            Err(TapFault::NoPiece),
            "both missing"
        );
        assert_eq!(rt;
            game.tap(&level, 255, message(1, 0, 0)),
            Err(TapFault::NoPiece)
        );
        assert_eq!(rt;
            game.tap(&level, 0, message(0, 0, 0)),
            Err(TapFault::NoSignal)
        );
        assert_eq!(rt;
            game.tap(&level, 0, message(4, 0, 1)),
            Err(TapFault::NoSignal),
            "and unused"
        );
        assert_eq!(rt;
            game.tap(&level, 0, message(1, 7, 1)),
            Err(TapFault::Unused)
        );
        assert_eq!(rt;
            game.tap(&level, 0, message(3, -1, 0)),
            Err(TapFault::Unused)
        );
        assert_eq!(rt; game.waiting(0), 0);
        assert_eq!(rt; game.tap(&level, 0, message(2, 7, 1)), Ok(1));
        assert_eq!(rt; game.waiting(0), 1);
    }

    #[test]
    fn the_queue_takes_four_taps(rt: HostRuntime) {
        let bytes = LEVEL;
        let level = loaded(&bytes);
        let mut game = Game::new(QueueMail::new());
        game.set_out(&level);
        assert_eq!(rt; game.tap(&level, 0, message(1, 1, 0)), Ok(1));
        assert_eq!(rt; game.tap(&level, 0, message(1, 2, 0)), Ok(1));
        assert_eq!(rt; game.tap(&level, 0, message(1, 3, 0)), Ok(1));
        assert_eq!(rt; game.tap(&level, 0, message(1, 4, 0)), Ok(1));
        assert_eq!(rt;
            game.tap(&level, 0, message(1, 5, 0)),
            Err(TapFault::TrayFull)
        );
        assert_eq!(rt;
            game.tap(&level, 0, message(1, 5, 5)),
            Err(TapFault::Unused),
            "checked before"
        );
        assert_eq!(rt; game.waiting(0), 4);
    }

    #[test]
    fn the_urgent_mail_takes_six_taps(rt: HostRuntime) {
        let bytes = LEVEL;
        let level = loaded(&bytes);
        let mut game = Game::new(UrgentMail::new());
        game.set_out(&level);
        for _ in 0..6 {
            assert_eq!(rt; game.tap(&level, 1, message(3, 0, 0)), Ok(1));
        }
        assert_eq!(rt;
            game.tap(&level, 1, message(1, 0, 0)),
            Err(TapFault::TrayFull)
        );
        assert_eq!(rt; game.waiting(1), 6);
    }

    #[test]
    fn a_trail_counts_what_it_holds(rt: HostRuntime) {
        let mut places = [0u8; 2];
        let mut trail = Trail::new(&mut places);
        assert_eq!(rt; trail.room(), 2);
        assert_eq!(rt; trail.push(7).is_ok(), true);
        assert_eq!(rt; trail.push(8).is_ok(), true);
        assert_eq!(rt; trail.push(9).is_ok(), false);
        assert_eq!(rt; trail.len(), 2);
        assert_eq!(rt; trail.entries().len(), 2);
        trail.clear();
        assert_eq!(rt; trail.len(), 0);
        assert_eq!(rt; trail.push(9).is_ok(), true);
    }
}
