// Beats: what moves see of one another, clashes, full trays, and what strike refuses.

#[cfg(test)]
mod tests {
    use crate::calling::{
        LAMP_AND_BELL, NO_CHANGE, NO_PARCEL, change, fire, loaded, message, parcel, refused,
        stands, strike,
    };
    use evaluator::trail::{Trail, Trails};
    use game::Game;
    use level::Level;
    use mail::Mail;
    use mail::message::Message;
    use mail::queue::QueueMail;
    use mail::urgent::UrgentMail;
    use rules::fault::{Cause, StrikeFault, Stumble, Why};
    use std::process::Abort;
    use std::test::Fail;

    // The bell reads 2, which the lamp had before the beat.
    fn bell_and_lamp<M: Mail>(rt: &impl Abort, game: &mut Game<M>) -> Result<(), Fail> {
        let bytes = LAMP_AND_BELL;
        let level = loaded(&bytes);
        game.set_out(&level);
        let mut change_places = [NO_CHANGE; 160];
        let mut parcel_places = [NO_PARCEL; 128];
        let mut trails = Trails::new(&mut change_places, &mut parcel_places);
        game.tap(&level, 0, message(1, 30, 0))?;
        assert_eq!(rt;
            game.strike(&level, b"\x51\x01\x01\x51\x00\x00", &mut trails),
            Ok(2)
        );
        assert_eq!(rt;
            trails.changes.entries(),
            [change(1, 0, 9), change(0, 0, 30)].as_slice()
        );
        assert_eq!(rt; trails.parcels.len(), 0);
        assert_eq!(rt; stands(game, 0), (1, 30, 0));
        assert_eq!(rt; stands(game, 1), (0, 9, 0));
        Ok(())
    }

    #[test]
    fn struck_together_the_bell_sees_the_old_number(rt: HostRuntime) -> Result<(), Fail> {
        bell_and_lamp(&rt, &mut Game::new(QueueMail::new()))?;
        bell_and_lamp(&rt, &mut Game::new(UrgentMail::new()))
    }

    // The bell would read what the lamp writes.
    fn lamp_and_then_bell<M: Mail>(rt: &impl Abort, game: &mut Game<M>) -> Result<(), Fail> {
        let bytes = LAMP_AND_BELL;
        let level = loaded(&bytes);
        game.set_out(&level);
        let mut change_places = [NO_CHANGE; 160];
        let mut parcel_places = [NO_PARCEL; 128];
        let mut trails = Trails::new(&mut change_places, &mut parcel_places);
        assert!(rt;
            trails.changes.push(NO_CHANGE).is_ok() && trails.parcels.push(NO_PARCEL).is_ok()
        );
        game.tap(&level, 0, message(1, 30, 0))?;
        assert_eq!(rt;
            game.strike(&level, b"\x51\x00\x00\x51\x01\x01", &mut trails),
            refused(1, 1, 1, Why::Clash)
        );
        assert_eq!(rt; (trails.changes.len(), trails.parcels.len()), (0, 0));
        assert_eq!(rt; stands(game, 0), (0, 2, 1));
        assert_eq!(rt; stands(game, 1), (0, 7, 0));
        Ok(())
    }

    #[test]
    fn a_later_move_does_not_see_an_earlier_write(rt: HostRuntime) -> Result<(), Fail> {
        lamp_and_then_bell(&rt, &mut Game::new(QueueMail::new()))?;
        lamp_and_then_bell(&rt, &mut Game::new(UrgentMail::new()))
    }

    // Trails that are lent each by itself, with lives of their own: the changes outlive the parcels.
    #[test]
    fn trails_are_filled_that_are_lent_each_by_itself(rt: HostRuntime) -> Result<(), Fail> {
        let bytes = LAMP_AND_BELL;
        let level = loaded(&bytes);
        let mut game = Game::new(QueueMail::new());
        game.set_out(&level);
        game.tap(&level, 0, message(1, 30, 0))?;
        let mut change_places = [NO_CHANGE; 160];
        let mut changes = Trail::new(&mut change_places);
        {
            let mut parcel_places = [NO_PARCEL; 128];
            let mut parcels = Trail::new(&mut parcel_places);
            assert_eq!(rt;
                game.strike_into(
                    &level,
                    b"\x51\x01\x01\x51\x00\x00",
                    &mut changes,
                    &mut parcels
                ),
                Ok(2)
            );
            assert_eq!(rt; (parcels.len(), parcels.room()), (0, 128));
        }
        assert_eq!(rt;
            changes.entries(),
            [change(1, 0, 9), change(0, 0, 30)].as_slice()
        );
        let mut short_places = [NO_PARCEL; 127];
        let mut short = Trail::new(&mut short_places);
        assert_eq!(rt;
            game.fire_into(&level, 1, 1, &mut changes, &mut short),
            Err(StrikeFault::ShortTrail)
        );
        assert_eq!(rt; (changes.len(), changes.room()), (0, 160));
        assert_eq!(rt; stands(&game, 1), (0, 9, 0));
        Ok(())
    }

    // Fires a move in one game and strikes it alone in another.
    fn alike<M: Mail>(
        rt: &impl Abort,
        one: &mut Game<M>,
        other: &mut Game<M>,
        level: &Level,
        piece: u8,
        transition: u8,
        note: &str,
    ) {
        let mut change_places = [NO_CHANGE; 160];
        let mut parcel_places = [NO_PARCEL; 128];
        let mut trails = Trails::new(&mut change_places, &mut parcel_places);
        let fired = one.fire(level, piece, transition, &mut trails);
        let mut struck_change_places = [NO_CHANGE; 160];
        let mut struck_parcel_places = [NO_PARCEL; 128];
        let mut struck_trails = Trails::new(&mut struck_change_places, &mut struck_parcel_places);
        let moves = [0x51, piece, transition];
        let struck = other.strike(level, &moves, &mut struck_trails);
        assert_eq!(rt; fired, struck, "{note}");
        assert_eq!(rt;
            trails.changes.entries(),
            struck_trails.changes.entries(),
            "{note}"
        );
        assert_eq!(rt;
            trails.parcels.entries(),
            struck_trails.parcels.entries(),
            "{note}"
        );
        assert_eq!(rt; stands(one, 0), stands(other, 0), "{note}");
        assert_eq!(rt; stands(one, 1), stands(other, 1), "{note}");
    }

    #[test]
    fn to_fire_a_move_is_to_strike_it_alone(rt: HostRuntime) -> Result<(), Fail> {
        let bytes = TRAYS;
        let level = loaded(&bytes);
        let mut one = Game::new(UrgentMail::new());
        let mut other = Game::new(UrgentMail::new());
        one.set_out(&level);
        other.set_out(&level);
        one.tap(&level, 0, message(1, 1, 0))?;
        other.tap(&level, 0, message(1, 1, 0))?;
        alike(&rt, &mut one, &mut other, &level, 1, 0, "no message");
        alike(&rt, &mut one, &mut other, &level, 0, 0, "takes and sends");
        alike(&rt, &mut one, &mut other, &level, 0, 2, "sends twice");
        alike(
            &rt,
            &mut one,
            &mut other,
            &level,
            1,
            0xFF,
            "a message that is wanted",
        );
        alike(&rt, &mut one, &mut other, &level, 9, 0xFF, "no such piece");
        Ok(())
    }

    fn not_moves(rt: &impl Abort, bytes: &[u8], note: &str) {
        let mut game = Game::new(QueueMail::new());
        assert_eq!(rt;
            strike(&mut game, &Level::new(), bytes),
            Err(StrikeFault::NotMoves),
            "{note}"
        );
    }

    // There is no piece at all, so every move is refused, but this comes first.
    #[test]
    fn bytes_that_are_no_moves(rt: HostRuntime) {
        not_moves(&rt, b"", "none");
        not_moves(&rt, b"\x51", "a piece is missing");
        not_moves(&rt, b"\x51\x00", "a transition is missing");
        not_moves(&rt, b"\x51\x00\x00\x51", "in the second move");
        not_moves(&rt, b"\x50\x51\x00\x00\x52", "with the bytes around a beat");
        not_moves(&rt, b"\x52\x00\x00", "another byte");
        not_moves(&rt, b"\x51\x00\x00\x42\x00\x00", "in the second move");
        let bytes = SEVENTEEN_MOVES;
        not_moves(&rt, &bytes, "one too many");
    }

    #[test]
    fn short_trails_come_before_bytes_that_are_no_moves(rt: HostRuntime) {
        let mut game = Game::new(QueueMail::new());
        let level = Level::new();
        let mut change_places = [NO_CHANGE; 160];
        let mut parcel_places = [NO_PARCEL; 127];
        let mut trails = Trails::new(&mut change_places, &mut parcel_places);
        assert!(rt;
            trails.changes.push(NO_CHANGE).is_ok() && trails.parcels.push(NO_PARCEL).is_ok()
        );
        assert_eq!(rt;
            game.strike(&level, b"", &mut trails),
            Err(StrikeFault::ShortTrail)
        );
        assert_eq!(rt; (trails.changes.len(), trails.parcels.len()), (0, 0));
    }

    // The pieces 0 to 15 in order, each with transition 0.
    const FIRST_OF_ALL: [u8; 48] = *b"\
        \x51\x00\x00\x51\x01\x00\x51\x02\x00\x51\x03\x00\
        \x51\x04\x00\x51\x05\x00\x51\x06\x00\x51\x07\x00\
        \x51\x08\x00\x51\x09\x00\x51\x0A\x00\x51\x0B\x00\
        \x51\x0C\x00\x51\x0D\x00\x51\x0E\x00\x51\x0F\x00";

    // The same with transition 1.
    const SECOND_OF_ALL: [u8; 48] = *b"\
        \x51\x00\x01\x51\x01\x01\x51\x02\x01\x51\x03\x01\
        \x51\x04\x01\x51\x05\x01\x51\x06\x01\x51\x07\x01\
        \x51\x08\x01\x51\x09\x01\x51\x0A\x01\x51\x0B\x01\
        \x51\x0C\x01\x51\x0D\x01\x51\x0E\x01\x51\x0F\x01";

    // The pieces 0 to 16 in order, each with transition 0.
    const SEVENTEEN_MOVES: [u8; 51] = *b"\
        \x51\x00\x00\x51\x01\x00\x51\x02\x00\x51\x03\x00\
        \x51\x04\x00\x51\x05\x00\x51\x06\x00\x51\x07\x00\
        \x51\x08\x00\x51\x09\x00\x51\x0A\x00\x51\x0B\x00\
        \x51\x0C\x00\x51\x0D\x00\x51\x0E\x00\x51\x0F\x00\
        \x51\x10\x00";

    // Seventeen pieces, with one number each. Transition 0: it becomes the piece number; transition 1: it becomes the number of the
    // next piece.
    const ROW: [u8; 76] = *b"\
        \x02\x01\x01\
        \x03\x00\x00\x00\xFF\xFF\x10\x00\x00\x00\x01\x20\x00\x11\x00\
        \x03\x00\x00\x00\xFF\xFF\x10\x00\x00\x00\x01\
        \x20\x00\x13\x00\x14\x11\x10\x00\x00\x00\x01\x00\
        \x04\x00\x04\x00\x04\x00\x04\x00\x04\x00\x04\x00\
        \x04\x00\x04\x00\x04\x00\x04\x00\x04\x00\x04\x00\
        \x04\x00\x04\x00\x04\x00\x04\x00\x04\x00\
        \x06";

    #[test]
    fn sixteen_pieces_move_together(rt: HostRuntime) {
        let bytes = ROW;
        let level = loaded(&bytes);
        let mut game = Game::new(QueueMail::new());
        game.set_out(&level);
        let numbering = FIRST_OF_ALL;
        assert_eq!(rt; strike(&mut game, &level, &numbering), Ok(16));
        assert_eq!(rt; (game.number(1, 0), game.number(15, 0)), (1, 15));
        assert_eq!(rt;
            strike(&mut game, &level, b"\x51\x0F\x01\x51\x0E\x01"),
            refused(1, 14, 1, Why::Clash),
            "backwards, the next piece has written"
        );
        let mut change_places = [NO_CHANGE; 160];
        let mut parcel_places = [NO_PARCEL; 128];
        let mut trails = Trails::new(&mut change_places, &mut parcel_places);
        let copying = SECOND_OF_ALL;
        assert_eq!(rt; game.strike(&level, &copying, &mut trails), Ok(16));
        assert_eq!(rt; (trails.changes.len(), trails.parcels.len()), (16, 0));
        assert_eq!(rt;
            trails.changes.entries().first().copied(),
            Some(change(0, 0, 1))
        );
        assert_eq!(rt;
            trails.changes.entries().last().copied(),
            Some(change(15, 0, 0))
        );
        assert_eq!(rt; (game.number(0, 0), game.number(14, 0)), (1, 15));
        assert_eq!(rt; (game.number(15, 0), game.number(16, 0)), (0, 0));
    }

    // Signal 1 has one parameter, signal 2 none. Three pieces have two numbers and two states. The transitions leave state 0, but for
    // transition 4, and end in it.
    // Transition 0: number 0 of piece 1 becomes the piece number.
    // Transition 1, its guard: not number 0 of piece 1.
    // Transition 2, on signal 1: receives number 0.
    // Transition 3: signal 2 to piece 1.
    // Transition 4, from state 1, on signal 1: receives number 0.
    // Transition 5, on signal 1: receives number 1; then number 0 becomes the piece number by it (the command at byte 98).
    // Transition 6: signal 1 to piece 1, with the piece number by number 1 (121).
    const CLASHES: [u8; 133] = *b"\
        \x01\x01\x01\x00\
        \x02\x02\x02\
        \x03\x00\x00\x00\xFF\xFF\x10\x00\x00\x00\x01\x21\x00\x10\x00\x00\x00\x01\x11\x00\
        \x03\x00\x00\x00\xFF\xFF\x1D\x13\x00\x10\x00\x00\x00\x01\x00\
        \x03\x00\x00\x01\x00\xFF\x10\x00\x00\x00\x01\x00\
        \x03\x00\x00\x00\xFF\xFF\x10\x00\x00\x00\x01\x22\x02\x10\x00\x00\x00\x01\x00\
        \x03\x01\x00\x01\x00\xFF\x10\x00\x00\x00\x01\x00\
        \x03\x00\x00\x01\x01\xFF\x10\x00\x00\x00\x01\x20\x00\x17\x11\x12\x01\x00\
        \x03\x00\x00\x00\xFF\xFF\x10\x00\x00\x00\x01\x22\x01\x10\x00\x00\x00\x01\x17\x11\x12\x01\x00\
        \x04\x00\x04\x00\x04\x00\
        \x06";

    #[test]
    fn the_checks_of_a_move_have_an_order(rt: HostRuntime) -> Result<(), Fail> {
        let bytes = CLASHES;
        let level = loaded(&bytes);
        let mut game = Game::new(QueueMail::new());
        game.set_out(&level);
        assert_eq!(rt;
            strike(&mut game, &level, b"\x51\x00\x03\x51\x00\x07"),
            refused(1, 0, 7, Why::Unknown),
            "no such transition, before the piece moves already"
        );
        assert_eq!(rt;
            strike(&mut game, &level, b"\x51\x00\x03\x51\x00\x04"),
            refused(1, 0, 4, Why::MovesAlready),
            "which comes before another state"
        );
        assert_eq!(rt;
            strike(&mut game, &level, b"\x51\x00\x03\x51\x01\x04"),
            refused(1, 1, 4, Why::OtherState),
            "which comes before no message"
        );
        assert_eq!(rt;
            strike(&mut game, &level, b"\x51\x00\x03\x51\x01\x02"),
            refused(1, 1, 2, Why::NoMessage),
            "which comes before the tray clash: what is sent is not seen"
        );
        game.tap(&level, 1, message(1, 0, 0))?;
        assert_eq!(rt;
            strike(&mut game, &level, b"\x51\x00\x03\x51\x01\x05"),
            refused(1, 1, 5, Why::Clash),
            "which comes before a stumble"
        );
        assert_eq!(rt;
            strike(&mut game, &level, b"\x51\x00\x03\x51\x01\xFF"),
            refused(1, 1, 0xFF, Why::Clash),
            "and before a true guard"
        );
        assert_eq!(rt;
            strike(&mut game, &level, b"\x51\x00\x04\x51\x09\x00"),
            refused(0, 0, 4, Why::OtherState),
            "the first move is judged in full before the second"
        );
        assert_eq!(rt; stands(&game, 1), (0, 0, 1));
        Ok(())
    }

    #[test]
    fn a_reader_goes_before_a_writer(rt: HostRuntime) -> Result<(), Fail> {
        let bytes = CLASHES;
        let level = loaded(&bytes);
        let mut game = Game::new(QueueMail::new());
        game.set_out(&level);
        assert_eq!(rt;
            strike(&mut game, &level, b"\x51\x02\x00\x51\x00\x01"),
            refused(1, 0, 1, Why::Clash),
            "a guard reads what is written"
        );
        assert_eq!(rt;
            strike(&mut game, &level, b"\x51\x02\x00\x51\x00\x00"),
            refused(1, 0, 0, Why::Clash),
            "both write"
        );
        game.tap(&level, 1, message(1, 7, 0))?;
        assert_eq!(rt;
            strike(&mut game, &level, b"\x51\x02\x00\x51\x01\x02"),
            refused(1, 1, 2, Why::Clash),
            "a received number is written"
        );
        assert_eq!(rt;
            strike(&mut game, &level, b"\x51\x01\x02\x51\x02\x00"),
            refused(1, 2, 0, Why::Clash),
            "and the other way round"
        );
        assert_eq!(rt; stands(&game, 1), (0, 0, 1));
        assert_eq!(rt;
            strike(&mut game, &level, b"\x51\x00\x01\x51\x02\x00"),
            Ok(2),
            "the guard sees the old 0"
        );
        assert_eq!(rt; stands(&game, 1), (0, 2, 1));
        assert_eq!(rt;
            fire(&mut game, &level, 0, 1),
            refused(0, 0, 1, Why::Guard),
            "and now the 2"
        );
        Ok(())
    }

    fn stumble(cause: Cause, place: usize) -> Why {
        Why::Stumbles(Stumble { cause, place })
    }

    #[test]
    fn at_one_command_a_stumble_comes_before_a_clash(rt: HostRuntime) -> Result<(), Fail> {
        let bytes = CLASHES;
        let level = loaded(&bytes);
        let mut game = Game::new(QueueMail::new());
        game.set_out(&level);
        game.tap(&level, 1, message(1, 0, 0))?;
        assert_eq!(rt;
            strike(&mut game, &level, b"\x51\x00\x00\x51\x01\x05"),
            refused(1, 1, 5, stumble(Cause::ZeroDivisor, 98)),
            "the value, before the write"
        );
        assert_eq!(rt;
            strike(&mut game, &level, b"\x51\x00\x03\x51\x02\x06"),
            refused(1, 2, 6, stumble(Cause::ZeroDivisor, 121)),
            "the parameter, before the send"
        );
        game.set_out(&level);
        game.tap(&level, 1, message(1, 1, 0))?;
        assert_eq!(rt;
            strike(&mut game, &level, b"\x51\x00\x00\x51\x01\x05"),
            refused(1, 1, 5, Why::Clash),
            "no stumble, but both write"
        );
        Ok(())
    }

    #[test]
    fn at_one_command_a_clash_comes_before_a_full_tray(rt: HostRuntime) -> Result<(), Fail> {
        let bytes = CLASHES;
        let level = loaded(&bytes);
        let mut game = Game::new(QueueMail::new());
        game.set_out(&level);
        for _ in 0..3 {
            game.tap(&level, 1, message(1, 0, 0))?;
        }
        assert_eq!(rt;
            strike(&mut game, &level, b"\x51\x00\x03\x51\x02\x03"),
            refused(1, 2, 3, Why::Clash),
            "both send, and there was one place"
        );
        game.tap(&level, 1, message(1, 0, 0))?;
        assert_eq!(rt;
            strike(&mut game, &level, b"\x51\x00\x03\x51\x02\x03"),
            refused(0, 0, 3, Why::TrayFull),
            "there is none"
        );
        assert_eq!(rt;
            fire(&mut game, &level, 2, 6),
            refused(0, 2, 6, stumble(Cause::ZeroDivisor, 121)),
            "the parameter, before the full tray"
        );
        game.tap(&level, 2, message(1, 5, 0))?;
        assert_eq!(rt; fire(&mut game, &level, 2, 5), Ok(1));
        assert_eq!(rt;
            fire(&mut game, &level, 2, 6),
            refused(0, 2, 6, Why::TrayFull),
            "no stumble, but a full tray"
        );
        assert_eq!(rt; stands(&game, 1), (0, 0, 4));
        Ok(())
    }

    // Signal 1 has one parameter, signal 2 none. Three pieces have one number.
    // Transition 0, on signal 1: receives a piece, and sends signal 1 there, with the own piece number.
    // Transition 1: signal 1 to piece 1, with the own piece number.
    // Transition 2: signal 2 to piece 1, twice.
    const TRAYS: [u8; 77] = *b"\
        \x01\x01\x01\x00\
        \x02\x01\x01\
        \x03\x00\x00\x01\x00\xFF\x10\x00\x00\x00\x01\x22\x01\x12\x00\x11\x00\
        \x03\x00\x00\x00\xFF\xFF\x10\x00\x00\x00\x01\x22\x01\x10\x00\x00\x00\x01\x11\x00\
        \x03\x00\x00\x00\xFF\xFF\x10\x00\x00\x00\x01\
        \x22\x02\x10\x00\x00\x00\x01\x22\x02\x10\x00\x00\x00\x01\x00\
        \x04\x00\x04\x00\x04\x00\
        \x06";

    // Sets a game out and fills one tray with a message.
    fn filled<M: Mail>(game: &mut Game<M>, level: &Level, piece: u8, message: Message) {
        game.set_out(level);
        for _ in 0..8 {
            let _ = game.tap(level, piece, message);
        }
    }

    fn takers_make_room<M: Mail>(rt: &impl Abort, game: &mut Game<M>, full: usize) {
        let bytes = TRAYS;
        let level = loaded(&bytes);
        filled(game, &level, 0, message(1, 0, 0));
        assert_eq!(rt; fire(game, &level, 0, 0), Ok(1), "for their own message");
        assert_eq!(rt; stands(game, 0), (0, 0, full));
        filled(game, &level, 1, message(1, 2, 0));
        assert_eq!(rt; fire(game, &level, 0, 1), refused(0, 0, 1, Why::TrayFull));
        assert_eq!(rt;
            strike(game, &level, b"\x51\x00\x01\x51\x01\x00"),
            refused(0, 0, 1, Why::TrayFull),
            "a later taker does not count"
        );
        assert_eq!(rt;
            strike(game, &level, b"\x51\x01\x00\x51\x00\x02"),
            refused(1, 0, 2, Why::TrayFull),
            "room for one of two"
        );
        assert_eq!(rt;
            strike(game, &level, b"\x51\x01\x00\x51\x00\x01"),
            Ok(2),
            "for a later mover's"
        );
        assert_eq!(rt; stands(game, 1), (0, 2, full));
        assert_eq!(rt; stands(game, 2), (0, 0, 1));
        filled(game, &level, 1, message(2, 0, 0));
        assert_eq!(rt;
            strike(game, &level, b"\x51\x01\xFF\x51\x00\x01"),
            Ok(2),
            "a discard too"
        );
        assert_eq!(rt; stands(game, 1), (0, 0, full));
    }

    #[test]
    fn takers_make_room_in_a_full_tray(rt: HostRuntime) {
        takers_make_room(&rt, &mut Game::new(QueueMail::new()), 4);
        takers_make_room(&rt, &mut Game::new(UrgentMail::new()), 6);
    }

    // The urgent mail would put signal 1 before the signal 2 that waits; the queue mail would not mind.
    fn a_taker_goes_first<M: Mail>(rt: &impl Abort, game: &mut Game<M>) -> Result<(), Fail> {
        let bytes = TRAYS;
        let level = loaded(&bytes);
        game.set_out(&level);
        game.tap(&level, 1, message(2, 0, 0))?;
        assert_eq!(rt;
            strike(game, &level, b"\x51\x00\x01\x51\x01\xFF"),
            refused(1, 1, 0xFF, Why::Clash)
        );
        assert_eq!(rt;
            strike(game, &level, b"\x51\x00\x01\x51\x02\x01"),
            refused(1, 2, 1, Why::Clash),
            "both send"
        );
        assert_eq!(rt;
            strike(game, &level, b"\x51\x01\xFF\x51\x01\x01"),
            refused(1, 1, 1, Why::MovesAlready),
            "a discard is a move"
        );
        assert_eq!(rt; stands(game, 1), (0, 0, 1));
        assert_eq!(rt; strike(game, &level, b"\x51\x01\xFF\x51\x00\x01"), Ok(2));
        assert_eq!(rt;
            fire(game, &level, 1, 0),
            Ok(1),
            "what waits is what was sent"
        );
        assert_eq!(rt; stands(game, 0), (0, 0, 1));
        Ok(())
    }

    #[test]
    fn a_taker_goes_before_a_sender(rt: HostRuntime) -> Result<(), Fail> {
        a_taker_goes_first(&rt, &mut Game::new(QueueMail::new()))?;
        a_taker_goes_first(&rt, &mut Game::new(UrgentMail::new()))
    }

    // What piece 1 answers to transition 0, which takes signal 1, after signal 2 was tapped and signal 1 was sent.
    fn sent_to_the_waiting<M: Mail>(game: &mut Game<M>) -> Result<usize, StrikeFault> {
        let bytes = TRAYS;
        let level = loaded(&bytes);
        game.set_out(&level);
        let _ = game.tap(&level, 1, message(2, 0, 0));
        let _ = strike(game, &level, b"\x51\x02\x01");
        fire(game, &level, 1, 0)
    }

    #[test]
    fn a_sent_message_is_put_where_the_mail_says(rt: HostRuntime) {
        assert_eq!(rt;
            sent_to_the_waiting(&mut Game::new(QueueMail::new())),
            refused(0, 1, 0, Why::NoMessage),
            "last"
        );
        assert_eq!(rt;
            sent_to_the_waiting(&mut Game::new(UrgentMail::new())),
            Ok(1),
            "before the greater signal"
        );
    }

    #[test]
    fn trails_hold_what_each_move_did_as_listed(rt: HostRuntime) -> Result<(), Fail> {
        let bytes = TRAYS;
        let level = loaded(&bytes);
        let mut game = Game::new(QueueMail::new());
        game.set_out(&level);
        game.tap(&level, 1, message(1, 2, 0))?;
        game.tap(&level, 0, message(1, 0, 0))?;
        let mut change_places = [NO_CHANGE; 160];
        let mut parcel_places = [NO_PARCEL; 128];
        let mut trails = Trails::new(&mut change_places, &mut parcel_places);
        assert_eq!(rt;
            game.strike(&level, b"\x51\x01\x00\x51\x00\x00\x51\x02\x02", &mut trails),
            Ok(3)
        );
        assert_eq!(rt;
            trails.changes.entries(),
            [change(1, 0, 2), change(0, 0, 0)].as_slice()
        );
        assert_eq!(rt;
            trails.parcels.entries(),
            [
                parcel(2, message(1, 1, 0)),
                parcel(0, message(1, 0, 0)),
                parcel(1, message(2, 0, 0)),
                parcel(1, message(2, 0, 0)),
            ]
            .as_slice()
        );
        assert_eq!(rt;
            (game.waiting(0), game.waiting(1), game.waiting(2)),
            (1, 2, 1)
        );
        Ok(())
    }

    // Both signals have one parameter. Three pieces have one number.
    // Transition 0, on signal 1: receives the number, which must be true.
    // Transition 1, on signal 2: receives the number, which must be true with that of piece 0.
    // Transition 2: the number of piece 1 becomes the piece number.
    // Transition 3: the own number becomes the piece number.
    const TRIALS: [u8; 75] = *b"\
        \x01\x01\x01\x01\
        \x02\x01\x01\
        \x03\x00\x00\x01\x00\xFF\x12\x00\x00\
        \x03\x00\x00\x02\x00\xFF\x1B\x12\x00\x13\x00\x10\x00\x00\x00\x00\x00\
        \x03\x00\x00\x00\xFF\xFF\x10\x00\x00\x00\x01\x21\x00\x10\x00\x00\x00\x01\x11\x00\
        \x03\x00\x00\x00\xFF\xFF\x10\x00\x00\x00\x01\x20\x00\x11\x00\
        \x04\x00\x04\x00\x04\x00\
        \x06";

    #[test]
    fn a_discard_reads_what_its_guards_read(rt: HostRuntime) -> Result<(), Fail> {
        let bytes = TRIALS;
        let level = loaded(&bytes);
        let mut game = Game::new(QueueMail::new());
        game.set_out(&level);
        game.tap(&level, 1, message(1, 0, 0))?;
        assert_eq!(rt;
            strike(&mut game, &level, b"\x51\x02\x02\x51\x01\xFF"),
            Ok(2),
            "the received number is laid over the one that is written"
        );
        assert_eq!(rt; stands(&game, 1), (0, 2, 0));
        game.tap(&level, 1, message(2, 0, 0))?;
        assert_eq!(rt;
            strike(&mut game, &level, b"\x51\x00\x03\x51\x01\xFF"),
            refused(1, 1, 0xFF, Why::Clash),
            "the other number is read"
        );
        assert_eq!(rt; stands(&game, 1), (0, 2, 1));
        assert_eq!(rt;
            strike(&mut game, &level, b"\x51\x01\xFF\x51\x00\x03"),
            Ok(2)
        );
        assert_eq!(rt; stands(&game, 1), (0, 2, 0));
        game.tap(&level, 1, message(1, 5, 0))?;
        assert_eq!(rt;
            strike(&mut game, &level, b"\x51\x00\x03\x51\x01\xFF"),
            refused(1, 1, 0xFF, Why::Guard),
            "with 5 the guard is true"
        );
        Ok(())
    }

    // Signal 1 has two parameters, signal 2 none. 32 pieces have eight numbers.
    // Transition 0, on signal 1: receives the numbers 0 and 1; then each of the eight becomes the piece number.
    // Transition 1: signal 2 four times to the own piece, and four times to the sixteenth after it.
    const BRIM: [u8; 168] = *b"\
        \x01\x02\x01\x00\
        \x02\x08\x01\
        \x03\x00\x00\x01\x00\x01\x10\x00\x00\x00\x01\
        \x20\x00\x11\x20\x01\x11\x20\x02\x11\x20\x03\x11\x20\x04\x11\x20\x05\x11\x20\x06\x11\x20\x07\x11\x00\
        \x03\x00\x00\x00\xFF\xFF\x10\x00\x00\x00\x01\
        \x22\x02\x11\x22\x02\x11\x22\x02\x11\x22\x02\x11\
        \x22\x02\x14\x11\x10\x00\x00\x00\x10\x22\x02\x14\x11\x10\x00\x00\x00\x10\
        \x22\x02\x14\x11\x10\x00\x00\x00\x10\x22\x02\x14\x11\x10\x00\x00\x00\x10\x00\
        \x04\x00\x04\x00\x04\x00\x04\x00\x04\x00\x04\x00\x04\x00\x04\x00\
        \x04\x00\x04\x00\x04\x00\x04\x00\x04\x00\x04\x00\x04\x00\x04\x00\
        \x04\x00\x04\x00\x04\x00\x04\x00\x04\x00\x04\x00\x04\x00\x04\x00\
        \x04\x00\x04\x00\x04\x00\x04\x00\x04\x00\x04\x00\x04\x00\x04\x00\
        \x06";

    #[test]
    fn a_beat_fills_the_trail_of_changes(rt: HostRuntime) -> Result<(), Fail> {
        let bytes = BRIM;
        let level = loaded(&bytes);
        let mut game = Game::new(QueueMail::new());
        game.set_out(&level);
        for piece in 0..16 {
            game.tap(&level, piece, message(1, 50, 60))?;
        }
        let mut change_places = [NO_CHANGE; 160];
        let mut parcel_places = [NO_PARCEL; 128];
        let mut trails = Trails::new(&mut change_places, &mut parcel_places);
        let moves = FIRST_OF_ALL;
        assert_eq!(rt; game.strike(&level, &moves, &mut trails), Ok(16));
        assert_eq!(rt; (trails.changes.len(), trails.parcels.len()), (160, 0));
        assert_eq!(rt;
            trails.changes.entries().first().copied(),
            Some(change(0, 0, 50))
        );
        assert_eq!(rt;
            trails.changes.entries().last().copied(),
            Some(change(15, 7, 15))
        );
        assert_eq!(rt; (game.number(15, 0), game.number(15, 7)), (15, 15));
        assert_eq!(rt; stands(&game, 15), (0, 15, 0));
        Ok(())
    }

    fn sends_all<M: Mail>(rt: &impl Abort, game: &mut Game<M>) {
        let bytes = BRIM;
        let level = loaded(&bytes);
        game.set_out(&level);
        let mut change_places = [NO_CHANGE; 160];
        let mut parcel_places = [NO_PARCEL; 128];
        let mut trails = Trails::new(&mut change_places, &mut parcel_places);
        let moves = SECOND_OF_ALL;
        assert_eq!(rt; game.strike(&level, &moves, &mut trails), Ok(16));
        assert_eq!(rt; (trails.changes.len(), trails.parcels.len()), (0, 128));
        let sent = message(2, 0, 0);
        assert_eq!(rt;
            trails.parcels.entries().first().copied(),
            Some(parcel(0, sent))
        );
        assert_eq!(rt;
            trails.parcels.entries().last().copied(),
            Some(parcel(31, sent))
        );
        assert_eq!(rt; (game.waiting(0), game.waiting(15)), (4, 4));
        assert_eq!(rt; (game.waiting(16), game.waiting(31)), (4, 4));
        assert_eq!(rt;
            game.strike(&level, &moves, &mut trails),
            refused(0, 0, 1, Why::TrayFull),
            "four more fit into no tray"
        );
        assert_eq!(rt; (trails.parcels.len(), game.waiting(0)), (0, 4));
    }

    #[test]
    fn a_beat_fills_the_trail_of_parcels(rt: HostRuntime) {
        sends_all(&rt, &mut Game::new(QueueMail::new()));
        sends_all(&rt, &mut Game::new(UrgentMail::new()));
    }

    // That of a move's refusal is told by its reason.
    #[test]
    fn refusals_have_their_numbers(rt: HostRuntime) {
        assert_eq!(rt; StrikeFault::ShortTrail.number(), 30);
        assert_eq!(rt; StrikeFault::NotMoves.number(), 31);
        assert_eq!(rt; Why::Unknown.number(), 32);
        assert_eq!(rt; Why::MovesAlready.number(), 33);
        assert_eq!(rt; Why::OtherState.number(), 34);
        assert_eq!(rt; Why::NoMessage.number(), 35);
        assert_eq!(rt; Why::Clash.number(), 36);
        assert_eq!(rt; stumble(Cause::Missing, 0).number(), 37);
        assert_eq!(rt; Why::Guard.number(), 38);
        assert_eq!(rt; Why::TrayFull.number(), 39);
    }
}
