// Single moves: what a guard and an effect do, discards, and what fire refuses.

#[cfg(test)]
mod tests {
    use crate::calling::{
        LAMP_AND_BELL, NO_CHANGE, NO_PARCEL, change, fire, loaded, message, parcel, refused, stands,
    };
    use evaluator::trail::Trails;
    use game::Game;
    use level::Level;
    use mail::Mail;
    use mail::queue::QueueMail;
    use mail::urgent::UrgentMail;
    use rules::fault::{Cause, StrikeFault, Stumble, TapFault, Why};
    use rules::trail::{Change, Parcel};
    use std::process::Abort;
    use std::test::Fail;

    fn one_by_one<M: Mail>(rt: &impl Abort, game: &mut Game<M>) {
        let bytes = LAMP_AND_BELL;
        let level = loaded(&bytes);
        game.set_out(&level);
        assert_eq!(rt; game.tap(&level, 0, message(1, 30, 0)), Ok(1));
        assert_eq!(rt; fire(game, &level, 0, 0), Ok(1));
        assert_eq!(rt; stands(game, 0), (1, 30, 0));
        assert_eq!(rt;
            fire(game, &level, 1, 1),
            refused(0, 1, 1, Why::Guard),
            "30 is not less"
        );
        assert_eq!(rt; stands(game, 1), (0, 7, 0));
    }

    #[test]
    fn fired_later_the_bell_sees_the_new_number(rt: HostRuntime) {
        one_by_one(&rt, &mut Game::new(QueueMail::new()));
        one_by_one(&rt, &mut Game::new(UrgentMail::new()));
    }

    #[test]
    fn fired_first_the_bell_sees_the_old_number(rt: HostRuntime) {
        let bytes = LAMP_AND_BELL;
        let level = loaded(&bytes);
        let mut game = Game::new(QueueMail::new());
        game.set_out(&level);
        assert_eq!(rt; fire(&mut game, &level, 1, 1), Ok(1));
        assert_eq!(rt; stands(&game, 1), (0, 9, 0));
        assert_eq!(rt; fire(&mut game, &level, 1, 1), Ok(1));
        assert_eq!(rt; stands(&game, 1), (0, 11, 0));
    }

    fn wanted<M: Mail>(rt: &impl Abort, game: &mut Game<M>) {
        let bytes = LAMP_AND_BELL;
        let level = loaded(&bytes);
        game.set_out(&level);
        assert_eq!(rt; game.tap(&level, 0, message(1, 30, 0)), Ok(1));
        assert_eq!(rt;
            fire(game, &level, 0, 0xFF),
            refused(0, 0, 0xFF, Why::Guard)
        );
        assert_eq!(rt; stands(game, 0), (0, 2, 1));
        assert_eq!(rt; stands(game, 1), (0, 7, 0));
    }

    #[test]
    fn the_lamp_may_not_discard_what_it_wants(rt: HostRuntime) {
        wanted(&rt, &mut Game::new(QueueMail::new()));
        wanted(&rt, &mut Game::new(UrgentMail::new()));
    }

    #[test]
    fn the_fifth_tap_waits_for_a_fire(rt: HostRuntime) {
        let bytes = LAMP_AND_BELL;
        let level = loaded(&bytes);
        let mut game = Game::new(QueueMail::new());
        game.set_out(&level);
        for _ in 0..4 {
            assert_eq!(rt; game.tap(&level, 0, message(1, 30, 0)), Ok(1));
        }
        assert_eq!(rt;
            game.tap(&level, 0, message(1, 31, 0)),
            Err(TapFault::TrayFull)
        );
        assert_eq!(rt; fire(&mut game, &level, 0, 0), Ok(1));
        assert_eq!(rt; stands(&game, 0), (1, 30, 3));
        assert_eq!(rt; game.tap(&level, 0, message(1, 31, 0)), Ok(1));
        assert_eq!(rt; stands(&game, 0), (1, 30, 4));
    }

    // Signal 1 has two parameters. Both transitions receive them into the numbers 0 and 1. Transition 0 then sets number 2 to their
    // sum, 3 to the difference, 4 to the product, 5 to the quotient, 6 to the remainder, and 7 to -7; transition 1 sets number 2 to
    // whether they are equal, 3 to whether the first is less, 4 to and, 5 to or, 6 to not the first, and 7 to the piece number. There
    // are two pieces.
    const OPERATORS: [u8; 112] = *b"\
        \x01\x02\
        \x02\x08\x01\
        \x03\x00\x00\x01\x00\x01\x10\x00\x00\x00\x01\
        \x20\x02\x14\x12\x00\x12\x01\
        \x20\x03\x15\x12\x00\x12\x01\
        \x20\x04\x16\x12\x00\x12\x01\
        \x20\x05\x17\x12\x00\x12\x01\
        \x20\x06\x18\x12\x00\x12\x01\
        \x20\x07\x10\xFF\xFF\xFF\xF9\
        \x00\
        \x03\x00\x00\x01\x00\x01\x10\x00\x00\x00\x01\
        \x20\x02\x19\x12\x00\x12\x01\
        \x20\x03\x1A\x12\x00\x12\x01\
        \x20\x04\x1B\x12\x00\x12\x01\
        \x20\x05\x1C\x12\x00\x12\x01\
        \x20\x06\x1D\x12\x00\
        \x20\x07\x11\
        \x00\
        \x04\x00\x04\x00\
        \x06";

    // What a transition of piece 1 makes of two numbers: its numbers 2 to 7.
    fn worked_out(transition: u8, first: i32, second: i32) -> Result<[i32; 6], Fail> {
        let bytes = OPERATORS;
        let level = loaded(&bytes);
        let mut game = Game::new(QueueMail::new());
        game.set_out(&level);
        game.tap(&level, 1, message(1, first, second))?;
        fire(&mut game, &level, 1, transition)?;
        Ok([
            game.number(1, 2),
            game.number(1, 3),
            game.number(1, 4),
            game.number(1, 5),
            game.number(1, 6),
            game.number(1, 7),
        ])
    }

    #[test]
    fn numbers_wrap_and_quotients_drop_their_fractions(rt: HostRuntime) -> Result<(), Fail> {
        assert_eq!(rt; worked_out(0, -7, 2)?, [-5, -9, -14, -3, -1, -7]);
        assert_eq!(rt; worked_out(0, 7, -2)?, [5, 9, -14, -3, 1, -7]);
        assert_eq!(rt; worked_out(0, -7, -2)?, [-9, -5, 14, 3, -1, -7]);
        assert_eq!(rt;
            worked_out(0, i32::MIN, -1)?,
            [i32::MAX, -2147483647, i32::MIN, i32::MIN, 0, -7],
            "the quotient that wraps"
        );
        assert_eq!(rt; worked_out(0, i32::MAX, i32::MAX)?, [-2, 0, 1, 1, 0, -7]);
        assert_eq!(rt; worked_out(0, 65536, 65536)?, [131072, 0, 0, 1, 0, -7]);
        Ok(())
    }

    #[test]
    fn any_number_but_0_is_true(rt: HostRuntime) -> Result<(), Fail> {
        assert_eq!(rt; worked_out(1, -7, 2)?, [0, 1, 1, 1, 0, 1]);
        assert_eq!(rt; worked_out(1, 2, -7)?, [0, 0, 1, 1, 0, 1]);
        assert_eq!(rt; worked_out(1, 0, 5)?, [0, 1, 0, 1, 1, 1]);
        assert_eq!(rt; worked_out(1, 5, 0)?, [0, 0, 0, 1, 0, 1]);
        assert_eq!(rt; worked_out(1, 0, 0)?, [1, 0, 0, 0, 1, 1]);
        assert_eq!(rt; worked_out(1, -1, -1)?, [1, 0, 1, 1, 0, 1]);
        Ok(())
    }

    // Signal 1 has two parameters. The pieces 0 and 1 have two numbers, x and y, piece 2 has none. All transitions receive x and y.
    // Transition 0: number 0 of piece x (the command at byte 16) becomes the piece number by y (20).
    // Transition 1: x becomes the remainder (38) of number 1 of piece x (39) by y.
    // Transition 2: signal 1 to piece x (57), with the piece number by y (61) and the piece number.
    // Transition 3, its guard: 1 or the piece number by y (79).
    // Transition 4, its guard: x and the remainder of the piece number by y (93).
    const PITFALLS: [u8; 108] = *b"\
        \x01\x02\
        \x02\x02\x01\
        \x03\x00\x00\x01\x00\x01\x10\x00\x00\x00\x01\
        \x21\x00\x12\x00\x17\x11\x12\x01\x00\
        \x03\x00\x00\x01\x00\x01\x10\x00\x00\x00\x01\
        \x20\x00\x18\x13\x01\x12\x00\x12\x01\x00\
        \x03\x00\x00\x01\x00\x01\x10\x00\x00\x00\x01\
        \x22\x01\x12\x00\x17\x11\x12\x01\x11\x00\
        \x03\x00\x00\x01\x00\x01\x1C\x10\x00\x00\x00\x01\x17\x11\x12\x01\x00\
        \x03\x00\x00\x01\x00\x01\x1B\x12\x00\x18\x11\x12\x01\x00\
        \x02\x00\x01\
        \x04\x00\x04\x00\x04\x01\
        \x06";

    // What piece 1 answers to a transition, with x and y received.
    fn received(transition: u8, x: i32, y: i32) -> Result<usize, StrikeFault> {
        let bytes = PITFALLS;
        let level = loaded(&bytes);
        let mut game = Game::new(QueueMail::new());
        game.set_out(&level);
        let _ = game.tap(&level, 1, message(1, x, y));
        fire(&mut game, &level, 1, transition)
    }

    fn stumbles(transition: u8, cause: Cause, place: usize) -> Result<usize, StrikeFault> {
        refused(0, 1, transition, Why::Stumbles(Stumble { cause, place }))
    }

    #[test]
    fn a_target_is_checked_after_all_expressions(rt: HostRuntime) {
        assert_eq!(rt;
            received(0, 9, 0),
            stumbles(0, Cause::ZeroDivisor, 20),
            "both wrong"
        );
        assert_eq!(rt;
            received(0, 9, 1),
            stumbles(0, Cause::Missing, 16),
            "no such piece"
        );
        assert_eq!(rt;
            received(0, -1, 1),
            stumbles(0, Cause::Missing, 16),
            "below 0"
        );
        assert_eq!(rt;
            received(0, 2, 1),
            stumbles(0, Cause::Missing, 16),
            "no such number"
        );
        assert_eq!(rt; received(0, 0, 1), Ok(1));
        assert_eq!(rt;
            received(2, 9, 0),
            stumbles(2, Cause::ZeroDivisor, 61),
            "both wrong"
        );
        assert_eq!(rt;
            received(2, 3, 1),
            stumbles(2, Cause::Missing, 57),
            "one past the last"
        );
        assert_eq!(rt;
            received(2, -1, 1),
            stumbles(2, Cause::Missing, 57),
            "below 0"
        );
        assert_eq!(rt;
            received(2, 2, 1),
            Ok(1),
            "a piece without numbers has a tray"
        );
    }

    #[test]
    fn both_sides_are_evaluated_the_left_one_first(rt: HostRuntime) {
        assert_eq!(rt;
            received(1, 9, 0),
            stumbles(1, Cause::Missing, 39),
            "before the divisor"
        );
        assert_eq!(rt;
            received(1, 2, 0),
            stumbles(1, Cause::Missing, 39),
            "no such number"
        );
        assert_eq!(rt; received(1, 0, 0), stumbles(1, Cause::ZeroDivisor, 38));
        assert_eq!(rt; received(1, 1, 5), Ok(1));
        assert_eq!(rt;
            received(3, 0, 0),
            stumbles(3, Cause::ZeroDivisor, 79),
            "1 or a stumble"
        );
        assert_eq!(rt; received(3, 0, 1), Ok(1));
        assert_eq!(rt;
            received(4, 0, 0),
            stumbles(4, Cause::ZeroDivisor, 93),
            "0 and a stumble"
        );
        assert_eq!(rt; received(4, 1, 1), refused(0, 1, 4, Why::Guard), "1 and 0");
        assert_eq!(rt; received(4, 1, 2), Ok(1), "1 and 1");
    }

    // Signal 1 has one parameter, signal 2 none. All transitions go from state 0 to 1 on signal 1. Transition 0 receives number 0 and
    // needs it less than number 1; transition 1 receives number 1 and needs it equal to number 0; transition 2 receives number 0 and
    // needs 1 by it (the command at byte 37) true. Piece 0 starts with 8 and 5, piece 1 with 2 and 5, piece 2 with 4 and 0.
    const WISHES: [u8; 83] = *b"\
        \x01\x01\x01\x00\
        \x02\x02\x02\
        \x03\x00\x01\x01\x00\xFF\x1A\x12\x00\x12\x01\x00\
        \x03\x00\x01\x01\x01\xFF\x19\x12\x00\x12\x01\x00\
        \x03\x00\x01\x01\x00\xFF\x17\x10\x00\x00\x00\x01\x12\x00\x00\
        \x04\x00\x05\x00\x00\x00\x00\x08\x05\x01\x00\x00\x00\x05\
        \x04\x00\x05\x00\x00\x00\x00\x02\x05\x01\x00\x00\x00\x05\
        \x04\x00\x05\x00\x00\x00\x00\x04\
        \x06";

    // What a piece answers to a discard of signal 1 with a value.
    fn discarded(piece: u8, value: i32) -> Result<usize, StrikeFault> {
        let bytes = WISHES;
        let level = loaded(&bytes);
        let mut game = Game::new(QueueMail::new());
        game.set_out(&level);
        let _ = game.tap(&level, piece, message(1, value, 0));
        fire(&mut game, &level, piece, 0xFF)
    }

    #[test]
    fn a_discard_tries_the_guards_with_the_received_number(rt: HostRuntime) {
        assert_eq!(rt; discarded(0, 7), Ok(1), "none is true");
        assert_eq!(rt; discarded(1, 7), Ok(1), "though 2 is less than 5");
        assert_eq!(rt;
            discarded(0, 3),
            refused(0, 0, 0xFF, Why::Guard),
            "the first is true"
        );
        assert_eq!(rt;
            discarded(0, 8),
            refused(0, 0, 0xFF, Why::Guard),
            "the second"
        );
        assert_eq!(rt;
            discarded(2, 1),
            refused(0, 2, 0xFF, Why::Guard),
            "the third"
        );
        let stumble = Stumble {
            cause: Cause::ZeroDivisor,
            place: 37,
        };
        assert_eq!(rt;
            discarded(2, 0),
            refused(0, 2, 0xFF, Why::Stumbles(stumble)),
            "the third stumbles"
        );
        assert_eq!(rt;
            discarded(0, 0),
            refused(0, 0, 0xFF, Why::Guard),
            "the first is true, and the third is not tried"
        );
    }

    #[test]
    fn a_discard_takes_its_message_and_nothing_else(rt: HostRuntime) -> Result<(), Fail> {
        let bytes = WISHES;
        let level = loaded(&bytes);
        let mut game = Game::new(QueueMail::new());
        game.set_out(&level);
        let mut change_places = [NO_CHANGE; 160];
        let mut parcel_places = [NO_PARCEL; 128];
        let mut trails = Trails::new(&mut change_places, &mut parcel_places);
        game.tap(&level, 0, message(1, 7, 0))?;
        assert_eq!(rt; game.fire(&level, 0, 0xFF, &mut trails), Ok(1));
        assert_eq!(rt; (trails.changes.len(), trails.parcels.len()), (0, 0));
        assert_eq!(rt; stands(&game, 0), (0, 8, 0));
        assert_eq!(rt; game.number(0, 1), 5);
        game.tap(&level, 0, message(2, 0, 0))?;
        assert_eq!(rt;
            fire(&mut game, &level, 0, 0xFF),
            Ok(1),
            "no transition on that signal"
        );
        game.tap(&level, 0, message(1, 3, 0))?;
        assert_eq!(rt; fire(&mut game, &level, 0, 0), Ok(1));
        game.tap(&level, 0, message(1, 3, 0))?;
        assert_eq!(rt;
            fire(&mut game, &level, 0, 0xFF),
            Ok(1),
            "none leaves state 1"
        );
        assert_eq!(rt; stands(&game, 0), (1, 3, 0));
        Ok(())
    }

    #[test]
    fn a_move_is_checked_before_it_is_evaluated(rt: HostRuntime) -> Result<(), Fail> {
        let bytes = WISHES;
        let level = loaded(&bytes);
        let mut game = Game::new(QueueMail::new());
        game.set_out(&level);
        assert_eq!(rt;
            fire(&mut game, &level, 3, 0),
            refused(0, 3, 0, Why::Unknown)
        );
        assert_eq!(rt;
            fire(&mut game, &level, 255, 0xFF),
            refused(0, 255, 0xFF, Why::Unknown)
        );
        assert_eq!(rt;
            fire(&mut game, &level, 0, 3),
            refused(0, 0, 3, Why::Unknown)
        );
        assert_eq!(rt;
            fire(&mut game, &level, 0, 0),
            refused(0, 0, 0, Why::NoMessage)
        );
        assert_eq!(rt;
            fire(&mut game, &level, 0, 0xFF),
            refused(0, 0, 0xFF, Why::NoMessage)
        );
        game.tap(&level, 0, message(2, 0, 0))?;
        assert_eq!(rt;
            fire(&mut game, &level, 0, 0),
            refused(0, 0, 0, Why::NoMessage),
            "another signal"
        );
        game.tap(&level, 1, message(1, 3, 0))?;
        assert_eq!(rt; fire(&mut game, &level, 1, 0), Ok(1));
        assert_eq!(rt;
            fire(&mut game, &level, 1, 0),
            refused(0, 1, 0, Why::OtherState),
            "before the empty tray"
        );
        Ok(())
    }

    #[test]
    fn a_transition_belongs_to_the_kind_of_its_piece(rt: HostRuntime) {
        let bytes = LAMP_AND_BELL;
        let level = loaded(&bytes);
        let mut game = Game::new(QueueMail::new());
        game.set_out(&level);
        assert_eq!(rt;
            fire(&mut game, &level, 0, 1),
            refused(0, 0, 1, Why::Unknown),
            "the bell's"
        );
        assert_eq!(rt;
            fire(&mut game, &level, 1, 0),
            refused(0, 1, 0, Why::Unknown),
            "the lamp's"
        );
        assert_eq!(rt;
            fire(&mut game, &Level::new(), 0, 0),
            refused(0, 0, 0, Why::Unknown),
            "a level without pieces"
        );
    }

    // Signal 1 has two parameters, and transition 0, from state 0 to 1, receives both into number 0, which must be true. Then number 1
    // becomes their sum; then its square, seen as another piece would see it; then both go to piece 0 with signal 1. Number 1 starts
    // as 5.
    const BOTH_INTO_ONE: [u8; 49] = *b"\
        \x01\x02\
        \x02\x02\x02\
        \x03\x00\x01\x01\x00\x00\x12\x00\
        \x20\x01\x14\x12\x00\x12\x01\
        \x20\x01\x16\x13\x01\x11\x12\x01\
        \x22\x01\x10\x00\x00\x00\x00\x12\x01\x12\x00\
        \x00\
        \x04\x00\x05\x01\x00\x00\x00\x05\
        \x06";

    #[test]
    fn a_move_sees_its_own_writes_and_its_trails_hold_them_all(
        rt: HostRuntime,
    ) -> Result<(), Fail> {
        let bytes = BOTH_INTO_ONE;
        let level = loaded(&bytes);
        let mut game = Game::new(QueueMail::new());
        game.set_out(&level);
        let mut change_places = [NO_CHANGE; 160];
        let mut parcel_places = [NO_PARCEL; 128];
        let mut trails = Trails::new(&mut change_places, &mut parcel_places);
        game.tap(&level, 0, message(1, 7, 4))?;
        assert_eq!(rt; game.fire(&level, 0, 0, &mut trails), Ok(1));
        assert_eq!(rt;
            trails.changes.entries(),
            [
                change(0, 0, 7),
                change(0, 0, 4),
                change(0, 1, 9),
                change(0, 1, 81),
            ]
            .as_slice()
        );
        assert_eq!(rt;
            trails.parcels.entries(),
            [parcel(0, message(1, 81, 4))].as_slice()
        );
        assert_eq!(rt; stands(&game, 0), (1, 4, 1));
        assert_eq!(rt; game.number(0, 1), 81);
        Ok(())
    }

    #[test]
    fn a_refused_fire_leaves_no_entries(rt: HostRuntime) -> Result<(), Fail> {
        let bytes = BOTH_INTO_ONE;
        let level = loaded(&bytes);
        let mut game = Game::new(QueueMail::new());
        game.set_out(&level);
        let mut change_places = [NO_CHANGE; 160];
        let mut parcel_places = [NO_PARCEL; 128];
        let mut trails = Trails::new(&mut change_places, &mut parcel_places);
        assert!(rt;
            trails.changes.push(NO_CHANGE).is_ok() && trails.parcels.push(NO_PARCEL).is_ok()
        );
        game.tap(&level, 0, message(1, 7, 0))?;
        assert_eq!(rt;
            game.fire(&level, 0, 0, &mut trails),
            refused(0, 0, 0, Why::Guard),
            "the second value stays, and is 0"
        );
        assert_eq!(rt; (trails.changes.len(), trails.parcels.len()), (0, 0));
        assert_eq!(rt; stands(&game, 0), (0, 0, 1));
        assert_eq!(rt; game.number(0, 1), 5);
        Ok(())
    }

    // Rings the bell with trails of so many places.
    fn rung(changes: &mut [Change], parcels: &mut [Parcel]) -> Result<usize, StrikeFault> {
        let bytes = LAMP_AND_BELL;
        let level = loaded(&bytes);
        let mut game = Game::new(QueueMail::new());
        game.set_out(&level);
        let mut trails = Trails::new(changes, parcels);
        game.fire(&level, 1, 1, &mut trails)
    }

    #[test]
    fn shorter_trails_are_refused(rt: HostRuntime) {
        assert_eq!(rt;
            rung(&mut [NO_CHANGE; 159], &mut [NO_PARCEL; 128]),
            Err(StrikeFault::ShortTrail)
        );
        assert_eq!(rt;
            rung(&mut [NO_CHANGE; 160], &mut [NO_PARCEL; 127]),
            Err(StrikeFault::ShortTrail)
        );
        assert_eq!(rt; rung(&mut [NO_CHANGE; 160], &mut [NO_PARCEL; 128]), Ok(1));
        assert_eq!(rt; rung(&mut [NO_CHANGE; 161], &mut [NO_PARCEL; 129]), Ok(1));
    }
}
