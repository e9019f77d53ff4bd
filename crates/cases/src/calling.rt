// What the tests of calls on a game have in common.
use evaluator::trail::Trails;
use game::Game;
use level::Level;
use mail::Mail;
use mail::message::Message;
use rules::fault::{MoveFault, StrikeFault, Why};
use rules::moves::Move;
use rules::trail::{Change, Parcel};

// The lamp is piece 0 and starts with 2; on signal 1 it receives its number and goes from state 0 to 1 (transition 0). The bell is
// piece 1 and starts with 7; if the lamp's number is less than 5, it adds it to its own (transition 1).
pub(crate) const LAMP_AND_BELL: [u8; 69] = *b"\
    \x01\x01\
    \x02\x01\x02\
    \x03\x00\x01\x01\x00\xFF\x10\x00\x00\x00\x01\x00\
    \x02\x01\x01\
    \x03\x00\x00\x00\xFF\xFF\x1A\x13\x00\x10\x00\x00\x00\x00\x10\x00\x00\x00\x05\
    \x20\x00\x14\x12\x00\x13\x00\x10\x00\x00\x00\x00\x00\
    \x04\x00\x05\x00\x00\x00\x00\x02\
    \x04\x01\x05\x00\x00\x00\x00\x07\
    \x06";

// What memory for trails holds before a call fills it: of tests only, so no type derives a `Default` for it.
pub(crate) const NO_CHANGE: Change = Change {
    piece: 0,
    number: 0,
    value: 0,
};

pub(crate) const NO_PARCEL: Parcel = Parcel {
    piece: 0,
    message: Message::BLANK,
};

pub(crate) fn loaded(bytes: &[u8]) -> Level {
    let mut level = Level::new();
    let _ = level.load(bytes);
    level
}

pub(crate) fn message(signal: u8, first: i32, second: i32) -> Message {
    Message {
        signal,
        first,
        second,
    }
}

pub(crate) fn change(piece: u8, number: u8, value: i32) -> Change {
    Change {
        piece,
        number,
        value,
    }
}

pub(crate) fn parcel(piece: u8, message: Message) -> Parcel {
    Parcel { piece, message }
}

// The refusal of the move at a place of its beat.
pub(crate) fn refused(
    place: usize,
    piece: u8,
    transition: u8,
    why: Why,
) -> Result<usize, StrikeFault> {
    Err(StrikeFault::AtMove(MoveFault {
        place,
        moving: Move::of_bytes(piece, transition),
        why,
    }))
}

// Fires with full trails, which are let go.
pub(crate) fn fire<M: Mail>(
    game: &mut Game<M>,
    level: &Level,
    piece: u8,
    transition: u8,
) -> Result<usize, StrikeFault> {
    let mut change_places = [NO_CHANGE; 160];
    let mut parcel_places = [NO_PARCEL; 128];
    let mut trails = Trails::new(&mut change_places, &mut parcel_places);
    game.fire(level, piece, transition, &mut trails)
}

// Strikes with full trails, which are let go.
pub(crate) fn strike<M: Mail>(
    game: &mut Game<M>,
    level: &Level,
    moves: &[u8],
) -> Result<usize, StrikeFault> {
    let mut change_places = [NO_CHANGE; 160];
    let mut parcel_places = [NO_PARCEL; 128];
    let mut trails = Trails::new(&mut change_places, &mut parcel_places);
    game.strike(level, moves, &mut trails)
}

// How a piece stands: its state, its first number, and how many messages wait for it.
pub(crate) fn stands<M: Mail>(game: &Game<M>, piece: u8) -> (u8, i32, usize) {
    (
        game.state(piece),
        game.number(piece, 0),
        game.waiting(piece),
    )
}
