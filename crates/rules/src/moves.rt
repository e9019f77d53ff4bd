// Moves.
ghost use Rattle.std.specs.Prelude.{◌≡◌};
ghost use Rattle.std.specs.Iterator.{YieldsFirst, item_count};
ghost use Rattle.rules.specs.Calls.{act_of, front_moves, move_of};
ghost use Rattle.rules.specs.Faults.{act_byte};

use std::marker::Model;

// What a piece does in a move: one of its transitions, by its number in the level, or a discard, which is implicit consumption: the
// first message that waits for it is thrown away because no transition wants it.
#[derive(Clone, Copy, Debug, PartialEq, Eq)]
pub enum Act {
    Transition(u8),
    Discard,
}

// A piece, as an object of the game, and what it does.
#[derive(Clone, Copy, Debug, PartialEq, Eq)]
pub struct Move {
    pub piece: u8,
    pub act: Act,
}

// The moves at the front of the bytes, one after the other.
#[derive(Drop)]
pub struct Moves<'a> {
    bytes: &'a [u8],
}

impl<'a> Model for Moves<'a> {
    ghost use Rattle.std.specs.Prelude.{List};
    ghost use Rattle.rules.specs.declared.moves.Move.{Move};

    ghost Value = { List Move };

    ghost use Rattle.rules.specs.Calls.{front_moves};

    ghost view = { λ s. front_moves s.bytes.now };
}

impl From<u8> for Act {
    ghost from_gives = { λ byte act. act ≡ act_of byte };

    // The byte in a transition's place: FF for a discard.
    fn from(byte: u8) -> Act {
        match byte {
            0xFF => Act::Discard,
            number => Act::Transition(number),
        }
    }
}

impl From<Act> for u8 {
    ghost from_gives = { λ act byte. byte ≡ act_byte act };

    fn from(act: Act) -> u8 {
        match act {
            Act::Transition(number) => number,
            Act::Discard => 0xFF,
        }
    }
}

impl Move {
    // The move of a piece and the byte of a transition. No `From` of a pair, since two bytes say less than two names.
    pub fn of_bytes(piece: u8, transition: u8) -> Move
        ensures { result ≡ move_of piece transition }
    {
        Move {
            piece,
            act: transition.into(),
        }
    }
}

impl<'a> Moves<'a> {
    // Those of some bytes.
    pub fn new(bytes: &'a [u8]) -> Self
        ensures { result ≡ front_moves bytes.now }
    {
        Moves { bytes }
    }
}

impl<'a> Iterator for Moves<'a> {
    type Item = Move;

    ghost next_gives = { YieldsFirst (λ left. left) };

    ghost remaining = { item_count (λ left. left) };

    fn next(&mut self) -> Option<Move> {
        let [0x51, piece, transition, rest @ ..] = self.bytes else {
            return None;
        };
        self.bytes = rest;
        Some(Move::of_bytes(*piece, *transition))
    }
}
