// Why a call is refused. Each layer holds the one below it whole.
ghost use Rattle.std.specs.Prelude.{◌≡◌};
ghost use Rattle.rules.specs.declared.fault.Why.TheVariants.{Stumbles};
ghost use Rattle.rules.specs.declared.fault.StrikeFault.TheVariants.{AtMove};
ghost use Rattle.rules.specs.declared.fault.CallFault.TheVariants.{Tap, Strike};
ghost use Rattle.rules.specs.Faults.{cause_number, why_number, strike_number, tap_number, call_number};

use crate::moves::Move;

// Why a command of a guard or an effect cannot be carried out.
#[derive(Clone, Copy, Debug, PartialEq, Eq)]
pub enum Cause {
    // the divisor is 0
    ZeroDivisor,
    // no such piece, or it has no such number
    Missing,
}

// `place` is where in the level's bytes the command stands that met it.
#[derive(Clone, Copy, Debug, PartialEq, Eq)]
pub struct Stumble {
    pub cause: Cause,
    pub place: usize,
}

// What is wrong with a move.
#[derive(Clone, Copy, Debug, PartialEq, Eq)]
pub enum Why {
    // no such piece, or not its transition
    Unknown,
    // the piece moves already in this beat
    MovesAlready,
    // the transition leaves another state
    OtherState,
    // no message waits, or the first one bears another signal
    NoMessage,
    // it clashes with an earlier move
    Clash,
    Stumbles(Stumble),
    // its guard is false; of a discard, one guard is true
    Guard,
    // a tray that it sends to is full
    TrayFull,
}

// `place` is the move's place in its beat.
#[derive(Clone, Copy, Debug, PartialEq, Eq)]
pub struct MoveFault {
    pub place: usize,
    pub moving: Move,
    pub why: Why,
}

// What fire and strike refuse.
#[derive(Clone, Copy, Debug, PartialEq, Eq)]
pub enum StrikeFault {
    // a lent trail is too short
    ShortTrail,
    // the bytes are not 1 to 16 moves
    NotMoves,
    AtMove(MoveFault),
}

#[derive(Clone, Copy, Debug, PartialEq, Eq)]
pub enum TapFault {
    NoPiece,
    NoSignal,
    // a number that the signal has no parameter for is not 0
    Unused,
    TrayFull,
}

#[derive(Clone, Copy, Debug, PartialEq, Eq)]
pub enum CallFault {
    Tap(TapFault),
    Strike(StrikeFault),
}

// These are by hand, since what a derived `From` makes is not said by any clause.
impl From<Stumble> for Why {
    ghost from_gives = { λ x y. y ≡ Stumbles x };

    fn from(stumble: Stumble) -> Why {
        Why::Stumbles(stumble)
    }
}

impl From<MoveFault> for StrikeFault {
    ghost from_gives = { λ x y. y ≡ AtMove x };

    fn from(fault: MoveFault) -> StrikeFault {
        StrikeFault::AtMove(fault)
    }
}

impl From<TapFault> for CallFault {
    ghost from_gives = { λ x y. y ≡ Tap x };

    fn from(fault: TapFault) -> CallFault {
        CallFault::Tap(fault)
    }
}

impl From<StrikeFault> for CallFault {
    ghost from_gives = { λ x y. y ≡ Strike x };

    fn from(fault: StrikeFault) -> CallFault {
        CallFault::Strike(fault)
    }
}

// The numbers are methods and no `From`, since a method says of what it is the number.
impl Cause {
    // 1 or 2.
    pub fn number(self) -> u8
        ensures { result ≡ cause_number self }
    {
        match self {
            Cause::ZeroDivisor => 1,
            Cause::Missing => 2,
        }
    }
}

impl Why {
    // The number of the refusal, 32 to 39.
    pub fn number(self) -> u8
        ensures { result ≡ why_number self }
    {
        match self {
            Why::Unknown => 32,
            Why::MovesAlready => 33,
            Why::OtherState => 34,
            Why::NoMessage => 35,
            Why::Clash => 36,
            Why::Stumbles(_) => 37,
            Why::Guard => 38,
            Why::TrayFull => 39,
        }
    }
}

impl StrikeFault {
    // 30, 31, or that of the move.
    pub fn number(self) -> u8
        ensures { result ≡ strike_number self }
    {
        match self {
            StrikeFault::ShortTrail => 30,
            StrikeFault::NotMoves => 31,
            StrikeFault::AtMove(fault) => fault.why.number(),
        }
    }
}

impl TapFault {
    // The number of the refusal, 20 to 23.
    pub fn number(self) -> u8
        ensures { result ≡ tap_number self }
    {
        match self {
            TapFault::NoPiece => 20,
            TapFault::NoSignal => 21,
            TapFault::Unused => 22,
            TapFault::TrayFull => 23,
        }
    }
}

impl CallFault {
    // That of the tap, or of the fire or strike.
    pub fn number(self) -> u8
        ensures { result ≡ call_number self }
    {
        match self {
            CallFault::Tap(fault) => fault.number(),
            CallFault::Strike(fault) => fault.number(),
        }
    }
}
