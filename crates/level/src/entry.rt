// What the index holds of kinds, transitions and pieces.

// A kind: how many numbers and states its pieces have.
#[derive(Clone, Copy, Debug, Default, PartialEq, Eq)]
pub struct KindEntry {
    pub numbers: u8,
    pub states: u8,
}

// A transition: its kind, states and signal (0: spontaneous, as the level's bytes and the rules number it), the own numbers that
// receive the signal's parameters, and where in the level's bytes its guard and its effect stand.
#[derive(Clone, Copy, Debug, Default, PartialEq, Eq)]
pub struct TransitionEntry {
    pub kind: u8,
    pub source: u8,
    pub target: u8,
    pub signal: u8,
    pub first: Option<u8>,
    pub second: Option<u8>,
    pub guard: usize,
    pub effect: usize,
}

// A piece: its kind, how many numbers it has, and what its row starts with.
#[derive(Clone, Copy, Debug, Default, PartialEq, Eq)]
pub struct PieceEntry {
    pub kind: u8,
    pub numbers: u8,
    pub starts: [i32; 8],
}

// The operands of a transition: what its entry says but for its kind and where its code stands.
#[derive(Clone, Copy)]
pub struct Head {
    pub source: u8,
    pub target: u8,
    pub signal: u8,
    pub first: Option<u8>,
    pub second: Option<u8>,
}

// A number of a piece and the value it starts with.
#[derive(Clone, Copy)]
pub struct Start {
    pub number: u8,
    pub value: i32,
}
