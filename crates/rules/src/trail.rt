// The entries of the two trails that a call fills.
use mail::message::Message;

// A write: the cell, which is a piece and the index of one of its numbers, and the value.
#[derive(Clone, Copy, Debug, PartialEq, Eq)]
pub struct Change {
    pub piece: u8,
    pub number: u8,
    pub value: i32,
}

// A send: the piece to whose tray the message goes.
#[derive(Clone, Copy, Debug, PartialEq, Eq)]
pub struct Parcel {
    pub piece: u8,
    pub message: Message,
}
