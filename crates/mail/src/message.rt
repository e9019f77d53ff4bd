// A message: what one piece sends to another, and all that a tray holds.

// A signal's number, and the two numbers that go with it; a number that the signal has no use for is 0.
#[derive(Clone, Copy, PartialEq, Eq, Debug)]
pub struct Message {
    pub signal: u8,
    pub first: i32,
    pub second: i32,
}

impl Message {
    // What stands in a place where no message waits. A constant, and no `Default`, so that other constants can hold it.
    pub const BLANK: Message = Message {
        signal: 0,
        first: 0,
        second: 0,
    };
}
