// A trail: a list in lent memory, one and the same for every kind of entry.
mod both;
mod entries;

ghost use Rattle.std.specs.Prelude.{◌≤◌, length};

use rules::trail::{Change, Parcel};

// The first `count` of the lent places; what lies past them means nothing. A count beside a lent slice is a rule of the project.
#[derive(Drop)]
pub struct Trail<'a, T> {
    places: &'a mut [T],
    count: usize,
    ghost within: { count ≤ length places.now },
}

// Both trails of a call: what its moves write, and what they send.
#[derive(Drop)]
pub struct Trails<'c, 'p> {
    pub changes: Trail<'c, Change>,
    pub parcels: Trail<'p, Parcel>,
}
