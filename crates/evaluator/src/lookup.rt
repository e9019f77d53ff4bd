// What the entries of the trails say of a cell and of a tray.
ghost use Rattle.std.specs.Prelude.{◌≡◌, ◌≤◌, length};
ghost use Rattle.evaluator.specs.Lookup.{last_change, parcels_to};

use rules::trail::{Change, Parcel};

// The value that the last change to a cell gave it, or none if no change is to that cell.
pub fn last_change(changes: &[Change], piece: u8, number: u8) -> Option<i32>
    ensures { result ≡ last_change changes.now piece number }
{
    changes
        .iter()
        .rev()
        .find(|change| change.piece == piece && change.number == number)
        .map(|change| change.value)
}

// How many parcels go to a piece. Every send asks it of all parcels so far: as a filter that is counted, it took half again as long.
pub fn parcels_to(parcels: &[Parcel], piece: u8) -> usize
    ensures count { result ≡ parcels_to parcels.now piece }
    ensures few { result ≤ length parcels.now }
{
    let mut count = 0;
    for parcel in parcels {
        if parcel.piece == piece {
            count += 1;
        }
    }
    count
}
