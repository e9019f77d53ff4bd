// Both trails together.
ghost use Rattle.std.specs.Prelude.{◌≡◌, [], length};
ghost use Rattle.evaluator.specs.Trails.{KeptBoth, lists, places};

use super::{Trail, Trails};
use rules::trail::{Change, Parcel};
use std::mem::replace;

impl<'c, 'p> Trails<'c, 'p> {
    // No entries, in the memory that is lent.
    pub fn new(changes: &'c mut [Change], parcels: &'p mut [Parcel]) -> Self
        ensures after { lists result ≡ record { changes = []; parcels = [] } }
        ensures places { places result ≡ record { changes = length changes.old; parcels = length parcels.old } }
    {
        Trails {
            changes: Trail::new(changes),
            parcels: Trail::new(parcels),
        }
    }

    // No entries again.
    pub fn clear(&mut self)
        ensures after { lists self.new ≡ record { changes = []; parcels = [] } }
        ensures kept { KeptBoth self.old self.new }
    {
        self.changes.clear();
        self.parcels.clear();
    }

    // Both trails, out of two that are lent each by itself. What stays there meanwhile has no places.
    pub fn take(changes: &mut Trail<'c, Change>, parcels: &mut Trail<'p, Parcel>) -> Self
        ensures { result ≡ record { changes = changes.old; parcels = parcels.old } }
    {
        Trails {
            changes: replace(changes, Trail::new(&mut [])),
            parcels: replace(parcels, Trail::new(&mut [])),
        }
    }

    // Gives each trail back to where it was taken from.
    pub fn give_back(self, changes: &mut Trail<'c, Change>, parcels: &mut Trail<'p, Parcel>)
        ensures changes { changes.new ≡ self.entry.changes }
        ensures parcels { parcels.new ≡ self.entry.parcels }
    {
        *changes = self.changes;
        *parcels = self.parcels;
    }
}
