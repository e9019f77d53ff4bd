// Values that a move reads, and what it writes and sends.
ghost use Rattle.std.specs.Prelude.{◌≡◌, ℕ, ◌≤◌, List, true};
ghost use Rattle.level.specs.Sound.{deepest};
ghost use Rattle.rules.specs.Trace.{sends, writes};
ghost use Rattle.evaluator.specs.Meeting.{around, left_of, lists_or, meet, sight_of, sight_with};
ghost use Rattle.evaluator.specs.Reckoning.{legible, sight, value_at};
ghost use Rattle.evaluator.specs.Standing.{expression_at};
ghost use Rattle.rules.specs.declared.trail.Change.{Change};
ghost use Rattle.rules.specs.declared.trail.Parcel.{Parcel};
ghost use Rattle.evaluator.specs.Trails.{Kept, held, room};

use super::Turn;
use crate::lookup::{last_change, parcels_to};
use crate::trail::{Trail, Trails};
use crate::view::View;
use mail::Mail;
use rules::fault::Why;
use rules::trail::{Change, Parcel};

impl<M: Mail> Turn<'_, M> {
    // What this move's code sees, with these changes as those of earlier moves and these as its own.
    pub(crate) fn view<'v>(&'v self, earlier: &'v [Change], own: &'v [Change]) -> View<'v>
        ensures { sight result ≡ sight_with self.now earlier.now own.now }
    {
        View {
            level: self.level,
            table: self.table,
            earlier,
            own,
            mover: self.mover,
        }
    }

    // The value of the expression at a place, and the place after it.
    pub(crate) fn expression(&self, at: usize, trails: &Trails) -> Result<(i32, usize), Why>
        requires { legible (expression_at self.now.level.now deepest at) ≡ true }
        ensures { result ≡ value_at (sight_of self.now (held trails.now.changes)) at (expression_at self.now.level.now deepest at) }
    {
        let earlier = trails.changes.before(self.written);
        let own = trails.changes.since(self.written);
        self.view(earlier, own).expression(at)
    }

    // That a number of the mover gets a value.
    pub(crate) fn own_change(&self, number: u8, value: i32) -> Change
        ensures { result ≡ record { piece = self.now.mover; number = number; value = value } }
    {
        Change {
            piece: self.mover,
            number,
            value,
        }
    }

    // A change more, unless an earlier move has written the cell. Full trails hold what any beat writes, so that there is a place.
    pub fn write(&self, change: Change, changes: &mut Trail<Change>) -> Result<(), Why>
        ensures lists { (ps : List Parcel) (n : ℕ) → lists_or result (record { changes = held changes.new; parcels = ps }) ≡ meet (around M.Mail self.now (record { changes = room changes.old; parcels = n })) (record { changes = held changes.old; parcels = ps }) (writes change.piece change.number change.value) }
        ensures kept { Kept changes.old changes.new }
    {
        let earlier = changes.before(self.written);
        if last_change(earlier, change.piece, change.number).is_some() {
            return Err(Why::Clash);
        }
        let _ = changes.push(change);
        Ok(())
    }

    // How many messages a tray keeps of those before the beat.
    fn left(&self, piece: u8) -> usize
        ensures answer { result ≡ left_of M.Mail self.now piece }
        ensures few { result ≤ 8 }
    {
        let taken = self.listed.has_taken(piece) as usize;
        self.mail.count(piece).saturating_sub(taken)
    }

    // A parcel more, unless an earlier move has sent to the piece or its tray is full.
    pub fn send(&self, parcel: Parcel, parcels: &mut Trail<Parcel>) -> Result<(), Why>
        ensures lists { (cs : List Change) (n : ℕ) → lists_or result (record { changes = cs; parcels = held parcels.new }) ≡ meet (around M.Mail self.now (record { changes = n; parcels = room parcels.old })) (record { changes = cs; parcels = held parcels.old }) (sends parcel.piece parcel.message) }
        ensures kept { Kept parcels.old parcels.new }
    {
        if parcels_to(parcels.before(self.sent), parcel.piece) > 0 {
            return Err(Why::Clash);
        }
        let own = parcels_to(parcels.since(self.sent), parcel.piece);
        if self.left(parcel.piece) + own == M::LIMIT {
            return Err(Why::TrayFull);
        }
        let _ = parcels.push(parcel);
        Ok(())
    }
}
