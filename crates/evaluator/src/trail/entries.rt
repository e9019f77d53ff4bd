// A trail as the list of its entries.
ghost use Rattle.std.specs.Prelude.{◌≡◌, [], ◌∷◌, ◌++◌, length, take, drop, if◌then◌else◌, is_ok, nat_lt};
ghost use Rattle.evaluator.specs.Trails.{Kept, held, room};

use super::Trail;

impl<'a, T: Copy> Trail<'a, T> {
    // No entries, in the memory that is lent.
    pub fn new(places: &'a mut [T]) -> Self
        ensures after { held result ≡ [] }
        ensures room { room result ≡ length places.old }
    {
        Trail { places, count: 0 }
    }

    // How many entries there are.
    pub fn len(&self) -> usize
        ensures { result ≡ length (held self.now) }
    {
        self.entries().len()
    }

    // How many there can be.
    pub fn room(&self) -> usize
        ensures { result ≡ room self.now }
    {
        self.places.len()
    }

    // The entries.
    pub fn entries(&self) -> &[T]
        ensures { result.now ≡ held self.now }
    {
        &self.places[..self.count]
    }

    // The entries before a mark; all of them, if there are no more.
    pub fn before(&self, mark: usize) -> &[T]
        ensures { result.now ≡ take mark (held self.now) }
    {
        let entries = self.entries();
        entries.get(..mark).unwrap_or(entries)
    }

    // The entries from a mark on; none, if there are no more.
    pub fn since(&self, mark: usize) -> &[T]
        ensures { result.now ≡ drop mark (held self.now) }
    {
        self.entries().get(mark..).unwrap_or(&[])
    }

    // One entry more at the end; it is given back, and nothing changes, where there is no place for it. The place is indexed after a
    // test, since `get_mut` does not say what the places are after its loan.
    pub fn push(&mut self, entry: T) -> Result<(), T>
        ensures answer { result ≡ (if nat_lt (length (held self.old)) (room self.old) then Ok tt else Err entry) }
        ensures after { held self.new ≡ (if is_ok result then held self.old ++ (entry ∷ []) else held self.old) }
        ensures kept { Kept self.old self.new }
    {
        let at = self.count;
        if at >= self.room() {
            return Err(entry);
        }
        self.places[at] = entry;
        self.count = at + 1;
        Ok(())
    }

    // No entries again.
    pub fn clear(&mut self)
        ensures after { held self.new ≡ [] }
        ensures kept { Kept self.old self.new }
    {
        self.count = 0;
    }
}
