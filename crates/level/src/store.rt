// A level in memory.
mod load;
mod lookup;

ghost use Rattle.std.specs.Prelude.{◌≡◌, ℕ, ◌<◌, true, slice_index};
ghost use Rattle.level.specs.Contents.{contents};
ghost use Rattle.level.specs.Entries.{index_of};
ghost use Rattle.level.specs.Reading.{accepted, tree};

use crate::index::Index;

// Borrows the app's bytes, and keeps an index of what stands where in them. Its bytes stay accepted for its whole life, so all
// names in it exist, all its code reads to its end, and the index is that of the level that they spell.
#[derive(Drop)]
pub struct Level<'a> {
    bytes: &'a [u8],
    index: Index,
    ghost octets: { (k : ℕ) → slice_index bytes.now k < 256 },
    ghost legible: { accepted bytes.now ≡ true },
    ghost indexed: { ∥ contents index ≡ index_of (tree bytes.now) ∥₁ },
}
