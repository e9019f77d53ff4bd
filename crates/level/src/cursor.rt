// A place in the bytes of a level, on the way from left to right.
ghost use Rattle.std.specs.Prelude.{ℕ, ◌<◌, ◌≤◌, length, slice_index};

// `rest` are the bytes not yet read, of `total` in the whole level. After a refusal it begins at the byte that is named.
#[derive(Drop)]
pub struct Cursor<'a> {
    pub rest: &'a [u8],
    pub total: usize,
    ghost octets: { (k : ℕ) → slice_index rest.now k < 256 },
    ghost within: { length rest.now ≤ total },
}
