// The rows of all pieces.
mod rows;

ghost use Rattle.std.specs.Prelude.{◌≡◌, length};

// The row of one piece: its state and its eight numbers.
#[derive(Clone, Copy, Default)]
pub struct Row {
    pub state: u8,
    pub numbers: [i32; 8],
}

// One row for each piece number, 0 to 31.
#[derive(Drop)]
pub struct Table {
    rows: [Row; 32],
    ghost whole: { length rows ≡ 32 },
}
