// Which pieces and numbers the values of expressions name.
ghost use Rattle.std.specs.Prelude.{◌≡◌};
ghost use Rattle.level.specs.Levels.{meaning};
ghost use Rattle.rules.specs.Names.{cell_named, piece_named};

use level::Level;

// The piece that a value names.
pub fn piece_named(level: &Level, value: i32) -> Option<u8>
    ensures { result ≡ piece_named (meaning level.now) value }
{
    let piece = u8::try_from(value).ok()?;
    ((piece as usize) < level.pieces()).then_some(piece)
}

// The piece that a value names, if it has this number.
pub fn cell_named(level: &Level, value: i32, number: u8) -> Option<u8>
    ensures { result ≡ cell_named (meaning level.now) value number }
{
    let piece = piece_named(level, value)?;
    let entry = level.piece(piece as usize)?;
    (number < entry.numbers).then_some(piece)
}
