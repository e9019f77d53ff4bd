// What the moves listed before have done that the trails do not show.
mod notes;

ghost use Rattle.std.specs.Prelude.{◌≡◌, length};

// Whether a piece has moved, and whether a message was taken from its tray.
#[derive(Clone, Copy, Default)]
struct Note {
    moved: bool,
    took: bool,
}

// A note for each piece number, 0 to 31.
#[derive(Drop)]
pub struct Listed {
    notes: [Note; 32],
    ghost whole: { length notes ≡ 32 },
}
