// Why an expression has no value.
use rules::fault::Cause;

// A clash, or a stumble. It is small, since it goes up through the recursion: the place of a stumble is left where the reading of
// the code stopped.
#[derive(Clone, Copy)]
pub enum Halt {
    Clash,
    Stumbles(Cause),
}
