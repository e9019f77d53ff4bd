// How much memory a game takes: nothing of it is on a heap.
use game::Game;
use level::Level;
use mail::queue::QueueMail;
use mail::urgent::UrgentMail;
use rules::trail::{Change, Parcel};
use std::mem::size_of;

// A level, its game with the queue mail, and the memory of full trails, together.
const TOGETHER: usize = size_of::<Level>()
    + size_of::<Game<QueueMail>>()
    + 160 * size_of::<Change>()
    + 128 * size_of::<Parcel>();

const _: () = prove!(TOGETHER <= 32768);

const _: () = prove!(size_of::<Level>() == 4336);

const _: () = prove!(size_of::<Game<QueueMail>>() == 2720);

const _: () = prove!(size_of::<Game<UrgentMail>>() == 3488);

const _: () = prove!(size_of::<Change>() == 8);

const _: () = prove!(size_of::<Parcel>() == 16);
