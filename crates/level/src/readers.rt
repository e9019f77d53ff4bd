// The readers of a level's bytes: each moves the cursor past what it read, or to the byte that its refusal names.
// Signals, kinds, transitions, pieces and starting numbers have a loop each, of three lines. One loop over a closure would be no
// plainer: its contract would have to say what an unknown reader reads, and how each item changes a table of its own type.
mod effects;
mod expressions;
mod kinds;
mod pieces;
mod signals;
mod steps;
mod transitions;
