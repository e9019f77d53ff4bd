// The rules of play: what a move, a beat, a call and a run are, and the law over runs.
//
// The meaning is in specs/, to be read in the order of specs/Lib.antt. Code finds here the types that the rules speak of. The
// functions do nothing: each is there for its promise, a theorem about the rules, which the check has proved.
#![tactic(auto)]

ghost use Rattle.level.specs.Syntax.{Level};
ghost use Rattle.rules.specs.Law.{LawIn, RunsEndAlike};
ghost use Rattle.rules.specs.Theorems.{DependsOnReads, BeatsSplit, NeighboursExchange, NoneClash, ClashesAreReal, FireIsAStep, RefusalsChangeNothing, TraysStayWithin, TrailsSuffice};
ghost use Rattle.rules.specs.Cases.{All, cases};
ghost use Rattle.rules.specs.Example.{TogetherAndApart};

use mail::Mail;

pub mod fault;
pub mod moves;
pub mod trail;

// The law over runs, for every level and every limit and rule of placing that shows a mail's facts.
pub fn runs_end_alike()
    ensures { RunsEndAlike }
{}

// The same at one mail: every type that is a mail shows those facts.
pub fn runs_end_alike_with<M: Mail>()
    ensures { (L : Level) → LawIn (record { level = L; limit = M.Mail.LIMIT; place = M.Mail.place }) }
{}

// A move's deed depends only on what it reads.
pub fn moves_depend_on_reads()
    ensures { DependsOnReads }
{}

// A beat may be cut in two.
pub fn beats_split()
    ensures { BeatsSplit }
{}

// Neighbours in a beat may be exchanged unless the first goes before the second.
pub fn neighbours_exchange()
    ensures { NeighboursExchange }
{}

// No two moves of an accepted beat clash.
pub fn no_moves_clash()
    ensures { NoneClash }
{}

// A move is refused for a clash only where it clashes with an earlier one.
pub fn clashes_are_real()
    ensures { ClashesAreReal }
{}

// Fire is a step of the published semantics, with stumbles, limits and placing added.
pub fn fire_is_a_step()
    ensures { FireIsAStep }
{}

// A refused call changes nothing.
pub fn refusals_change_nothing()
    ensures { RefusalsChangeNothing }
{}

// No tray grows over the limit.
pub fn trays_stay_within()
    ensures { TraysStayWithin }
{}

// Full trails hold all that a call writes and sends.
pub fn trails_suffice()
    ensures { TrailsSuffice }
{}

// The worked cases hold.
pub fn cases_hold()
    ensures { All cases }
{}

// The law is not empty: one run, altered, and its end.
pub fn together_and_apart()
    ensures { TogetherAndApart }
{}
