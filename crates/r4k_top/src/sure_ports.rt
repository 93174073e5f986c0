//! The top call over ports that never fail: what it answers then.

ghost use Rattle.std.specs.Prelude.{◌≡◌};
ghost use Rattle.r4k_top.specs.Answers.{IsComplete, MayAnswer};
ghost use Rattle.r4k_top.specs.Clauses.{ComesTo, EndsWith, Written};
ghost use Rattle.r4k_top.specs.Command.{command_of};
ghost use Rattle.r4k_top.specs.FlatRuns.{DoneIsFlat};

use crate::statuses::Status;
use crate::workstation;
use r4_ports::{SureShelf, SureSink};
use std::alloc::Global;

/// Does what the words say over a shelf and a sink that never fail. Every answer is the status of what the words come to, but Memory: no
/// fault of a port comes, so that all that is promised of a run is promised here.
pub fn over_sure_ports(
    alloc: Global,
    words: &Vec<String>,
    shelf: &mut SureShelf,
    out: &mut SureSink,
) -> Status
    ensures answer { MayAnswer ⊥ ⊥ (EndsWith (command_of words.now) shelf.old) result }
    ensures done { IsComplete result →
        ComesTo (command_of words.now) shelf.old (Written out.old.written out.new.written) }
    ensures flat { result ≡ Status.Done → DoneIsFlat (command_of words.now) shelf.old }
{
    workstation(alloc, words, shelf, out)
}
