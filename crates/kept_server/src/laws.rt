//! The laws of runs: each is the contract of a function with an empty body.
ghost use Rattle.kept_server.specs.Law.{CutOffLaw, GoesOnLaw};

use std::alloc::Allocator;

/// A crash may interrupt a serving run at any act. The first server of the next run covers a state of that run which
/// has everything that was done for each reply. The next run doesn't begin anew.
pub fn a_run_goes_on_with_what_was_answered<A: Allocator + Copy>()
    ensures { GoesOnLaw A }
{}

/// A crash may interrupt a start before its first reply. The next start finds a state from before, or the one with
/// which this start began. It begins anew only if no checkpoint was finished before.
pub fn a_start_that_is_cut_off_loses_nothing()
    ensures { CutOffLaw }
{}
