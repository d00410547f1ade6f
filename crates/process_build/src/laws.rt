//! Laws over the definitions that contracts cite, each on the contract of a function that does
//! nothing.
ghost use Rattle.process_build.specs.MadeTrees.{StepsTellTrees};
ghost use Rattle.process_build.specs.Making.{MakesTrees};
ghost use Rattle.process_build.specs.Progress.{AllNeverFalls, NumbersAddUp, OrderIsNoMatter, UnsettledNeverRises};
ghost use Rattle.process_build.specs.Setups.{PlainSetupsArePlain};
ghost use Rattle.process_build.specs.Traces.{PathsArePlain};

/// If no more jobs ended than began, the jobs that run and those that ended are the jobs that
/// began.
pub fn numbers_add_up()
    ensures { NumbersAddUp }
{}

/// The number of all derivations never falls, whichever calls are heard later.
pub fn all_never_falls()
    ensures { AllNeverFalls }
{}

/// The number of unsettled derivations never rises, whichever calls are heard later.
pub fn unsettled_never_rises()
    ensures { UnsettledNeverRises }
{}

/// Calls in another order, as those of several workers come, give the same counts.
pub fn order_is_no_matter()
    ensures { OrderIsNoMatter }
{}

/// Each byte of a store path stands for itself in a JSON string.
pub fn paths_are_plain()
    ensures { PathsArePlain }
{}

/// A maker that hears a tree makes it by exactly its steps, at the maker's path.
pub fn makers_make_trees()
    ensures { MakesTrees }
{}

/// The steps that make a tree tell which tree it is, where it may stand in an archive.
pub fn steps_tell_trees()
    ensures { StepsTellTrees }
{}

/// Under `plain` a builder is started with the texts of its job as they stand.
pub fn plain_setups_are_plain()
    ensures { PlainSetupsArePlain }
{}
