//! Laws over the definitions that contracts cite, each on the contract of a function that does
//! nothing.
ghost use Rattle.run_states.specs.Headline.{BeginsOnce, DonesAreAllowed, EntriesAreJournal, LeasesApart, LeasesBelow, PermittedStays, SeedsAreValid};
ghost use Rattle.run_states.specs.PlanLaws.{RowsInOrder, WantedIsTold};
ghost use Rattle.run_report.specs.Reports.{ReportIsOne};
ghost use Rattle.run_states.specs.States.{StatesAgree, StatesAreOne};
ghost use Rattle.sched_core.specs.VerdictLaws.{VerdictsAreRegistrable, VerdictsMayRefer};
ghost use Rattle.build_outcome.specs.Verdicts.{HasOneVerdict};

/// Where the inputs and the earlier twins of each derivation have smaller numbers, each has the
/// state that the table gives from the states of all, and no other states do.
pub fn states_solve_the_table()
    ensures agree { StatesAgree }
    ensures one { StatesAreOne }
{}

/// The inputs and the earlier twins of each derivation of a plan have smaller numbers, whatever
/// happened in a run over it. So its states solve the table; `Plan::len` says that a plan is sound.
pub fn inputs_come_first()
    ensures { RowsInOrder }
{}

/// The test by which the earlier twins are chosen holds of the wanted derivations alone.
pub fn wanted_is_told()
    ensures { WantedIsTold }
{}

/// There is one verdict on an answer.
pub fn verdict_is_one()
    ensures { HasOneVerdict }
{}

/// The records of a verdict on the job of a plan's derivation are one for each of its outputs,
/// refer to permitted paths alone, have a fixed output's declared digest, and make no cycle.
pub fn verdict_is_registrable()
    ensures { VerdictsAreRegistrable }
{}

/// The references in a verdict's records are permitted to the job, where the verdict was found by
/// the paths that are.
pub fn verdict_may_refer()
    ensures { VerdictsMayRefer }
{}

/// In a legal history a derivation begins at most once, and no two leases have one number.
pub fn leases_are_apart()
    ensures begins { BeginsOnce }
    ensures numbers { LeasesApart }
    ensures below { LeasesBelow }
{}

/// In a legal history over derivations' files the entries are a journal: each valid path's
/// references are valid, and no path is registered twice.
pub fn entries_are_a_journal()
    ensures { EntriesAreJournal }
{}

/// In a legal history each derivation that was built registered one record for each output, new,
/// with permitted references alone, and with the declared hash where an output is fixed.
pub fn what_was_built_was_allowed()
    ensures { DonesAreAllowed }
{}

/// All paths that a derivation is built from are valid when it begins, and ever after.
pub fn seeds_are_valid()
    ensures { SeedsAreValid }
{}

/// What a derivation may refer to stays the same while more is registered.
pub fn permitted_stays()
    ensures { PermittedStays }
{}

/// There is one report of a run with its history.
pub fn report_is_one()
    ensures { ReportIsOne }
{}
