//! Laws over the definitions that contracts cite, each on the contract of a function that does
//! nothing.
ghost use Rattle.std.specs.Prelude.{◌≡◌, [], ◌∷◌, Result, codes, pos};
ghost use Rattle.nix_drv.specs.Sources.{listing_gives};
ghost use Rattle.drv_graph.specs.Nodes.{output_paths_of};
ghost use Rattle.drv_graph.specs.Plans.{AreTwins, IsPlan};
ghost use Rattle.run_states.specs.Runs.{state_in};
ghost use Rattle.build_outcome.specs.declared.job.Job.{Job};
ghost use Rattle.build_outcome.specs.declared.preparation.Prepared.{Prepared};
ghost use Rattle.build_outcome.specs.declared.reason.Reason.{Reason};
ghost use Rattle.build_outcome.specs.declared.reason.Reason.TheVariants.{ExitStatus};
ghost use Rattle.builder_start.specs.Asked.{AsksForRecords};
ghost use Rattle.sched_core.specs.Books.{AreSeedsValid};
ghost use Rattle.run_states.specs.declared.state.State.TheVariants.{Blocked, Done, Failed, Ready, Reused};
ghost use Rattle.store_run.specs.DiamondExample.{diamond, left_after_cut, may_make, taken_up};
ghost use Rattle.store_run.specs.GraphExample.{AsksForBase, HasBaseGraph, base_alone, base_and_left};
ghost use Rattle.store_run.specs.GivenOutcomes.{EqualOutcomesAreAlike, OutcomesDecide};
ghost use Rattle.store_run.specs.Interruptions.{AnyInterruption, CutsAreOne, IsTakenUp};
ghost use Rattle.store_run.specs.OneThread.{IsOneThread};
ghost use Rattle.store_run.specs.RunJournals.{EntriesGoOn, JournalsOfRunsAreRead, KeptTextsAreRead, LeftJournalsAreRead};
ghost use Rattle.store_run.specs.SameOutcomes.{AllowedIsOne};
ghost use Rattle.store_run.specs.ScheduleExample.{Overlap, both, in_turn, left, may_leave, right, side_by_side, two_files};
ghost use Rattle.store_run.specs.Scheduling.{AlikeReportTheSame, AnySchedule, HasOneThread, IsWholeRun, OneReport, RealisedIsEnded, RealisedIsWhole, SameReports, WholeRunsAreAlike};
ghost use Rattle.store_run.specs.Starts.{IsStart, SetupIsShared};
ghost use Rattle.store_run.specs.TwinExample.{first_twin, freed, may_leave_file, one_by_one, second_twin, three, three_files, tried_again, waiting};

use nix_drv::DrvSource;
use sched_core::Build;
use valid_view::ListId;

/// A whole run ends as one thread would: each derivation is in the same state, each path has the
/// same record, and the report is the same. A run is whole where it had memory and its builders may
/// give one outcome to each derivation.
pub fn any_schedule<B: Build>()
    ensures alike { AnySchedule B.may }
    ensures report { OneReport B.may }
    ensures same { SameReports B.may }
{}

/// Alike histories with the same opening have the same reports.
pub fn alike_runs_report_the_same()
    ensures { AlikeReportTheSame }
{}

/// To each whole run there is a history of one thread with the same opening.
pub fn one_thread_is_there<B: Build>()
    ensures { HasOneThread B.may }
{}

/// Two whole runs with the same opening are alike.
pub fn whole_runs_are_alike<B: Build>()
    ensures { WholeRunsAreAlike B.may }
{}

/// Where builders may give one outcome to each derivation of a plan, trees of the same bytes
/// counting as one, the verdicts are one.
pub fn allowed_outcomes_are_one<B: Build>()
    ensures { AllowedIsOne B.may }
{}

/// What `realise` leaves behind at `Ok`, over a loaded plan and where memory was not refused, is an
/// ended run. It is a whole run, where the builders may give one outcome to each derivation.
pub fn realised_is_whole<B: Build>()
    ensures ended { RealisedIsEnded B.may }
    ensures whole { RealisedIsWhole B.may }
{}

/// Outcomes that its builders may give, one for each derivation, decide what a run leaves behind at
/// its end, where memory sufficed. One thread that is given the same outcomes leaves each
/// derivation in the same state, each path with the same record, and the same report.
pub fn outcomes_decide<B: Build>()
    ensures { OutcomesDecide B.may }
{}

/// Two such runs with the same opening are alike where each derivation is given the same outcome.
pub fn equal_outcomes_are_alike<B: Build>()
    ensures { EqualOutcomesAreAlike B.may }
{}

/// Outcomes, one for each derivation, decide how a run ends that was cut, and started again over
/// what it had registered: what it was given before the cut where it built something, else what it
/// was given after it. One thread that was not cut, and is given the same outcomes,
/// registers the same records, tells of the same failures and refusals, and has the same outputs of
/// the roots. The plan has no twins, and no source is an output of it.
pub fn any_interruption<B: Build>()
    ensures { AnyInterruption B.may }
{}

/// Two such cuts, one after the other, are as one. So the law holds of a run that was cut any
/// number of times.
pub fn cuts_are_one<B: Build>()
    ensures { CutsAreOne B.may }
{}

/// What a builder is started with is the same by any two lists of entries that begin with a list in
/// which all that its job is built from is valid: by what its worker's reader saw, and by each
/// journal that goes on from there.
pub fn setup_is_shared()
    ensures { SetupIsShared }
{}

/// There are starts that ask for a graph of references. The job is built from base, which has no
/// references, and the one file that lies in its builder's folder says so. It is the same once left
/// was registered, too.
pub fn start_may_ask_for_a_graph()
    ensures seeds { (job : Job) → AsksForBase job → AreSeedsValid base_alone job }
    ensures asks { (job : Job) → AsksForBase job → AsksForRecords job }
    ensures start { (job : Job) (start : Result Prepared Reason) → AsksForBase job
        → HasBaseGraph start → IsStart base_alone job start }
    ensures longer { (job : Job) (start : Result Prepared Reason) → AsksForBase job
        → HasBaseGraph start → IsStart base_and_left job start }
{}

/// In a legal history the entries are those that it opened with, and then the whole entries of its
/// Done events, one for each and in their order.
pub fn entries_go_on()
    ensures { EntriesGoOn }
{}

/// The text of the entries of a run over a plan of a store folder is read as just these entries,
/// or memory is refused, if it is within the limit of a journal's text. That holds of each text
/// that is kept while the run goes on, and of the text of what it leaves behind. The run opened
/// with entries that some text of a journal of the folder has.
pub fn journals_of_runs_are_read<B: Build, J: ListId, S: DrvSource>()
    ensures histories { JournalsOfRunsAreRead B.may S.gives }
    ensures kept { KeptTextsAreRead B.may (J.Showing.shown J.book) S.gives }
    ensures left { LeftJournalsAreRead B.may S.gives }
{}

/// There are whole runs in which builds overlap and one of them fails. The plan is loaded from two
/// files; both derivations are under way at once, the first fails, and the second is built. One
/// thread leaves the events in another order.
pub fn builds_may_overlap()
    ensures loads { IsPlan (codes "/nix/store") (listing_gives two_files)
        (left.path ∷ right.path ∷ []) both.graph }
    ensures whole { IsWholeRun may_leave both side_by_side }
    ensures overlap { Overlap side_by_side 0 1 }
    ensures failed { state_in both side_by_side 0 ≡ Failed (ExitStatus (pos 1)) }
    ensures built { state_in both side_by_side 1 ≡ Done }
    ensures in_turn { IsOneThread may_leave both [] in_turn }
{}

/// There are whole runs in which a derivation is built after its twin failed, while a third is
/// under way. The plan is loaded from three files at these paths. The second derivation waits for
/// the first, can begin once the first has failed, and is built while the third is under way. One
/// thread leaves the events in another order.
pub fn twin_is_built_after_the_first_failed()
    ensures loads { IsPlan (codes "/nix/store") (listing_gives three_files)
        (first_twin.path ∷ second_twin.path ∷ right.path ∷ []) three.graph }
    ensures first_path { first_twin.path
        ≡ codes "/nix/store/i7ijkf1b6qi7kw7licrnin8qfy9dmrbm-src.drv" }
    ensures second_path { second_twin.path
        ≡ codes "/nix/store/dxb3bgj9ir3sagyjx9ycikrsfpp01cbn-src.drv" }
    ensures output { output_paths_of first_twin.drv
        ≡ codes "/nix/store/2qgpd47jrm1g5pyj4s1dacj3hnkrfzvw-src" ∷ [] }
    ensures twins { AreTwins first_twin.drv second_twin.drv }
    ensures waits { state_in three waiting 1 ≡ Blocked }
    ensures freed { state_in three freed 1 ≡ Ready }
    ensures whole { IsWholeRun may_leave_file three tried_again }
    ensures beside_first { Overlap tried_again 0 2 }
    ensures beside_second { Overlap tried_again 1 2 }
    ensures failed { state_in three tried_again 0 ≡ Failed (ExitStatus (pos 1)) }
    ensures built { state_in three tried_again 1 ≡ Done }
    ensures third { state_in three tried_again 2 ≡ Done }
    ensures in_turn { IsOneThread may_leave_file three [] one_by_one }
{}

/// There are runs that were cut and taken up. The plan is a diamond. Before the cut base and left
/// are built, and right fails. Over what that run registered right is built, since its builder
/// answers otherwise the second time, and then top; base and left are reused.
pub fn diamond_is_cut_and_taken_up()
    ensures taken_up { IsTakenUp may_make diamond left_after_cut taken_up }
    ensures failed { state_in diamond left_after_cut 2 ≡ Failed (ExitStatus (pos 1)) }
    ensures base { state_in diamond taken_up 0 ≡ Reused }
    ensures left { state_in diamond taken_up 1 ≡ Reused }
    ensures right { state_in diamond taken_up 2 ≡ Done }
    ensures top { state_in diamond taken_up 3 ≡ Done }
{}
