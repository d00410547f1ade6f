//! What is told of a plan, in either tense: a line for each wanted derivation, and the outputs of
//! the roots. And the report of a run.
//!
//! | Module | What is in it |
//! |---|---|
//! | `tense` | the words of a report and of a forecast |
//! | `listing` | the derivations by path |
//! | `lines` | the lines of one derivation |
ghost use Rattle.std.specs.Prelude.{◌≡◌, ◌<◌, ◌++◌, ℕ, IfOk, OnOk, Option, codes, flat_map, length};
ghost use Rattle.std.specs.Option.{option_map};
ghost use Rattle.nix_names.specs.Bytes.{Path};
ghost use Rattle.drv_graph.specs.Plans.{Graph};
ghost use Rattle.run_states.specs.StateTables.{table_state};
ghost use Rattle.run_report.specs.Listing.{AreWithin, IsMarked};
ghost use Rattle.run_report.specs.NamedPaths.{named_at};
ghost use Rattle.run_report.specs.Reports.{IsReportOf, IsTold, outputs_at, told_at};
ghost use Rattle.run_report.specs.Words.{reason_words};
ghost use Rattle.run_report.specs.declared.report.listing.Listed.{Listed};
ghost use Rattle.run_states.specs.declared.state.State.{State};

pub(crate) mod lines;
pub(crate) mod listing;
pub(crate) mod tense;

use crate::report::lines::{write_line_start, write_outputs, write_path_line, write_refused};
use crate::report::listing::{Listed, marked_by_path};
use crate::report::tense::Tense;
use crate::words::write_reason;
use build_outcome::Reason;
use drv_graph::Plan;
use nix_drv::Derivation;
use nix_names::StorePath;
use run_states::{State, StateTable};
use std::alloc::{AllocError, Global};

// A plan whose derivations have states, and lines that may name paths.
pub(crate) trait States {
    // The plan.
    ghost graph: { Self → Graph };

    // The state of each derivation, by its number.
    ghost states: { Self → ℕ → State };

    // The path that the line of each derivation names, by its number.
    ghost names: { Self → ℕ → Option Path };

    // The plan.
    fn plan(&self) -> &Plan
        ensures { result.now ≡ graph self.now };

    // The state of the derivation with this number.
    fn state(&self, d: usize) -> State
        requires { d < length (graph self.now).nodes }
        ensures { result ≡ states self.now d };

    // The path that the line of the derivation with this number names, if it names one.
    fn named(&self, d: usize) -> Option<&StorePath>
        ensures { option_map (λ path. path.now) result ≡ names self.now d };
}

// A state table, and the path that the line of each derivation names.
#[derive(Drop)]
struct NamedTable<'a> {
    states: &'a StateTable,
    named: &'a [Option<StorePath>],
}

impl<'a> States for NamedTable<'a> {
    ghost graph = { λ table. table.states.now.graph };

    ghost states = { λ table. table_state table.states.now };

    ghost names = { λ table. named_at table.named.now };

    fn plan(&self) -> &Plan {
        self.states.plan()
    }

    fn state(&self, d: usize) -> State {
        self.states.state(d)
    }

    fn named(&self, d: usize) -> Option<&StorePath> {
        match self.named.get(d) {
            Some(Some(path)) => Some(path),
            _ => None,
        }
    }
}

/// The report of a state table. For each wanted derivation, by path, a line `built P`, `reused P`,
/// `failed P: WHY` or `refused P: WHY`, or none while it is Blocked, Ready or Building. Then for
/// each root that was built or reused, in the order of the roots, a line `output O` for each of its
/// outputs. Where a derivation failed since an output refers to a path to which it may not, WHY
/// names the path that `named` has at its number, and where that has none, its index. An error
/// where memory is refused, and no other. Costs one sort of the wanted derivations by path, and
/// else time in proportion to the plan's derivations and the text.
pub fn report_of(
    alloc: Global,
    table: &StateTable,
    named: &[Option<StorePath>],
) -> Result<Vec<u8>, AllocError>
    ensures { IfOk result (λ text. IsReportOf table.now named.now text.items) }
{
    let wanted = table.wanted_marks(alloc)?;
    let states = NamedTable {
        states: table,
        named,
    };
    told(alloc, &states, &wanted, Tense::Past)
}

// What is told of a plan in these states, of which these derivations are wanted.
pub(crate) fn told<S: States>(
    alloc: Global,
    states: &S,
    wanted: &[bool],
    tense: Tense,
) -> Result<Vec<u8>, AllocError>
    requires { length wanted.now ≡ length (S.graph states.now).nodes }
    ensures { IfOk result (λ text. IsTold tense (S.graph states.now)
        (IsMarked wanted.now (length (S.graph states.now).nodes))
        (λ d path. path ≡ S.names states.now d) (S.states states.now) text.items) }
{
    let listed = marked_by_path(alloc, states.plan(), wanted)?;
    let mut text = Vec::new(alloc);
    write_lines(states, tense, &listed, &mut text)?;
    write_roots(states, &mut text)?;
    Ok(text)
}

// Adds the lines of some derivations.
fn write_lines<S: States>(
    states: &S,
    tense: Tense,
    listed: &[Listed<'_>],
    out: &mut Vec<u8>,
) -> Result<(), AllocError>
    requires { AreWithin (length (S.graph states.now).nodes) listed.now }
    ensures { OnOk result (out.new.items ≡ out.old.items
        ++ flat_map
        (λ (l : Listed). told_at tense (S.graph states.now).nodes (S.names states.now)
        (S.states states.now) l.number)
        listed.now) }
{
    'listed: for one in listed {
        let outcome = Outcome {
            state: states.state(one.number),
            named: states.named(one.number),
        };
        write_line(tense, states.plan(), one.number, outcome, out)?;
    }
    Ok(())
}

// Adds the lines of the roots' outputs.
fn write_roots<S: States>(states: &S, out: &mut Vec<u8>) -> Result<(), AllocError>
    ensures { OnOk result (out.new.items ≡ out.old.items
        ++ flat_map (outputs_at (S.graph states.now).nodes (S.states states.now))
        (S.graph states.now).roots) }
{
    let plan = states.plan();
    let count = plan.len();
    'roots: for root in plan.roots() {
        prove!(*root < count);
        write_root(plan, *root, states.state(*root), out)?;
    }
    Ok(())
}

// Adds the lines of a derivation's outputs, if it is built or reused.
fn write_root(plan: &Plan, number: usize, state: State, out: &mut Vec<u8>) -> Result<(), AllocError>
    requires { number < length plan.now.nodes }
    ensures { OnOk result (out.new.items ≡ out.old.items
        ++ outputs_at plan.now.nodes (λ _. state) number) }
{
    match state {
        State::Done | State::Reused => write_outputs(plan.output_paths(number), out),
        _ => Ok(()),
    }
}

// What is told of a derivation: its state, and the path that its line names, if it names one.
struct Outcome<'a> {
    state: State,
    named: Option<&'a StorePath>,
}

// Adds the line of a derivation, if it has one.
fn write_line(
    tense: Tense,
    plan: &Plan,
    number: usize,
    outcome: Outcome<'_>,
    out: &mut Vec<u8>,
) -> Result<(), AllocError>
    requires { number < length plan.now.nodes }
    ensures { OnOk result (out.new.items ≡ out.old.items
        ++ told_at tense plan.now.nodes (λ _. option_map (λ path. path.now) outcome.entry.named)
        (λ _. outcome.entry.state) number) }
{
    let path = plan.path(number);
    let drv = plan.drv(number);
    let Outcome { state, named } = outcome;
    match state {
        State::Done => write_path_line(tense.built(), path, out),
        State::Reused => write_path_line(tense.reused(), path, out),
        State::Failed(reason) => {
            write_line_start(tense.failed(), path, out)?;
            write_failure(drv, named, reason, out)
        }
        State::Refused(cause) => write_refused(tense.refused(), plan, path, drv, cause, out),
        State::Building(_) | State::Ready | State::Blocked => Ok(()),
    }
}

// Adds why a derivation fails, and the end of its line.
fn write_failure(
    drv: &Derivation,
    named: Option<&StorePath>,
    reason: Reason,
    out: &mut Vec<u8>,
) -> Result<(), AllocError>
    ensures { OnOk result (out.new.items ≡ out.old.items
        ++ reason_words drv.now (option_map (λ path. path.now) named.entry) reason
        ++ codes "\n") }
{
    write_reason(drv, named, reason, out)?;
    out.extend_from_slice(b"\n")
}
