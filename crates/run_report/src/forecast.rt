//! What is foretold of a plan before anything is built.
//!
//! | Module | What is in it |
//! |---|---|
//! | `foretold` | what is foretold of all derivations, by one pass in the order of the plan |
//! | `picture` | the picture of a forecast |
//! | `edges` | the edges of that picture |
ghost use Rattle.std.specs.Prelude.{◌≡◌, ◌<◌, IfOk, None, length};
ghost use Rattle.run_report.specs.Forecasts.{IsForecast, foretold, is_whole};
ghost use Rattle.run_report.specs.Pictures.{IsPicture};

mod edges;
mod foretold;
mod picture;

use crate::forecast::foretold::{foretold, is_good};
use crate::forecast::picture::picture_of;
use crate::report::tense::Tense;
use crate::report::{States, told};
use drv_graph::Plan;
use nix_names::StorePath;
use run_states::{State, System, preconditions_of, wanted_of};
use std::alloc::{AllocError, Global};
use std::marker::Model;
use valid_table::Journal;

/// How a run over a plan, which opens with a journal, would end if each builder that it starts made
/// its outputs: whatever the number of workers, and the order in which they end.
#[derive(Debug, Drop)]
pub struct Forecast {
    plan: Plan,
    journal: Journal,
    system: System,
    wanted: Vec<bool>,
    states: Vec<State>,
}

impl Model for Forecast {
    ghost use Rattle.run_report.specs.Forecasts.{Opening};
    ghost use Rattle.run_report.specs.private.Holding.{IsHeld};

    ghost Value = { Opening };

    ghost view = { λ f. record {
      run = record { graph = f.plan; system = f.system };
      entries = f.journal.entries;
    } };

    ghost invariant = { λ f. IsHeld (record { graph = f.plan; system = f.system })
        f.journal.entries f.wanted.items f.states.items };
}

impl States for Forecast {
    ghost graph = { λ f. f.run.graph };

    ghost states = { λ f. foretold f.run f.entries };

    ghost names = { λ _ _. None };

    fn plan(&self) -> &Plan {
        Forecast::plan(self)
    }

    fn state(&self, d: usize) -> State {
        Forecast::state(self, d)
    }

    // Nothing that is foretold names a path.
    fn named(&self, _: usize) -> Option<&StorePath> {
        None
    }
}

impl Forecast {
    /// The forecast of a run over the plan, for the system, that opens with the journal's entries.
    /// An error where memory is refused, and no other. Costs what opening a book costs at most: a
    /// few look-ups by hash for each output and each source, and a step for each derivation and
    /// each pair of a user and an input.
    pub fn open(
        alloc: Global,
        plan: Plan,
        journal: Journal,
        system: System,
    ) -> Result<Forecast, AllocError>
        ensures run { IfOk result (λ f. f.run ≡ record { graph = plan; system = system }) }
        ensures entries { IfOk result (λ f. f.entries ≡ journal.entries) }
    {
        let preconditions = preconditions_of(alloc, &plan, &journal, &system)?;
        let wanted = wanted_of(alloc, &plan, &preconditions)?;
        let states = foretold(alloc, &plan, &preconditions, &wanted)?;
        Ok(Forecast {
            plan,
            journal,
            system,
            wanted,
            states,
        })
    }

    /// The plan.
    pub fn plan(&self) -> &Plan
        ensures { result.now ≡ self.now.run.graph }
    {
        &self.plan
    }

    /// The state in which it is foretold that the derivation with this number ends: `Done`,
    /// `Reused` or `Refused`.
    pub fn state(&self, d: usize) -> State
        requires { d < length self.now.run.graph.nodes }
        ensures { result ≡ foretold self.now.run self.now.entries d }
    {
        self.states[d]
    }

    /// Whether each root is built or reused.
    pub fn is_whole(&self) -> bool
        ensures { result ≡ is_whole self.now.run self.now.entries }
    {
        let plan = self.plan();
        let count = plan.len();
        'roots: for root in plan.roots() {
            prove!(*root < count);
            if !is_good(self.state(*root)) {
                return false;
            }
        }
        true
    }

    /// The text of the forecast. For each wanted derivation, by path, it has a line `build P`,
    /// `reuse P` or `refuse P: WHY`. Then for each root that is built or reused, in the order of
    /// the roots, it has a line `output O` for each of its outputs. An error where memory is
    /// refused, and no other. Costs one sort of the wanted derivations by path, and else time in
    /// proportion to the plan's derivations and the text.
    pub fn text(&self) -> Result<Vec<u8>, AllocError>
        ensures { IfOk result (λ text. IsForecast self.now.run self.now.entries text.items) }
    {
        told(*self.wanted.allocator(), self, &self.wanted, Tense::Future)
    }

    /// The picture of the forecast, as a graph in Graphviz's language. It has a node for each
    /// wanted derivation, by path: labelled by its name, filled by whether it is built, reused or
    /// refused, with a double border where it is a root. Then it has an edge from each to each
    /// input that it waits for, labelled by the outputs that it uses where they aren't just `out`.
    /// An error where memory is refused, and no other. Costs what `text` costs, and a step for each
    /// edge.
    pub fn picture(&self) -> Result<Vec<u8>, AllocError>
        ensures { IfOk result (λ text. IsPicture self.now.run self.now.entries text.items) }
    {
        picture_of(*self.wanted.allocator(), self, &self.wanted)
    }
}
