//! What a builder is given, and what it answers.
ghost use Rattle.std.specs.Prelude.{◌≡◌, ◌↔◌, IsTrue, MatchOption, None, Some};
ghost use Rattle.build_outcome.specs.Verdicts.{OthersMayWriteAt, left_at, tree_at};

use drv_graph::{Kind, Profile};
use nix_drv::EnvEntry;
use nix_names::StorePath;
use ref_scan::Tree;

/// An output that a job is to make.
#[derive(Debug, Drop)]
pub struct JobOutput {
    /// The output's name, as `out`.
    pub name: Vec<u8>,
    /// Where it is to be made.
    pub path: StorePath,
}

/// An input derivation of which each output is named.
#[derive(Debug, Drop)]
pub struct WholeInput {
    /// The derivation's file.
    pub drv: StorePath,
    /// The paths of all its outputs, by name.
    pub outputs: Vec<StorePath>,
}

/// What is to be built for one derivation.
#[derive(Debug, Drop)]
pub struct Job {
    /// The derivation's number in the plan.
    pub derivation: usize,
    /// The profile of the plan, under whose rules it is built.
    pub profile: Profile,
    /// The program to run.
    pub builder: Vec<u8>,
    /// Its arguments, in order.
    pub args: Vec<Vec<u8>>,
    /// Its environment, by key.
    pub env: Vec<EnvEntry>,
    /// The outputs that it is to make, by name.
    pub outputs: Vec<JobOutput>,
    /// The kind of the outputs.
    pub kind: Kind,
    /// The paths that it is built from: the sources, then each input's named outputs.
    pub seeds: Vec<StorePath>,
    /// Under `nix`, the input derivations of which each output is named, by path; none under
    /// `plain`.
    pub whole_inputs: Vec<WholeInput>,
}

/// What lies at an output's path.
#[derive(Debug, Drop)]
pub struct LeftOutput {
    /// The file, the folder with all that is in it, or the link.
    pub tree: Tree,
    /// Whether, by the mode that the builder left it, its group or others may write the file or the
    /// folder itself: the bits 0022. What is in the folder has modes of its own, which are not
    /// asked for. Of a link, whose mode says nothing, it is false.
    pub others_may_write: bool,
}

/// What a builder left behind.
#[derive(Debug, Drop)]
pub struct Answer {
    /// Its exit status, none where a signal ended it.
    pub status: Option<i32>,
    /// What lies at each output's path, in the job's order.
    pub outputs: Vec<Option<LeftOutput>>,
}

impl Answer {
    // What lies at the output with this number, if anything.
    pub(crate) fn left_at(&self, n: usize) -> Option<&LeftOutput>
        ensures { MatchOption result (left_at self.now n ≡ None)
            (λ left. left_at self.now n ≡ Some left.now) }
    {
        match self.outputs.get(n) {
            Some(Some(left)) => Some(left),
            _ => None,
        }
    }

    // The tree at the output with this number, if anything lies there.
    pub(crate) fn tree_at(&self, n: usize) -> Option<&Tree>
        ensures { MatchOption result (tree_at self.now n ≡ None)
            (λ tree. tree_at self.now n ≡ Some tree.now) }
    {
        match self.left_at(n) {
            Some(left) => Some(&left.tree),
            None => None,
        }
    }

    // Whether the group of what lies at the output with this number, or others, may write it.
    pub(crate) fn others_may_write(&self, n: usize) -> bool
        ensures { IsTrue result ↔ OthersMayWriteAt self.now n }
    {
        match self.left_at(n) {
            Some(left) => left.others_may_write,
            None => false,
        }
    }
}
