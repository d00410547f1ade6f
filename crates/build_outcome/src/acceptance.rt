//! Whether an output's tree is taken: by its size, its form and its digest.
ghost use Rattle.std.specs.Prelude.{◌≡◌, ◌↔◌, IfErr, IsTrue, List, MatchOption, OnOk, ℕ};
ghost use Rattle.drv_graph.specs.declared.kinds.Kind.TheVariants.{Fixed};
ghost use Rattle.build_outcome.specs.Verdicts.{HasForm, IsDigestBy, IsFlatFile, IsTreeFault, MayBeTaken};
ghost use Rattle.build_outcome.specs.declared.job.LeftOutput.{LeftOutput as AnOutput};
ghost use Rattle.build_outcome.specs.private.Judging.{IsKnown, IsTreeTaken};
ghost use Rattle.nix_names.specs.Digests.{algorithm_of};

use crate::job::Job;
use crate::known_outputs::Known;
use crate::reason::Reason;
use drv_graph::{Kind, Method, Profile};
use nix_names::Digest;
use ref_scan::Tree;

// Whether what lies at an output is taken.
pub(crate) fn check_known(job: &Job, known: &Known<'_>) -> Result<(), Reason>
    ensures taken { OnOk result ((permitted : List (List ℕ)) (output : AnOutput)
        → IsKnown job.now permitted output known.now → IsTreeTaken job.now output.tree) }
    ensures err { IfErr result (λ why. (permitted : List (List ℕ)) (output : AnOutput)
        → IsKnown job.now permitted output known.now
        → IsTreeFault job.now.profile job.now.kind output.tree why) }
{
    if !known.may_be_taken(job) {
        return Err(Reason::TooLarge);
    }
    let Kind::Fixed(method, declared) = &job.kind else {
        return Ok(());
    };
    match digest_found(job, *method, declared, known) {
        None => Err(Reason::NotFlatFile),
        Some(found) if found != *declared => Err(Reason::HashMismatch),
        Some(_) => Ok(()),
    }
}

// Whether the profile has no limits that the tree passes.
pub(crate) fn may_be_taken(profile: Profile, tree: &Tree) -> bool
    ensures { IsTrue result ↔ MayBeTaken profile tree.now }
{
    match profile {
        Profile::Plain => tree.fits(),
        Profile::Nix => true,
    }
}

// The digest by a method, and by the declared algorithm, of what lies at an output and has the
// method's form.
fn digest_found(job: &Job, method: Method, declared: &Digest, known: &Known<'_>) -> Option<Digest>
    ensures { (permitted : List (List ℕ)) (output : AnOutput)
        → IsKnown job.now permitted output known.now → job.now.kind ≡ Fixed method declared.now
        → MatchOption result (HasForm job.now.profile method output.tree → ⊥)
        (λ found. HasForm job.now.profile method output.tree
        × IsDigestBy method (algorithm_of declared.now) output.tree found) }
{
    match method {
        Method::Flat => {
            if known.is_flat_file(job) {
                known.file_digest(declared.algorithm())
            } else {
                None
            }
        }
        Method::Recursive => match known.sum() {
            Some(sum) => Some(sum.digest),
            None => None,
        },
    }
}

// Whether a fixed output by the bytes of a file may be this tree.
pub(crate) fn is_flat_file(profile: Profile, tree: &Tree) -> bool
    ensures { IsTrue result ↔ IsFlatFile profile tree.now }
{
    match tree {
        Tree::File(_) | Tree::Pieces(_) => true,
        Tree::Executable(_) => matches!(profile, Profile::Plain),
        Tree::Link(_) | Tree::Dir(_) => false,
    }
}
