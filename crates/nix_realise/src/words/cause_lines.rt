//! The lines of derivations that are refused as `Unsupported`.
ghost use Rattle.std.specs.Prelude.{◌≡◌, ◌<◌, ◌↔◌, ◌&&◌, ◌++◌, IfOk, OnOk, flat_map, length, map};
ghost use Rattle.nix_drv.specs.Parts.{entry_of};
ghost use Rattle.run_report.specs.Listing.{AreWithin, IsMarked};
ghost use Rattle.run_report.specs.declared.report.listing.Listed.{Listed};
ghost use Rattle.nix_realise.specs.CauseLines.{AreCauseLines, IsCauseText, IsUnsupportedIn};
ghost use Rattle.nix_realise.specs.CauseLines.{cause_line, cause_of, first_left_out, hint_of, is_refused_so, line_with};
ghost use Rattle.nix_realise.specs.RootsStatus.{roots_status};

use crate::cli::exit::Status;
use crate::runs::summary::roots_status;
use crate::words::drv_line::write_front;
use drv_graph::{Plan, Profile};
use nix_drv::{Derivation, EnvEntry};
use nix_names::StorePath;
use run_report::{Listed, marked_by_path};
use run_states::{System, is_left_out};
use sched_core::{Book, Precondition, Refusal, preconditions_of, wanted_of};
use std::alloc::{AllocError, Global};
use valid_table::{Journal, Outlet};

/// A line for each wanted derivation that is refused as `Unsupported`, by path, where a root was not
/// realised. The journal has the entries that the book opened with.
pub fn cause_lines<V: Outlet>(
    alloc: Global,
    book: &Book<V>,
    opening: &Journal,
) -> Result<Vec<u8>, AllocError>
    requires { opening.now.entries ≡ book.now.history.opening }
    ensures { IfOk result (λ text. IsCauseText (roots_status book.now.run book.now.history)
        book.now.run book.now.history.opening text.items) }
{
    match roots_status(book) {
        Status::Unrealised => lines_of_refused(alloc, book.plan(), opening, book.system()),
        _ => Ok(Vec::new(alloc)),
    }
}

// A line for each such derivation, by path.
fn lines_of_refused(
    alloc: Global,
    plan: &Plan,
    opening: &Journal,
    system: &System,
) -> Result<Vec<u8>, AllocError>
    ensures { IfOk result (λ text. AreCauseLines (record { graph = plan.now; system = system.now })
        opening.now.entries text.items) }
{
    let marks = refused_marks(alloc, plan, opening, system)?;
    let refused = marked_by_path(alloc, plan, &marks)?;
    let mut lines = Vec::new(alloc);
    write_causes(plan, &refused, &mut lines)?;
    Ok(lines)
}

// Whether each derivation is such a one, by number.
fn refused_marks(
    alloc: Global,
    plan: &Plan,
    opening: &Journal,
    system: &System,
) -> Result<Vec<bool>, AllocError>
    ensures count { IfOk result (λ marks. length marks.items ≡ length plan.now.nodes) }
    ensures each { IfOk result (λ marks. (d : _) → IsMarked marks.items (length plan.now.nodes) d
        ↔ IsUnsupportedIn (record { graph = plan.now; system = system.now }) opening.now.entries d) }
{
    let preconditions = preconditions_of(alloc, plan, opening, system)?;
    let wanted = wanted_of(alloc, plan, &preconditions)?;
    let mut marks = Vec::new(alloc);
    for number in 0..plan.len() {
        marks.push(is_refused_so(wanted[number], preconditions[number]))?;
    }
    Ok(marks)
}

// Whether a derivation that is wanted or not, and has this precondition, is refused as
// `Unsupported`.
fn is_refused_so(wanted: bool, precondition: Precondition) -> bool
    ensures { result ≡ (wanted && is_refused_so precondition) }
{
    wanted && matches!(precondition, Precondition::Hindered(Refusal::Unsupported))
}

// Adds the lines of these derivations, which are refused so.
fn write_causes(plan: &Plan, refused: &[Listed<'_>], out: &mut Vec<u8>) -> Result<(), AllocError>
    requires { AreWithin (length plan.now.nodes) refused.now }
    ensures { OnOk result (out.new.items ≡ out.old.items
        ++ flat_map (λ (l : Listed). cause_line plan.now l.number) refused.now) }
{
    'refused: for one in refused {
        let profile = plan.profile();
        let cause = cause_of(profile, plan.drv(one.number));
        write_cause(profile, plan.path(one.number), cause, out)?;
    }
    Ok(())
}

// Adds the line of a derivation, by its path and why it is `Unsupported`.
fn write_cause(
    profile: Profile,
    drv: &StorePath,
    cause: &[u8],
    out: &mut Vec<u8>,
) -> Result<(), AllocError>
    ensures { OnOk result (out.new.items ≡ out.old.items ++ line_with profile drv.now cause.now) }
{
    write_front(drv, b": Unsupported: ", out)?;
    out.extend_from_slice(cause)?;
    out.extend_from_slice(hint_of(profile))?;
    out.extend_from_slice(b"\n")
}

// Why a derivation is `Unsupported` under a profile.
fn cause_of(profile: Profile, drv: &Derivation) -> &[u8]
    ensures { result.now ≡ cause_of profile drv.now }
{
    match profile {
        Profile::Plain if drv.builder().starts_with(b"builtin:") => drv.builder(),
        Profile::Plain => first_left_out(b"r:sha256", drv.env()),
        Profile::Nix => drv.builder(),
    }
}

// The first key of an environment that asks for what is left out under `plain`, or another cause
// where there is none.
fn first_left_out<'a>(other: &'a [u8], env: &'a [EnvEntry]) -> &'a [u8]
    ensures { result.now ≡ first_left_out other.entry.now (map entry_of env.entry.now) }
{
    'entries: for entry in env {
        if is_left_out(&entry.key) {
            return &entry.key;
        }
    }
    other
}

// What a line ends with.
fn hint_of(profile: Profile) -> &'static [u8]
    ensures { result.now ≡ hint_of profile }
{
    match profile {
        Profile::Plain => b"; see --profile nix",
        Profile::Nix => b"",
    }
}
