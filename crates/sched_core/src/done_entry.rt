//! The entry of a derivation that was built.
ghost use Rattle.std.specs.Prelude.{◌≡◌, ◌<◌, ◌↔◌, All, IfErr, IfOk, IsTrue, length, vec_capacity};
ghost use Rattle.valid_table.specs.Entries.{paths_registered, registered};
ghost use Rattle.valid_table.specs.Valid.{HasDrvPath, IsNotValid};
ghost use Rattle.valid_table.specs.declared.entry.Registration.{Registration};
ghost use Rattle.sched_core.specs.private.Dones.{AreFitting, HaveDigest, IsDoneEntry, IsDoneFault, infos_of};

use build_outcome::{Checked, is_cyclic};
use drv_graph::{Kind, Plan};
use nix_names::{MethodDigest, StorePath};
use run_states::BookFault;
use std::alloc::{AllocError, Global};
use valid_table::{Entry, Journal, Outputs, Record, Registration};

// The entry that registers the outputs of the derivation with this number with these records,
// after the journal's entries. Whether their references are permitted isn't tested. `NotLawful`
// where there isn't one record for each output, an output is valid, a fixed output hasn't its
// declared digest, or two outputs lead to each other. Takes memory only where none of the first
// three of these reasons holds. Costs a look-up by hash for each output and for each reference, and
// a sort of the outputs.
pub(crate) fn done_entry(
    alloc: Global,
    plan: &Plan,
    d: usize,
    checked: &Checked,
    journal: &Journal,
) -> Result<Entry, BookFault>
    requires { d < length plan.now.nodes }
    ensures ok { IfOk result (IsDoneEntry plan.now d journal.now.entries checked.now) }
    ensures derived { IfOk result HasDrvPath }
    ensures err { IfErr result (IsDoneFault plan.now d journal.now.entries checked.now) }
{
    let paths = plan.output_paths(d);
    let records = checked.records();
    if !are_fitting(plan.kind(d), paths, records, journal) {
        return Err(BookFault::NotLawful);
    }
    if is_cyclic(alloc, paths, records)? {
        return Err(BookFault::NotLawful);
    }
    let registrations = registrations_of(alloc, paths, records)?;
    let Some(outputs) = Outputs::sorted(registrations) else {
        unreachable!()
    };
    Ok(Entry::Done(plan.path(d).copy(alloc)?, outputs))
}

// Whether records are one for each of these outputs of a kind, the outputs are new after a
// journal's entries, and a fixed one has its digest. Takes no memory.
fn are_fitting(kind: Kind, paths: &[StorePath], records: &[Record], journal: &Journal) -> bool
    ensures { IsTrue result
        ↔ AreFitting (registered journal.now.entries) kind paths.now records.now }
{
    if records.len() != paths.len() || !are_new(journal, paths) {
        return false;
    }
    have_digest(kind, records)
}

// Whether none of the paths is valid by a journal.
fn are_new(journal: &Journal, paths: &[StorePath]) -> bool
    ensures { IsTrue result ↔ All (IsNotValid (registered journal.now.entries)) paths.now }
{
    for path in paths {
        if journal.registers(path) {
            return false;
        }
    }
    true
}

// Whether the records have the digest that outputs of this kind declare, if they do.
fn have_digest(kind: Kind, records: &[Record]) -> bool
    ensures { IsTrue result ↔ HaveDigest kind records.now }
{
    match kind {
        Kind::Addressed => true,
        Kind::Fixed(method, digest) => {
            let declared = Some(MethodDigest { method, digest });
            records.iter().all(|record| record.digest() == declared)
        }
    }
}

// The paths with their records, beside each other.
fn registrations_of(
    alloc: Global,
    paths: &[StorePath],
    records: &[Record],
) -> Result<Vec<Registration>, AllocError>
    requires { length records.now ≡ length paths.now }
    ensures paths { IfOk result (λ all. paths_registered all.items ≡ paths.now) }
    ensures infos { IfOk result (λ all. infos_of all.items ≡ records.now) }
    ensures room { IfOk result (λ all. vec_capacity all ≡ length paths.now) }
{
    let mut registrations = Vec::with_capacity(alloc, paths.len())?;
    for n in 0..paths.len() {
        registrations.push_reserved(registration_of(alloc, &paths[n], &records[n])?);
    }
    Ok(registrations)
}

// A path with its record.
fn registration_of(
    alloc: Global,
    path: &StorePath,
    info: &Record,
) -> Result<Registration, AllocError>
    ensures { IfOk result (λ r. r ≡ record { path = path.now; info = info.now }) }
{
    Ok(Registration {
        path: path.copy(alloc)?,
        info: info.copy(alloc)?,
    })
}
