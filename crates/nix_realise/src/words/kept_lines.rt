//! The lines of the build folders that a run keeps.
ghost use Rattle.std.specs.Prelude.{◌≡◌, ◌++◌, ◌<◌, IfOk, OnOk, flat_map, length};
ghost use Rattle.process_build.specs.Folders.{kept_suffix, nix_folder_of};
ghost use Rattle.process_build.specs.Leases.{drv_name};
ghost use Rattle.nix_realise.specs.LastLines.{AreKeptFolderLines, kept_folder_of, kept_lease, kept_line};
ghost use Rattle.nix_realise.specs.private.Leases.{derivation_of};

use crate::words::drv_line::write_front;
use command_line::RunRequest;
use drv_graph::{Plan, Profile};
use itoa::Buffer;
use nix_names::StorePath;
use process_build::{BuildFolder, drv_name};
use sched_core::{Book, Event};
use std::alloc::{AllocError, Global};
use valid_table::Outlet;

/// The build folders that a run kept.
#[derive(Drop)]
pub struct KeptBuilds<'a> {
    /// The folder in which they lie under `nix`.
    pub build_dir: &'a str,
    /// The number at the end of the name of each, by the number of its lease, and nothing for a
    /// lease whose folder was not kept.
    pub suffixes: Vec<Option<u64>>,
}

/// A lease under which a derivation failed, and whose build folder was kept.
#[derive(Debug, Drop)]
pub struct KeptLease {
    /// The path of the derivation.
    pub drv: StorePath,
    /// The number of the lease.
    pub number: u64,
    /// The number at the end of the folder's name.
    pub suffix: u64,
}

/// A line for each lease under which a derivation of this book failed, and whose build folder was
/// kept, in a run of these words; by the paths of the derivations.
pub fn kept_lines<V: Outlet>(
    alloc: Global,
    run: &RunRequest<'_>,
    book: &Book<V>,
    kept: &KeptBuilds<'_>,
) -> Result<Vec<u8>, AllocError>
    ensures { IfOk result (λ text. AreKeptFolderLines run.now book.now.run book.now.history
        kept.now text.items) }
{
    let mut leases = kept_leases(alloc, book, &kept.suffixes)?;
    leases.sort_unstable_by(|a, b| a.drv.cmp(&b.drv));
    let mut lines = Vec::new(alloc);
    write_kept(alloc, run, kept.build_dir, &leases, &mut lines)?;
    Ok(lines)
}

// The leases under which derivations failed, and whose folders were kept, in the order in which
// they ended.
fn kept_leases<V: Outlet>(
    alloc: Global,
    book: &Book<V>,
    kept: &[Option<u64>],
) -> Result<Vec<KeptLease>, AllocError>
    ensures { IfOk result (λ leases. leases.items
        ≡ flat_map (kept_lease book.now.run.graph.nodes kept.now) book.now.history.events) }
{
    let mut leases = Vec::new(alloc);
    'events: for event in book.events() {
        push_kept(alloc, book.plan(), kept, event, &mut leases)?;
    }
    Ok(leases)
}

// Adds the lease of an event, if that is a Fail and the lease's folder was kept.
fn push_kept(
    alloc: Global,
    plan: &Plan,
    kept: &[Option<u64>],
    event: &Event,
    leases: &mut Vec<KeptLease>,
) -> Result<(), AllocError>
    requires { derivation_of event.now < length plan.now.nodes }
    ensures { OnOk result (leases.new.items
        ≡ leases.old.items ++ kept_lease plan.now.nodes kept.now event.now) }
{
    let Event::Fail(d, number, _) = event else {
        return Ok(());
    };
    let Some(suffix) = suffix_of(kept, *number) else {
        return Ok(());
    };
    let drv = plan.path(*d).copy(alloc)?;
    leases.push(KeptLease {
        drv,
        number: *number,
        suffix,
    })?;
    Ok(())
}

// The number at the end of the name of the folder that was kept under a lease, if it was kept.
fn suffix_of(kept: &[Option<u64>], number: u64) -> Option<u64>
    ensures { result ≡ kept_suffix kept.now number }
{
    kept.get(number as usize).copied().unwrap_or(None)
}

// Adds the lines of these leases.
fn write_kept(
    alloc: Global,
    run: &RunRequest<'_>,
    build_dir: &str,
    leases: &[KeptLease],
    out: &mut Vec<u8>,
) -> Result<(), AllocError>
    ensures { OnOk result (out.new.items
        ≡ out.old.items ++ flat_map (kept_line run.now build_dir.now) leases.now) }
{
    'leases: for lease in leases {
        write_kept_line(alloc, run, build_dir, lease, out)?;
    }
    Ok(())
}

// Adds the line of a lease.
fn write_kept_line(
    alloc: Global,
    run: &RunRequest<'_>,
    build_dir: &str,
    lease: &KeptLease,
    out: &mut Vec<u8>,
) -> Result<(), AllocError>
    ensures { OnOk result (out.new.items
        ≡ out.old.items ++ kept_line run.now build_dir.now lease.now) }
{
    write_front(&lease.drv, b": kept ", out)?;
    write_folder(alloc, run, build_dir, lease, out)?;
    out.extend_from_slice(b"\n")
}

// Adds the path of a lease's folder.
fn write_folder(
    alloc: Global,
    run: &RunRequest<'_>,
    build_dir: &str,
    lease: &KeptLease,
    out: &mut Vec<u8>,
) -> Result<(), AllocError>
    ensures { OnOk result (out.new.items ≡ out.old.items
        ++ kept_folder_of run.now.profile run.now.store_dir.now build_dir.now lease.now) }
{
    match run.profile {
        Profile::Plain => {
            let folder = BuildFolder::new(alloc, run.store_dir, lease.number)?;
            out.extend_from_slice(folder.path().as_bytes())
        }
        Profile::Nix => write_nix_folder(build_dir, lease, out),
    }
}

// Adds the path of a lease's folder under `nix`.
fn write_nix_folder(build_dir: &str, lease: &KeptLease, out: &mut Vec<u8>) -> Result<(), AllocError>
    ensures { OnOk result (out.new.items ≡ out.old.items
        ++ nix_folder_of build_dir.now (drv_name lease.now.drv) lease.now.suffix) }
{
    out.extend_from_slice(build_dir.as_bytes())?;
    out.extend_from_slice(b"/nix-build-")?;
    out.extend_from_slice(drv_name(&lease.drv))?;
    out.extend_from_slice(b"-")?;
    out.extend_from_slice(Buffer::new().format(lease.suffix).as_bytes())
}
