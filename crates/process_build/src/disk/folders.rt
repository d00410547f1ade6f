//! The store folder, the build folder of a lease, and what is cleared for it.
ghost use Rattle.std.specs.Prelude.{◌≡◌, IfOk, map, string_bytes};
ghost use Rattle.process_build.specs.Folders.{build_folder_of, nix_folder_of};
ghost use Rattle.process_build.specs.private.Folders.{paths_of_outputs, cleared_paths_of};

use build_outcome::Job;
use drv_graph::Profile;
use std::alloc::{AllocError, Global};

/// The folder in which one builder runs.
#[derive(Drop)]
pub struct BuildFolder {
    number: u64,
    // the number at the end of its name
    suffix: u64,
    dir: String,
    path: String,
}

impl BuildFolder {
    /// The build folder of the lease with this number, in a store folder.
    pub fn new(alloc: Global, store_dir: &str, number: u64) -> Result<BuildFolder, AllocError>
        ensures number { IfOk result (λ folder. folder.number ≡ number) }
        ensures suffix { IfOk result (λ folder. folder.suffix ≡ number) }
        ensures dir { IfOk result (λ folder. string_bytes folder.dir ≡ store_dir.now) }
        ensures path { IfOk result (λ folder.
            string_bytes folder.path ≡ build_folder_of store_dir.now number) }
    {
        let path = format!(in alloc; "{store_dir}/.build-{number}")?;
        let dir = String::from_str(alloc, store_dir)?;
        Ok(BuildFolder {
            number,
            suffix: number,
            dir,
            path,
        })
    }

    // The build folder under `nix` of the lease with this number: that of a derivation with this
    // name, with a number at the end of its own name.
    pub(crate) fn at(
        alloc: Global,
        build_dir: &str,
        drv: &str,
        number: u64,
        suffix: u64,
    ) -> Result<BuildFolder, AllocError>
        ensures number { IfOk result (λ folder. folder.number ≡ number) }
        ensures suffix { IfOk result (λ folder. folder.suffix ≡ suffix) }
        ensures dir { IfOk result (λ folder. string_bytes folder.dir ≡ build_dir.now) }
        ensures path { IfOk result (λ folder.
            string_bytes folder.path ≡ nix_folder_of build_dir.now drv.now suffix) }
    {
        let path = format!(in alloc; "{build_dir}/nix-build-{drv}-{suffix}")?;
        let dir = String::from_str(alloc, build_dir)?;
        Ok(BuildFolder {
            number,
            suffix,
            dir,
            path,
        })
    }

    /// The number of its lease.
    pub fn number(&self) -> u64
        ensures { result ≡ self.now.number }
    {
        self.number
    }

    /// The number at the end of its name: under `plain` that of its lease, and under `nix` that or
    /// a greater one.
    pub fn suffix(&self) -> u64
        ensures { result ≡ self.now.suffix }
    {
        self.suffix
    }

    /// The folder in which it is.
    pub fn dir(&self) -> &str
        ensures { result.now ≡ string_bytes self.now.dir }
    {
        self.dir.as_str()
    }

    /// Its path.
    pub fn path(&self) -> &str
        ensures { result.now ≡ string_bytes self.now.path }
    {
        self.path.as_str()
    }

    // The paths that are cleared before the job's builder runs here: those of its outputs, and
    // under `plain` the folder's own.
    pub(crate) fn cleared_paths<'a>(
        &'a self,
        alloc: Global,
        job: &'a Job,
    ) -> Result<Vec<&'a str>, AllocError>
        ensures { IfOk result (λ paths. map (λ p. p.now) paths.items
            ≡ cleared_paths_of job.entry.now (string_bytes self.entry.now.path)) }
    {
        let mut paths = output_paths(alloc, job)?;
        match job.profile {
            Profile::Plain => {
                paths.push(self.path())?;
                Ok(paths)
            }
            Profile::Nix => Ok(paths),
        }
    }
}

// The paths of a job's outputs.
fn output_paths(alloc: Global, job: &Job) -> Result<Vec<&str>, AllocError>
    ensures { IfOk result (λ paths. map (λ p. p.now) paths.items ≡ paths_of_outputs job.now) }
{
    let mut paths = Vec::new(alloc);
    for output in &job.outputs {
        paths.push(output.path.as_str())?;
    }
    Ok(paths)
}
