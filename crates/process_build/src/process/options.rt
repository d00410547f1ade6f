//! How the builders of a run build.
ghost use Rattle.std.specs.Prelude.{◌≡◌, IfOk, is_some, option_map, string_bytes};
ghost use Rattle.process_build.specs.Options.{AreOptionsOf};

use crate::disk::kept_folders::KeptFolders;
use crate::process::builtins::{BuiltinProgram, OwnBuiltin, copy_builtins};
use crate::process::drv_paths::DrvPaths;
use std::alloc::{AllocError, Global};

/// How the builders of a run build: where, how they are started, and what is kept of them.
#[derive(Clone, Copy)]
pub struct BuildOptions<'a> {
    /// The store folder.
    pub store_dir: &'a str,
    /// The program that starts each builder, if one does: an absolute path.
    pub runner: Option<&'a str>,
    /// The folder that gets a log of each builder, if one does.
    pub logs: Option<&'a str>,
    /// The list of the build folders that are kept, those of builders that failed. Without a list
    /// none is kept.
    pub kept: Option<&'a KeptFolders>,
    /// The paths of the run's derivations.
    pub drvs: &'a DrvPaths,
    /// The folder in which build folders are made under the profile `nix`.
    pub build_dir: &'a str,
    /// How many processors a builder under the profile `nix` is told to use.
    pub cores: u16,
    /// The builtins, for which programs are started under the profile `nix`.
    pub builtins: &'a [BuiltinProgram<'a>],
}

/// The options of a run, owned by a builder.
#[derive(Drop)]
pub struct OwnOptions {
    store_dir: String,
    runner: Option<String>,
    logs: Option<String>,
    kept: Option<KeptFolders>,
    drvs: DrvPaths,
    build_dir: String,
    cores: u16,
    builtins: Vec<OwnBuiltin>,
}

impl OwnOptions {
    /// A copy of the options. Want of memory is the only error.
    pub fn of(alloc: Global, options: &BuildOptions<'_>) -> Result<OwnOptions, AllocError>
        ensures { IfOk result (AreOptionsOf options.now) }
    {
        Ok(OwnOptions {
            store_dir: String::from_str(alloc, options.store_dir)?,
            runner: copy_text(alloc, options.runner)?,
            logs: copy_text(alloc, options.logs)?,
            kept: share_list(options.kept)?,
            drvs: options.drvs.copy()?,
            build_dir: String::from_str(alloc, options.build_dir)?,
            cores: options.cores,
            builtins: copy_builtins(alloc, options.builtins)?,
        })
    }

    /// The store folder.
    pub fn store_dir(&self) -> &str
        ensures { result.now ≡ string_bytes self.now.store_dir }
    {
        self.store_dir.as_str()
    }

    /// The program that starts each builder, if one does.
    pub fn runner(&self) -> Option<&str>
        ensures { option_map (λ r. r.now) result ≡ option_map string_bytes self.now.runner }
    {
        text_of(&self.runner)
    }

    /// The folder that gets a log of each builder, if one does.
    pub fn logs(&self) -> Option<&str>
        ensures { option_map (λ l. l.now) result ≡ option_map string_bytes self.now.logs }
    {
        text_of(&self.logs)
    }

    /// The list of the build folders that are kept, if any are.
    pub fn kept(&self) -> Option<&KeptFolders>
        ensures { is_some result ≡ is_some self.now.kept }
    {
        self.kept.as_ref()
    }

    /// The paths of the run's derivations.
    pub fn drvs(&self) -> &DrvPaths
        ensures { result.now ≡ self.now.drvs }
    {
        &self.drvs
    }

    /// The folder in which build folders are made under the profile `nix`.
    pub fn build_dir(&self) -> &str
        ensures { result.now ≡ string_bytes self.now.build_dir }
    {
        self.build_dir.as_str()
    }

    /// How many processors a builder under the profile `nix` is told to use.
    pub fn cores(&self) -> u16
        ensures { result ≡ self.now.cores }
    {
        self.cores
    }

    /// The builtins, for which programs are started under the profile `nix`.
    pub fn builtins(&self) -> &[OwnBuiltin]
        ensures { result.now ≡ self.now.builtins.items }
    {
        self.builtins.as_slice()
    }
}

// A copy of a text, if there is one.
fn copy_text(alloc: Global, text: Option<&str>) -> Result<Option<String>, AllocError>
    ensures { IfOk result (λ copy. option_map string_bytes copy ≡ option_map (λ t. t.now) text.entry) }
{
    match text {
        Some(text) => Ok(Some(String::from_str(alloc, text)?)),
        None => Ok(None),
    }
}

// A text that is owned, if there is one.
fn text_of(text: &Option<String>) -> Option<&str>
    ensures { option_map (λ t. t.now) result ≡ option_map string_bytes text.now }
{
    match text {
        Some(text) => Some(text.as_str()),
        None => None,
    }
}

// Another handle of a list, if there is one.
fn share_list(kept: Option<&KeptFolders>) -> Result<Option<KeptFolders>, AllocError>
    ensures { IfOk result (λ copy. is_some copy ≡ is_some kept.entry) }
{
    match kept {
        Some(kept) => Ok(Some(kept.again()?)),
        None => Ok(None),
    }
}
