//! What a builder's setup depends on beside its job.
use crate::process::builtins::OwnBuiltin;
use nix_drv::EnvEntry;

/// What a builder's setup depends on beside its job.
#[derive(Clone, Copy)]
pub struct Surroundings<'a> {
    /// The store folder.
    pub store_dir: &'a str,
    /// The folder in which the builder runs.
    pub folder: &'a str,
    /// How many processors a builder under `nix` is told to use.
    pub cores: u16,
    /// The entries of the caller's environment, of which builders of fixed outputs under `nix` may
    /// ask for some.
    pub caller: &'a [EnvEntry],
    /// The builtins, for which programs are started under `nix`.
    pub builtins: &'a [OwnBuiltin],
}
