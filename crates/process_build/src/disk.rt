//! Build folders, logs and outputs on disk.
//!
//! | Module | What is in it |
//! |---|---|
//! | `folders` | the store folder, the build folder of a lease, and what is cleared for it |
//! | `fresh_folders` | build folders under `nix`, each of which is made where nothing lay |
//! | `setup_files` | the files that lie in a builder's folder before it is started |
//! | `cleanup` | what lies at a path of the store folder, taken away |
//! | `left_paths` | what earlier runs moved aside and could not remove |
//! | `removal` | folders taken away with all that is in them |
//! | `outputs` | what lies at the outputs' paths, read within the limits of an output |
//! | `heard_outputs` | the same, heard in one pass, with no file's bytes kept |
//! | `canonical` | the modes and the time of the outputs' files and folders under `nix` |
//! | `logs` | the log of a builder |
//! | `kept_folders` | the build folders of builders that failed, which are kept |
#![tactic(auto)]

pub mod canonical;
pub mod cleanup;
pub mod folders;
pub mod fresh_folders;
pub mod heard_outputs;
pub mod kept_folders;
pub mod left_paths;
pub mod logs;
pub mod outputs;
pub mod removal;
pub mod setup_files;
