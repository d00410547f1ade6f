//! Builders that run a job's program as a process, and the line that tells how far a run is.
//!
//! | Module | What is in it |
//! |---|---|
//! | `disk` | build folders, logs and outputs on disk |
//! | `observe` | what is seen of leases: their trace, and the line of progress |
//! | `process` | builders as processes |
//! | `failures`, `reasons` | what an error of the system means at a path, and for a build |
//! | `walk` | a tree on disk, told event by event |
//! | `tree_maker` | a tree on disk, made of what is told of it |
//! | `laws` | what holds of these numbers, over the definitions |
#![tactic(auto)]

mod disk;
mod failures;
pub mod laws;
mod observe;
mod process;
mod reasons;
mod tree_maker;
mod walk;

pub use disk::folders::BuildFolder;
pub use disk::kept_folders::KeptFolders;
pub use disk::left_paths::remove_left;
pub use disk::logs::Logs;
pub use failures::Failure;
pub use observe::progress::ProgressLine;
pub use observe::trace::{NotedTimes, Trace};
pub use observe::traces::trace_text;
pub use observe::with_progress::WithProgress;
pub use observe::with_trace::WithTrace;
pub use process::builders::Builders;
pub use process::builtins::BuiltinProgram;
pub use process::drv_paths::DrvPaths;
pub use process::lease::{EndedLease, LeaseTimes, drv_name};
pub use process::options::BuildOptions;
pub use process::processes::{ProcessBuild, ProcessBuilders};
pub use tree_maker::disk_parts::DiskParts;
pub use tree_maker::maker::TreeMaker;
pub use tree_maker::maker_fault::MakerFault;
pub use tree_maker::part::{MakeParts, Part};
pub use walk::fault::WalkFault;
pub use walk::tree_walk::tell_path;
