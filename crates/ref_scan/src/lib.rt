//! The scan of an output's tree for references: which store paths' hash parts occur in it.
//!
//! | Module | What is in it |
//! |---|---|
//! | `tree` | trees of files, links and folders, and the limits of an output |
//! | `references` | the permitted store paths that a tree refers to |
//! | `scanner` | the same of bytes that come in pieces |
//! | `marks` | which hash parts stand within the bytes that were fed |
//! | `search`, `index`, `alphabet` | some bytes searched for all hash parts at once |
//! | `seam`, `fed_bytes` | what is kept of a piece, and what was fed |
//! | `tree_archive` | the archive (NAR) of a tree, told event by event, and its length and digest |
//! | `hearers` | a tree that is heard event by event: its references, and the limits of an output |
//! | `fault` | why a scan gave up |
//! | `laws` | laws over the definitions that contracts cite |
#![tactic(auto)]

mod alphabet;
mod fault;
mod fed_bytes;
mod hearers;
mod index;
pub mod laws;
mod marks;
mod references;
mod scanner;
mod seam;
mod search;
mod tree;
mod tree_archive;

pub use fault::ScanFault;
pub use hearers::tree_counts::TreeCounts;
pub use hearers::tree_scanner::TreeScanner;
pub use references::scan;
pub use scanner::Scanner;
pub use tree::{MAX_DEPTH, MAX_ENTRIES, MAX_FILE_BYTES, Member, Tree};
pub use tree_archive::outcome::Told;
pub use tree_archive::sum::{ArchiveSum, archive_digest, archive_into, archive_sum};
pub use tree_archive::walk::tell;
