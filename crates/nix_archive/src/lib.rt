//! Archives of trees in the format of Nix, called NAR.
//!
//! | Module | What is in it |
//! |---|---|
//! | `event` | what is heard of a tree, event by event |
//! | `both` | two hearers of one tree |
//! | `sink` | where an archive is written |
//! | `digest` | the length and the digest of what is written |
//! | `writer` | the archive of what is heard |
//! | `reader` | the reader of an archive that comes in pieces |
//! | `feed` | how it takes a piece |
//! | `mode` | what comes next in an archive |
//! | `kinds` | the bytes that decide this |
//! | `strings` | lengths, and the files and targets that they are of |
//! | `name` | the names of entries, read byte by byte |
//! | `entry_name` | which bytes may be one, and their order |
//! | `fault` | why a reading gave up |
//! | `laws` | laws over the definitions that contracts cite |
#![tactic(auto)]

mod both;
mod digest;
mod entry_name;
mod event;
mod fault;
mod feed;
mod kinds;
pub mod laws;
mod mode;
mod name;
mod reader;
mod sink;
mod strings;
mod writer;

pub use both::Both;
pub use digest::DigestSink;
pub use entry_name::{comes_next, is_entry_name};
pub use event::{Event, Hear};
pub use fault::ArchiveFault;
pub use reader::ArchiveReader;
pub use sink::Sink;
pub use writer::ArchiveWriter;
