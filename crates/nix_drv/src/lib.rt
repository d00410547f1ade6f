//! Store derivations: reading and writing them, their own paths, and where their bytes come from.
//!
//! | Module | What is in it |
//! |---|---|
//! | `derivation`, `derivation_eq` | a derivation and its parts, and when two are equal |
//! | `reading` | reading a derivation from its text |
//! | `writing` | writing a derivation's text |
//! | `escapes` | the bytes that strings write by an escape |
//! | `element` | lists of elements: reading, ordering and writing them |
//! | `forms` | reading, writing and copying a derivation's parts |
//! | `text_paths` | the store path of a text with references |
//! | `check` | whether a derivation stands at its own path |
//! | `source` | where the bytes of derivations come from |
//! | `listing` | a source that is a list of files in memory |
//! | `fault` | why bytes are no derivation, or not at its own path |
//! | `laws` | laws of the definitions that contracts use |
#![tactic(auto)]

mod check;
mod derivation;
mod derivation_eq;
mod element;
mod escapes;
mod fault;
mod forms;
pub mod laws;
mod listing;
mod reading;
mod source;
mod text_paths;
mod writing;

pub use check::{check_digested_text, check_text, references};
pub use derivation::{Derivation, EnvEntry, Input, Output, Parts};
pub use fault::DrvFault;
pub use listing::{ListSource, ListedFile};
pub use reading::{MAX_LEN, read};
pub use source::{DrvSource, SourceFault};
pub use text_paths::{named_text_path, text_path};
pub use writing::{write, write_string};
