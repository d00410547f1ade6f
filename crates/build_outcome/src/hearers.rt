//! Outputs that are heard event by event, and of which no tree is kept.
//!
//! | Module | What is in it |
//! |---|---|
//! | `output_hearer` | what hears the tree of an output, once |
//! | `heard_output` | what is kept of it |
//! | `file_hearer` | whether the tree is a file, and the digest of its bytes |
//! | `archive_hearer` | the length and the digests of its archive, where they are asked for |
//! | `archive_sink` | the same of an archive's bytes |
//! | `algorithm_sink` | a digest by any algorithm |

pub(crate) mod algorithm_sink;
mod archive_hearer;
mod archive_sink;
pub(crate) mod file_hearer;
pub(crate) mod heard_output;
pub(crate) mod output_hearer;
