//! SHA-256 of many texts, four at a time.
//!
//! [`four_digests`] takes four texts side by side: each word of the standard's computation is a
//! vector of four words, one of each text. Four texts of about one length take half of what the
//! kit's `sha2` takes for them one by one. [`digests`] takes a list, in fours. Each digest is the
//! one of the kit's definition of SHA-256, which the contracts cite.
//!
//! | Module | What is in it |
//! |---|---|
//! | `functions` | the standard's functions of words |
//! | `rounds` | the schedule and the rounds of a block of each text |
//! | `blocks` | the blocks of a text with its padding |
//! | `texts` | the digests of four texts, and of a list |
#![tactic(auto)]

mod blocks;
mod consts;
mod functions;
mod rounds;
mod texts;

pub use texts::{DigestBytes, digests, four_digests};
