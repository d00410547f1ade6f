//! Closures in a table.
//!
//! | Module | What is in it |
//! |---|---|
//! | `closure` | how a closure is found |
//! | `reference` | one reference of a record |
//! | `links` | the references of rows, by the numbers of their rows |
#![tactic(auto)]

pub mod closure;
pub mod links;
pub mod reference;
