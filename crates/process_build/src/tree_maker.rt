//! A tree on disk, made of what is told of it. No file's bytes are kept.
//!
//! | Module | What is in it |
//! |---|---|
//! | `maker` | the hearer that has each part made at its path |
//! | `part` | the parts of a tree, and what makes them |
//! | `disk_parts` | the same by calls of the system |
//! | `maker_fault` | why a tree could not be made |
#![tactic(auto)]

pub mod disk_parts;
pub mod maker;
pub mod maker_fault;
pub mod part;
