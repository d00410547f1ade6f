//! Tests of what only Rust can call: threads, a lock that is held, listeners, and the laws at an
//! example.
//!
//! | Module | What is tested |
//! |---|---|
//! | `locking` | what workers do at the lock of a run |
//! | `leases` | what builders hear of their leases, and runs that are stopped |
//! | `example` | the run of the example in the definitions, by its laws and by workers |
//! | `views` | readers of a view beside its writer, and under the lock of a book |
//! | `plans` | plans, journals and answers for the tests |
//! | `hearing`, `heard` | workers that note what they do, and their runs over views of each kind |
#![tactic(auto)]

#[cfg(test)]
mod example;
#[cfg(test)]
mod heard;
#[cfg(test)]
mod hearing;
#[cfg(test)]
mod leases;
#[cfg(test)]
mod locking;
#[cfg(test)]
mod plans;
#[cfg(test)]
mod views;
