//! The histories of a run, and the state of each derivation of its plan.
//!
//! | Module | What is in it |
//! |---|---|
//! | `system`, `features` | what a run builds for, and the features that a derivation asks for |
//! | `structured` | structured attributes of a derivation |
//! | `state` | why a derivation is not begun, its state, and events |
//! | `precondition` | what is known of a derivation before anything is begun |
//! | `state_table` | the state of each derivation of a plan |
//! | `node_states`, `states` | what is kept of a derivation, and what its state says to those that wait for it |
//! | `users` | the edges from each derivation to those that wait for it |
//! | `work_queues` | which derivations can be begun, and which ends are still to be told |
//! | `propagate` | how an event changes a state, and those that wait are told of it |
//! | `preconditions` | the preconditions of a plan's derivations |
//! | `wanted`, `twins` | which derivations of a plan are wanted, and their nearest earlier twins |
//! | `fault` | why a call of a book refuses |
#![tactic(auto)]

mod fault;
mod features;
mod node_states;
mod precondition;
mod preconditions;
mod propagate;
mod state;
mod state_table;
mod states;
mod structured;
mod system;
mod twins;
mod users;
mod wanted;
mod work_queues;

pub use fault::BookFault;
pub use features::required_feature;
pub use precondition::Precondition;
pub use preconditions::{is_left_out, preconditions_of};
pub use state::{Event, Refusal, State};
pub use state_table::StateTable;
pub use system::System;
pub use twins::nearest_twins;
pub use wanted::{mark, wanted_of};
