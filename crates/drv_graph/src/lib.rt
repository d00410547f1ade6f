//! Plans of derivations: which are reached, in which order, and which paths their outputs must
//! have.
//!
//! | Module | What is in it |
//! |---|---|
//! | `plans` | plans, and the derivations that are in them |
//! | `walks` | the walk over all derivations that some roots reach |
//! | `profile` | the rules under which plans are loaded |
//! | `kinds` | the kinds of outputs |
//! | `outputs` | a derivation's outputs: their kind, their paths, and what is wrong with them |
//! | `drafts` | drafts, filled with the expected paths |
//! | `paths` | store paths parsed and copied |
//! | `laws` | laws over the definitions that contracts cite |
//! | `fault` | why derivations make no plan |
#![tactic(auto)]

mod drafts;
mod fault;
mod kinds;
pub mod laws;
mod outputs;
mod paths;
mod plans;
mod profile;
mod walks;

pub use drafts::fill::{fill_outputs, fill_outputs_as};
pub use fault::{GraphFault, NodeFault, OutputFault};
pub use kinds::Kind;
pub use nix_names::Method;
pub use outputs::modulo::modulo_text;
pub use plans::plan::Plan;
pub use profile::Profile;
