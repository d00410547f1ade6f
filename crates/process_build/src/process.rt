//! Builders as processes.
//!
//! | Module | What is in it |
//! |---|---|
//! | `lease` | a lease, running or ended |
//! | `builders` | what makes the builders of a run |
//! | `processes` | a builder that runs a job's program as a process |
//! | `entries` | the entries of a builder's environment, before their placeholders are replaced |
//! | `builtins` | the programs that are started for builtin builders |
//! | `caller` | what the caller's environment has for the names that a job asks for |
//! | `drv_paths` | the paths of a run's derivations, by number |
//! | `environment` | the environment that a builder finds |
//! | `placeholders` | the placeholders of a job's outputs |
//! | `setup` | what a builder is started with |
//! | `surroundings` | what a builder's setup depends on beside its job |
//! | `texts` | the texts that a builder is given |
//! | `values` | the values of an environment's entries |
//! | `process_end` | how a builder ended, which nothing but waiting for it tells |
//! | `start` | a builder that is started and waited for |
//! | `options` | how the builders of a run build |
#![tactic(auto)]

pub mod builders;
pub mod builtins;
pub mod caller;
pub mod drv_paths;
pub mod entries;
pub mod environment;
pub mod lease;
pub mod options;
pub mod placeholders;
pub mod process_end;
pub mod processes;
pub mod setup;
pub mod start;
pub mod surroundings;
pub mod texts;
pub mod values;
