//! The words of faults, and the last lines and the trace of a run.
//!
//! | Module | What is in it |
//! |---|---|
//! | `fault_words`, `graph_words` | the words of faults |
//! | `last_lines`, `kept_lines`, `cause_lines` | a run's last lines |
//! | `twins_line` | the last line of `plan` |
//! | `run_trace` | the text of a run's trace |
//! | `drv_line` | the front of a line on a derivation |
#![tactic(auto)]

pub mod cause_lines;
pub mod drv_line;
pub mod fault_words;
pub mod graph_words;
pub mod kept_lines;
pub mod last_lines;
pub mod run_trace;
pub mod twins_line;
