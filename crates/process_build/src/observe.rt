//! What is seen of leases: their trace, and the line of progress.
//!
//! | Module | What is in it |
//! |---|---|
//! | `time` | what a clock reads |
//! | `progress` | the line of progress |
//! | `shown_numbers` | the numbers that the line's terminal was shown last |
//! | `counts`, `line` | the numbers of that line; its text |
//! | `with_progress` | builders whose builds the line tells |
//! | `trace` | the times of a run's leases, which its builders note |
//! | `traces` | the text of a trace |
//! | `with_trace` | builders whose leases a trace notes |
//! | `longest` | the leases that run, and the one of them that runs longest |
#![tactic(auto)]

pub mod counts;
pub mod line;
pub mod longest;
pub mod progress;
pub mod shown_numbers;
pub mod time;
pub mod trace;
pub mod traces;
pub mod with_progress;
pub mod with_trace;
