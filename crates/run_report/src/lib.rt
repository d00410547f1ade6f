//! What is told of a run: its report, and before it a forecast.
//!
//! | Module | What is in it |
//! |---|---|
//! | `report` | what is told of a plan, and the report of a run |
//! | `words` | the words for why a derivation was not built |
//! | `forecast` | what is foretold of a plan before anything is built, and its picture |
//! | `laws` | laws over the definitions that contracts cite |
#![tactic(auto)]

mod forecast;
pub mod laws;
mod report;
mod words;

pub use forecast::Forecast;
pub use report::lines::{write_outputs, write_path_line, write_refused};
pub use report::listing::{Listed, marked_by_path};
pub use report::report_of;
pub use words::named::{write_name, write_with_number, write_with_string, write_with_value};
pub use words::write_refusal;
