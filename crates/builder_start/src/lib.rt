//! What is prepared for a builder's start from the records of the paths that its job is built from.
//!
//! | Module | What is in it |
//! |---|---|
//! | `preparing` | what is prepared for a job |
//! | `asked` | what a job asks for |
//! | `rows` | the records, and closures among them |
//! | `starts` | the graphs of paths, and where their closures start |
//! | `pairs` | the pairs of names and texts that tokens are |
//! | `entries` | the files of graphs where attributes are entries of the environment |
//! | `given` | structured attributes that are taken |
//! | `requests` | the paths of which structured attributes ask for graphs |
//! | `graphs` | these graphs |
//! | `addresses` | the content addresses of paths |
//! | `structured` | the texts of structured attributes |
#![tactic(auto)]

mod addresses;
mod asked;
mod entries;
mod given;
mod graphs;
mod pairs;
mod preparing;
mod requests;
mod rows;
mod starts;
mod structured;

pub use asked::asks_for_records;
pub use preparing::prepare;
