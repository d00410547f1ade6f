//! The subcommands `add-text` and `add-drv`.
//!
//! | Module | What is in it |
//! |---|---|
//! | `added_text`, `add_text` | the answer of `add-text`; the subcommand |
//! | `text_record` | what a journal tells of a text |
//! | `added_drv`, `add_drv` | the answer of `add-drv`; the subcommand |
#![tactic(auto)]

pub mod add_drv;
pub mod add_text;
pub mod added_drv;
pub mod added_text;
pub mod text_record;
