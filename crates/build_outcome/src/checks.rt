//! The tests of what a job's outputs refer to, and of their sizes.
//!
//! | Module | What is in it |
//! |---|---|
//! | `check` | the checks that a derivation may ask for |
//! | `tokens` | the words of a text |
//! | `job_checks` | the checks of a job |
//! | `lists` | the list of a check |
//! | `closure` | the closure of an output |
//! | `specifiers` | the paths that a list names |
//! | `roots` | where the closure of an output begins |
//! | `reach` | the numbers to which links lead |
//! | `path_order` | paths in rising order |
//! | `used_paths` | the paths that an output uses, and the first that a check bars |
//! | `sizes` | the sizes of closures |
//! | `output_tests` | the tests of all outputs |

pub(crate) mod check;
pub(crate) mod closure;
pub(crate) mod job_checks;
pub(crate) mod lists;
pub(crate) mod output_tests;
pub(crate) mod path_order;
pub(crate) mod reach;
pub(crate) mod roots;
pub(crate) mod sizes;
pub(crate) mod specifiers;
pub(crate) mod tokens;
pub(crate) mod used_paths;
