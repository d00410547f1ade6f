//! A derivation's outputs: their kind, their paths, and what is wrong with them.
//!
//! | Module | What is in it |
//! |---|---|
//! | `kind` | a derivation's kind |
//! | `modulo` | the texts of which modulo hashes are taken |
//! | `expected_paths` | the paths that outputs must have |
//! | `values` | whether the paths in a text are the expected ones |
//! | `output_checks` | what is wrong with a derivation's outputs |

pub(crate) mod expected_paths;
pub(crate) mod kind;
pub(crate) mod modulo;
pub(crate) mod output_checks;
pub(crate) mod values;
