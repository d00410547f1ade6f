//! The closure of an output, as tests read it.

use nix_names::StorePath;
use valid_table::Registration;

/// The closure of an output: all that it leads to by references, itself among them.
#[derive(Debug, Drop)]
pub struct OutputClosure {
    /// Its paths, strictly rising.
    pub paths: Vec<StorePath>,
    /// The records of those that are no outputs of the job, in strictly rising order of paths. They
    /// are read only where the size of the closure is asked for.
    pub records: Vec<Registration>,
}
