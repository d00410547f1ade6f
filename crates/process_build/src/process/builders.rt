//! What makes the builders of a run.
ghost use Rattle.std.specs.Prelude.{IfOk};
ghost use Rattle.process_build.specs.declared.process.options.BuildOptions.{BuildOptions};

use crate::process::options::BuildOptions;
use build_outcome::{Build, LeaseObserver};
use std::alloc::{AllocError, Global};

/// What makes the builders of a run.
pub trait Builders {
    /// What is made.
    type Builder: Build + LeaseObserver + Send + Drop;

    // A builder builds by some options.
    ghost builds_in: { Self.Builder → BuildOptions → Type 0 };

    /// A builder that builds by these options. Want of memory is the only error.
    fn builder(
        &self,
        alloc: Global,
        options: &BuildOptions<'_>,
    ) -> Result<Self::Builder, AllocError>
        ensures { IfOk result (λ builder. builds_in builder options.now) };
}
