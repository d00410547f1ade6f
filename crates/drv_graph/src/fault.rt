//! Why derivations make no plan, or a draft can't be filled.
ghost use Rattle.std.specs.Prelude.{◌≡◌};
ghost use Rattle.drv_graph.specs.Faults.{node_number_of, number_of, output_number_of};

use nix_drv::DrvFault;
use nix_names::StorePath;
use std::alloc::{AllocError, AllocFailed};
use thiserror::Error;

/// What is wrong with a derivation's outputs.
#[derive(Debug, Drop, Error)]
pub enum OutputFault {
    /// Memory was refused.
    #[error("memory was refused")]
    NoMemory,
    /// There is no output, or one that isn't input-addressed and isn't the only one, named `out`.
    #[error("the outputs are not of one kind")]
    MixedOutputs,
    /// The output with this name has a method or a hash that isn't known.
    #[error("an output's content is fixed by no known method")]
    UnknownMethod(Vec<u8>),
    /// The name of an output, or of its path, is no name of a store path.
    #[error("an output has no name of a store path")]
    BadName,
    /// The input derivation with this path has no output with this name.
    #[error("an input has no such output")]
    UnknownOutput(StorePath, Vec<u8>),
    /// The output with this name must have this path, and has another.
    #[error("an output has another path than its own")]
    OutputMismatch(Vec<u8>, StorePath),
    /// The entry of the environment under this output's name has another value than its path.
    #[error("an entry of the environment has another value than its output's path")]
    EnvMismatch(Vec<u8>),
}

impl OutputFault {
    /// The fault's number in the table of faults.
    pub fn number(&self) -> u8
        ensures { result ≡ output_number_of self.now }
    {
        match self {
            OutputFault::NoMemory => 9,
            OutputFault::OutputMismatch(..) => 23,
            OutputFault::MixedOutputs => 24,
            OutputFault::UnknownOutput(..) => 25,
            OutputFault::BadName => 6,
            OutputFault::EnvMismatch(_) => 27,
            OutputFault::UnknownMethod(_) => 28,
        }
    }
}

impl From<AllocError> for OutputFault {
    ghost use Rattle.drv_graph.specs.declared.fault.OutputFault.TheVariants.{NoMemory};

    ghost from_gives = { λ _ fault. fault ≡ NoMemory };

    fn from(_: AllocError) -> Self {
        OutputFault::NoMemory
    }
}

impl<T: Drop> From<AllocFailed<T>> for OutputFault {
    ghost use Rattle.drv_graph.specs.declared.fault.OutputFault.TheVariants.{NoMemory};

    ghost from_gives = { λ _ fault. fault ≡ NoMemory };

    fn from(_: AllocFailed<T>) -> Self {
        OutputFault::NoMemory
    }
}

/// What is wrong with one derivation of a plan.
#[derive(Debug, Drop, Error)]
pub enum NodeFault {
    /// Its text could not be fetched.
    #[error("the derivation could not be read")]
    Unreadable,
    /// With it there are more than 65,536 derivations.
    #[error("there are more than 65,536 derivations")]
    TooMany,
    /// Its text is not that of a derivation which stands at its own path.
    #[error("{0}")]
    Text(DrvFault),
    /// It is reached from itself.
    #[error("the derivation is an input of itself")]
    Cycle,
    /// Something is wrong with its outputs.
    #[error("{0}")]
    Outputs(OutputFault),
    /// One of its output paths is also one of an earlier derivation with another set of them.
    #[error("an output is also that of a derivation with other outputs")]
    OutputClash,
}

impl NodeFault {
    /// The fault's number in the table of faults.
    pub fn number(&self) -> u8
        ensures { result ≡ node_number_of self.now }
    {
        match self {
            NodeFault::Unreadable => 20,
            NodeFault::TooMany => 22,
            NodeFault::Text(fault) => fault.number(),
            NodeFault::Cycle => 21,
            NodeFault::Outputs(fault) => fault.number(),
            NodeFault::OutputClash => 29,
        }
    }
}

/// Why derivations make no plan, or a draft can't be filled.
#[derive(Debug, Drop, Error)]
pub enum GraphFault {
    /// Memory was refused.
    #[error("memory was refused")]
    NoMemory,
    /// Something is wrong with the derivation that stands at this path.
    #[error("{1}")]
    At(StorePath, NodeFault),
    /// Something is wrong with the draft that is to be filled, or with its filled text.
    #[error("{0}")]
    Draft(NodeFault),
    /// The name for the draft, or it with `.drv` after it, is no name of a store path.
    #[error("the name is no derivation's name")]
    Name,
}

impl GraphFault {
    /// The fault's number in the table of faults.
    pub fn number(&self) -> u8
        ensures { result ≡ number_of self.now }
    {
        match self {
            GraphFault::NoMemory => 9,
            GraphFault::At(_, fault) => fault.number(),
            GraphFault::Draft(fault) => fault.number(),
            GraphFault::Name => 6,
        }
    }
}

impl From<AllocError> for GraphFault {
    ghost use Rattle.drv_graph.specs.declared.fault.GraphFault.TheVariants.{NoMemory};

    ghost from_gives = { λ _ fault. fault ≡ NoMemory };

    fn from(_: AllocError) -> Self {
        GraphFault::NoMemory
    }
}

impl<T: Drop> From<AllocFailed<T>> for GraphFault {
    ghost use Rattle.drv_graph.specs.declared.fault.GraphFault.TheVariants.{NoMemory};

    ghost from_gives = { λ _ fault. fault ≡ NoMemory };

    fn from(_: AllocFailed<T>) -> Self {
        GraphFault::NoMemory
    }
}
