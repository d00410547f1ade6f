//! Faults in words, the name of the variant with its values, and every fault with its number.

use crate::stop::{Found, Stop, Taken, call};
use crate::teller::Teller;
use crate::world::World;
use drv_graph::{GraphFault, NodeFault, OutputFault};
use nix_drv::{DrvFault, SourceFault};
use nix_names::{NameFault, StorePath};
use ref_scan::ScanFault;
use sched_core::{BookFault, Reason, Refusal};
use std::alloc::{AllocError, Global};
use std::fmt::{Debug, Display};
use store_run::RunFault;
use valid_table::{Journal, OutletFault, Record, TableFault};
use valid_view::{OpenFault, ViewFault};

/// The words of a fault.
pub(crate) type Words = Result<String, AllocError>;

/// A fault of a call.
pub(crate) trait Fault: Debug {
    /// The name of the variant, with its values.
    fn words(&self, alloc: Global) -> Words {
        format!(in alloc; "{self:?}")
    }
}

impl Fault for AllocError {}

impl Fault for BookFault {}

impl Fault for NameFault {}

impl Fault for OpenFault {}

impl Fault for OutletFault {}

impl Fault for Reason {}

impl Fault for RunFault {}

impl Fault for ScanFault {}

impl Fault for SourceFault {}

// The name of a variant, with a value or two.
macro_rules! told {
    ($alloc:ident, $name:literal, $value:expr) => { format!(in $alloc; "{}({})", $name, $value) };
    ($alloc:ident, $name:literal, $one:expr, $two:expr) => {
        format!(in $alloc; "{}({}, {})", $name, $one, $two)
    };
}

impl Fault for ViewFault {
    fn words(&self, alloc: Global) -> Words {
        match self {
            ViewFault::NotValid(path) => told!(alloc, "NotValid", path.as_str()),
            ViewFault::NoView(_) => format!(in alloc; "NoView"),
            fault => format!(in alloc; "{fault:?}"),
        }
    }
}

impl Fault for TableFault {
    fn words(&self, alloc: Global) -> Words {
        match self {
            TableFault::NotValid(path) => told!(alloc, "NotValid", path.as_str()),
            TableFault::AlreadyValid(path) => told!(alloc, "AlreadyValid", path.as_str()),
            TableFault::Unclosed(one) => told!(alloc, "Unclosed", one.path().as_str()),
            fault => format!(in alloc; "{fault:?}"),
        }
    }
}

impl Fault for DrvFault {
    fn words(&self, alloc: Global) -> Words {
        match self {
            DrvFault::TextPathMismatch(own) => told!(alloc, "TextPathMismatch", own.as_str()),
            DrvFault::BadReference(text) => told!(alloc, "BadReference", text.escape_ascii()),
            fault => format!(in alloc; "{fault:?}"),
        }
    }
}

impl Fault for OutputFault {
    fn words(&self, alloc: Global) -> Words {
        match self {
            OutputFault::UnknownMethod(name) => told!(alloc, "UnknownMethod", name.escape_ascii()),
            OutputFault::UnknownOutput(drv, name) => {
                told!(alloc, "UnknownOutput", drv.as_str(), name.escape_ascii())
            }
            OutputFault::OutputMismatch(name, path) => {
                told!(alloc, "OutputMismatch", name.escape_ascii(), path.as_str())
            }
            OutputFault::EnvMismatch(name) => told!(alloc, "EnvMismatch", name.escape_ascii()),
            fault => format!(in alloc; "{fault:?}"),
        }
    }
}

impl Fault for NodeFault {
    fn words(&self, alloc: Global) -> Words {
        match self {
            NodeFault::Text(fault) => told!(alloc, "Text", fault.words(alloc)?.as_str()),
            NodeFault::Outputs(fault) => told!(alloc, "Outputs", fault.words(alloc)?.as_str()),
            fault => format!(in alloc; "{fault:?}"),
        }
    }
}

impl Fault for GraphFault {
    fn words(&self, alloc: Global) -> Words {
        match self {
            GraphFault::At(path, fault) => {
                told!(alloc, "At", path.as_str(), fault.words(alloc)?.as_str())
            }
            GraphFault::Draft(fault) => told!(alloc, "Draft", fault.words(alloc)?.as_str()),
            fault => format!(in alloc; "{fault:?}"),
        }
    }
}

/// Tells each fault but that of a reader whose writer is gone, after the call for its number.
pub(crate) fn take(teller: &mut Teller<'_>, world: &World) -> Found {
    let (x, y) = (world.path(X)?, world.path(Y)?);
    of_derivations(teller, world.alloc, &x)?;
    of_plans(teller, world.alloc, &x)?;
    of_tables(teller, world.alloc, &x, y)?;
    of_views(teller, x)?;
    of_runs(teller)?;
    Ok(true)
}

const X: &[u8] = b"/nix/store/aaaaaaaaaaaaaaaaaaaaaaaaaaaaaaaa-x";

const Y: &[u8] = b"/nix/store/bbbbbbbbbbbbbbbbbbbbbbbbbbbbbbbb-y";

// Tells some faults of one type, whose number is asked by a call.
fn tell_all<F: Fault + Display, N: Fn(&F) -> u8>(
    teller: &mut Teller<'_>,
    call: &str,
    faults: &[F],
    number_of: N,
) -> Result<(), AllocError>
    requires { N.IsAlwaysCallable number_of }
{
    for fault in faults {
        let number = call!(teller, call => number_of(fault));
        let words = fault.words(teller.rt.alloc())?;
        teller.say(format_args!("{call} {} {number} {fault}", words.as_str()));
    }
    Ok(())
}

// These faults of a type.
macro_rules! faults {
    ($fault:ident: $($variant:ident $(($($value:expr),*))?),*) => {
        [$($fault::$variant $(($($value),*))?),*]
    };
}

// Tells these faults of a type.
macro_rules! tell_all {
    ($teller:ident, $call:literal; $fault:ident: $($variants:tt)*) => {{
        let faults = faults!($fault: $($variants)*);
        tell_all($teller, $call, &faults, $fault::number)
    }};
}

// Tells these faults of a type that has no words.
macro_rules! tell_numbers {
    ($teller:ident, $call:literal; $($fault:tt)*) => {
        for fault in faults!($($fault)*) {
            let number = call!($teller, $call => fault.number());
            $teller.say(format_args!("{} {fault:?} {number}", $call));
        }
    };
}

fn of_derivations(teller: &mut Teller<'_>, alloc: Global, x: &StorePath) -> Result<(), AllocError> {
    tell_all!(teller, "NameFault::number"; NameFault: BadLength, BadChar(4), Overflow, NotInStore,
        BadHashPart, BadName, BadStoreDir, NoMemory)?;
    tell_all!(teller, "SourceFault::number"; SourceFault: NoMemory, Missing, Device)?;
    let (own, text) = (x.copy(alloc)?, out(alloc)?);
    tell_all!(teller, "DrvFault::number"; DrvFault: NoMemory, Syntax(7), Order(35), TooLong,
        TextPathMismatch(own), NotADrvName, NotSorted, BadReference(text))
}

fn out(alloc: Global) -> Result<Vec<u8>, AllocError> {
    Vec::from_slice(alloc, b"out")
}

fn of_plans(teller: &mut Teller<'_>, alloc: Global, x: &StorePath) -> Result<(), AllocError> {
    let (path, other, own) = (x.copy(alloc)?, x.copy(alloc)?, x.copy(alloc)?);
    let (method, name) = (out(alloc)?, out(alloc)?);
    tell_all!(teller, "OutputFault::number"; OutputFault: NoMemory, MixedOutputs,
        UnknownMethod(method), BadName, UnknownOutput(path, name),
        OutputMismatch(out(alloc)?, other), EnvMismatch(out(alloc)?))?;
    tell_all!(teller, "NodeFault::number"; NodeFault: Unreadable, TooMany, Text(DrvFault::TooLong),
        Cycle, Outputs(OutputFault::BadName), OutputClash)?;
    tell_all!(teller, "GraphFault::number"; GraphFault: NoMemory, Name, At(own, NodeFault::Cycle),
        Draft(NodeFault::Outputs(OutputFault::MixedOutputs)))
}

// `unclosed` is the fault of an entry that adds a path, and refers to another that is not valid.
fn of_tables(teller: &mut Teller<'_>, alloc: Global, x: &StorePath, y: StorePath) -> Taken {
    let info = Record::new(vec![in alloc; y]?, None, None)?;
    let Err(unclosed) = Journal::new(alloc).add(x.copy(alloc)?, info) else {
        return Err(Stop::Lost("the entry was added"));
    };
    tell_all!(teller, "TableFault::number"; TableFault: NoMemory, BadLine(2), NotClosed(3),
        Twice(4), WrongVersion, NotValid(x.copy(alloc)?), TooLong)?;
    let faults = [unclosed, TableFault::AlreadyValid(x.copy(alloc)?)];
    Ok(tell_all(teller, "TableFault::number", &faults, TableFault::number)?)
}

fn of_views(teller: &mut Teller<'_>, x: StorePath) -> Result<(), AllocError> {
    tell_all!(teller, "ViewFault::number"; ViewFault: NoMemory, NotValid(x))?;
    tell_all!(teller, "OutletFault::number"; OutletFault: NoMemory, NoView)?;
    tell_all!(teller, "OpenFault::number"; OpenFault: NoMemory)?;
    tell_all!(teller, "ScanFault::number"; ScanFault: NoMemory)
}

fn of_runs(teller: &mut Teller<'_>) -> Result<(), AllocError> {
    tell_numbers!(teller, "Reason::number"; Reason: ExitStatus(7), NoStart, MissingOutput(0),
        NotFlatFile, HashMismatch, OutputCycle, TooLarge, ReadFault, OutOfMemory, Killed,
        BadMode(0), NotAllowed(0, 1), BadSpecifier(0), BadAttributes, BadGraph, UnknownNar(0),
        PastMaxSize(0), PastMaxClosureSize(0));
    tell_numbers!(teller, "Refusal::number"; Refusal: WrongSystem, Unsupported, MissingSource(0),
        InputNotRealised(0), PartlyValid(0), MissingFeature(0));
    tell_all!(teller, "BookFault::number"; BookFault: NoMemory, NoView, ForeignLease, NotLawful)?;
    tell_all!(teller, "RunFault::number"; RunFault: NoView, NoWorkers, ThreadFault, NoMemory,
        ForeignPlan)
}
