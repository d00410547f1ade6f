//! The words by which a line names a fault: its name, and its value in parentheses.
//!
//! Each type of fault has one function here, which adds the words to a list of bytes.
ghost use Rattle.std.specs.Prelude.{◌≡◌, ◌++◌, IfOk, OnOk};
ghost use Rattle.nix_realise.specs.FaultWords.{drv_fault_words, name_fault_words};
ghost use Rattle.nix_realise.specs.FaultWords.{run_fault_words, table_fault_words};
ghost use Rattle.nix_realise.specs.RunErrors.{stop_line, words_of};

use crate::cli::run_error::{FaultName, RunError};
use crate::words::graph_words::write_node_fault;
use nix_drv::DrvFault;
use nix_names::NameFault;
use sched_core::{write_name, write_with_number, write_with_string, write_with_value};
use std::alloc::{AllocError, Global};
use store_run::RunFault;
use valid_table::TableFault;

/// Adds the words of a fault of a name.
pub fn write_name_fault(fault: NameFault, out: &mut Vec<u8>) -> Result<(), AllocError>
    ensures { OnOk result (out.new.items ≡ out.old.items ++ name_fault_words fault) }
{
    match fault {
        NameFault::BadLength => write_name(b"BadLength", out),
        NameFault::BadChar(offset) => write_with_number(b"BadChar", offset, out),
        NameFault::Overflow => write_name(b"Overflow", out),
        NameFault::NotInStore => write_name(b"NotInStore", out),
        NameFault::BadHashPart => write_name(b"BadHashPart", out),
        NameFault::BadName => write_name(b"BadName", out),
        NameFault::BadStoreDir => write_name(b"BadStoreDir", out),
        NameFault::NoMemory => write_name(b"NoMemory", out),
    }
}

/// Adds the words of a fault of a derivation: an offset in decimal, a path without quotes, a text
/// as the derivations' language spells it.
pub fn write_drv_fault(fault: &DrvFault, out: &mut Vec<u8>) -> Result<(), AllocError>
    ensures { OnOk result (out.new.items ≡ out.old.items ++ drv_fault_words fault.now) }
{
    match fault {
        DrvFault::NoMemory => write_name(b"NoMemory", out),
        DrvFault::Syntax(offset) => write_with_number(b"Syntax", *offset, out),
        DrvFault::Order(offset) => write_with_number(b"Order", *offset, out),
        DrvFault::TooLong => write_name(b"TooLong", out),
        DrvFault::TextPathMismatch(path) => {
            write_with_value(b"TextPathMismatch", path.text(), out)
        }
        DrvFault::NotADrvName => write_name(b"NotADrvName", out),
        DrvFault::NotSorted => write_name(b"NotSorted", out),
        DrvFault::BadReference(text) => write_with_string(b"BadReference", text, out),
    }
}

/// Adds the words of a fault of a journal: a line's number in decimal, a path without quotes.
pub fn write_table_fault(fault: &TableFault, out: &mut Vec<u8>) -> Result<(), AllocError>
    ensures { OnOk result (out.new.items ≡ out.old.items ++ table_fault_words fault.now) }
{
    match fault {
        TableFault::NoMemory => write_name(b"NoMemory", out),
        TableFault::BadLine(line) => write_with_number(b"BadLine", *line, out),
        TableFault::NotClosed(line) => write_with_number(b"NotClosed", *line, out),
        TableFault::Twice(line) => write_with_number(b"Twice", *line, out),
        TableFault::WrongVersion => write_name(b"WrongVersion", out),
        TableFault::NotValid(path) => write_with_value(b"NotValid", path.text(), out),
        TableFault::TooLong => write_name(b"TooLong", out),
        TableFault::Unclosed(path) => write_with_value(b"Unclosed", path.text(), out),
        TableFault::AlreadyValid(path) => write_with_value(b"AlreadyValid", path.text(), out),
    }
}

/// Adds the words of a fault of a run.
pub fn write_run_fault(fault: RunFault, out: &mut Vec<u8>) -> Result<(), AllocError>
    ensures { OnOk result (out.new.items ≡ out.old.items ++ run_fault_words fault) }
{
    match fault {
        RunFault::NoWorkers => write_name(b"NoWorkers", out),
        RunFault::NoView => write_name(b"NoView", out),
        RunFault::ThreadFault => write_name(b"ThreadFault", out),
        RunFault::NoMemory => write_name(b"NoMemory", out),
        RunFault::ForeignPlan => write_name(b"ForeignPlan", out),
    }
}

// Adds the words of the fault by which a run ends.
fn write_fault(name: FaultName<'_>, out: &mut Vec<u8>) -> Result<(), AllocError>
    ensures { OnOk result (out.new.items ≡ out.old.items ++ words_of name.entry) }
{
    match name {
        FaultName::Word(name) => write_name(name, out),
        FaultName::OfName(fault) => write_name_fault(fault, out),
        FaultName::OfNode(fault) => write_node_fault(fault, out),
        FaultName::OfJournal(fault) => write_table_fault(fault, out),
        FaultName::OfRun(fault) => write_run_fault(fault, out),
        FaultName::OfArchive(offset) => write_with_number(b"BadNar", offset, out),
    }
}

/// The line that tells why a run ends without its report, with its newline.
pub fn stop_line(alloc: Global, stop: &RunError<'_>) -> Result<Vec<u8>, AllocError>
    ensures { IfOk result (λ line. line.items ≡ stop_line stop.now) }
{
    let row = stop.row();
    let mut line = Vec::from_slice(alloc, b"nix_realise: ")?;
    line.extend_from_slice(row.location)?;
    line.extend_from_slice(b": ")?;
    write_fault(row.name, &mut line)?;
    line.extend_from_slice(b"\n")?;
    Ok(line)
}
