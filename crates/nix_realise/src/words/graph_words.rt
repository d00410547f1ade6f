//! The words of faults of derivations in a plan.
ghost use Rattle.std.specs.Prelude.{◌≡◌, ◌++◌, ◌∷◌, [], OnOk};
ghost use Rattle.nix_drv.specs.Strings.{string_text};
ghost use Rattle.nix_realise.specs.GraphWords.{node_fault_words, output_fault_words, with_values};

use crate::words::fault_words::write_drv_fault;
use drv_graph::{NodeFault, OutputFault};
use nix_drv::write_string;
use sched_core::{write_name, write_with_string, write_with_value};
use std::alloc::AllocError;

/// Adds the words of a fault of one derivation.
pub fn write_node_fault(fault: &NodeFault, out: &mut Vec<u8>) -> Result<(), AllocError>
    ensures { OnOk result (out.new.items ≡ out.old.items ++ node_fault_words fault.now) }
{
    match fault {
        NodeFault::Unreadable => write_name(b"Unreadable", out),
        NodeFault::TooMany => write_name(b"TooMany", out),
        NodeFault::Text(fault) => write_drv_fault(fault, out),
        NodeFault::Cycle => write_name(b"Cycle", out),
        NodeFault::Outputs(fault) => write_output_fault(fault, out),
        NodeFault::OutputClash => write_name(b"OutputClash", out),
    }
}

// Adds the words of a fault of a derivation's outputs: a path without quotes, an output's name as
// the derivations' language spells it.
fn write_output_fault(fault: &OutputFault, out: &mut Vec<u8>) -> Result<(), AllocError>
    ensures { OnOk result (out.new.items ≡ out.old.items ++ output_fault_words fault.now) }
{
    match fault {
        OutputFault::NoMemory => write_name(b"NoMemory", out),
        OutputFault::MixedOutputs => write_name(b"MixedOutputs", out),
        OutputFault::UnknownMethod(name) => write_with_string(b"UnknownMethod", name, out),
        OutputFault::BadName => write_name(b"BadName", out),
        OutputFault::UnknownOutput(input, name) => {
            write_path_and_string(b"UnknownOutput", input.text(), name, out)
        }
        OutputFault::OutputMismatch(name, expected) => {
            write_string_and_path(b"OutputMismatch", name, expected.text(), out)
        }
        OutputFault::EnvMismatch(name) => write_with_string(b"EnvMismatch", name, out),
    }
}

// Adds a name, and in parentheses a path and a text as the derivations' language spells it.
fn write_path_and_string(
    name: &[u8],
    path: &[u8],
    text: &[u8],
    out: &mut Vec<u8>,
) -> Result<(), AllocError>
    ensures { OnOk result
        (out.new.items ≡ out.old.items ++ with_values name.now path.now (string_text text.now)) }
{
    open(name, out)?;
    out.extend_from_slice(path)?;
    out.extend_from_slice(b", ")?;
    write_spelled(text, out)?;
    out.extend_from_slice(b")")
}

// Adds a name, and in parentheses a text as the derivations' language spells it and a path.
fn write_string_and_path(
    name: &[u8],
    text: &[u8],
    path: &[u8],
    out: &mut Vec<u8>,
) -> Result<(), AllocError>
    ensures { OnOk result
        (out.new.items ≡ out.old.items ++ with_values name.now (string_text text.now) path.now) }
{
    open(name, out)?;
    write_spelled(text, out)?;
    out.extend_from_slice(b", ")?;
    out.extend_from_slice(path)?;
    out.extend_from_slice(b")")
}

// Adds a name and the opening parenthesis after it.
fn open(name: &[u8], out: &mut Vec<u8>) -> Result<(), AllocError>
    ensures { OnOk result (out.new.items ≡ out.old.items ++ name.now ++ 40 ∷ []) }
{
    out.extend_from_slice(name)?;
    out.extend_from_slice(b"(")
}

// Adds a text as the derivations' language spells it.
fn write_spelled(text: &[u8], out: &mut Vec<u8>) -> Result<(), AllocError>
    ensures { OnOk result (out.new.items ≡ out.old.items ++ string_text text.now) }
{
    write_string(out, text)
}
