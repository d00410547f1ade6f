//! The words for why a derivation was not built: a name, and its value in parentheses.
//!
//! | Module | What is in it |
//! |---|---|
//! | `named` | a name and its value |
ghost use Rattle.std.specs.Prelude.{◌≡◌, ◌++◌, OnOk, codes};
ghost use Rattle.std.specs.Option.{option_map};
ghost use Rattle.drv_graph.specs.Nodes.{paths_of};
ghost use Rattle.drv_graph.specs.PlanNodes.{output_paths_of};
ghost use Rattle.run_report.specs.Words.{output_words, reason_words, refusal_words, spelled_features, text_or_number, with_text, with_value};

pub(crate) mod named;

use crate::words::named::{
    write_name, write_number, write_with_number, write_with_string, write_with_value,
};
use build_outcome::Reason;
use drv_graph::Plan;
use itoa::Buffer;
use nix_drv::{Derivation, write_string};
use nix_names::StorePath;
use run_states::{Refusal, required_feature};
use std::alloc::AllocError;

// Adds why the building of a derivation failed. Where no path is named, the index of the one to
// which an output may not refer is told.
pub(crate) fn write_reason(
    drv: &Derivation,
    named: Option<&StorePath>,
    reason: Reason,
    out: &mut Vec<u8>,
) -> Result<(), AllocError>
    ensures { OnOk result (out.new.items ≡ out.old.items
        ++ reason_words drv.now (option_map (λ path. path.now) named.entry) reason) }
{
    match reason {
        Reason::ExitStatus(status) => {
            write_with_value(b"ExitStatus", Buffer::new().format(status).as_bytes(), out)
        }
        Reason::NoStart => write_name(b"NoStart", out),
        Reason::MissingOutput(output) => write_with_output(b"MissingOutput", drv, output, out),
        Reason::NotFlatFile => write_name(b"NotFlatFile", out),
        Reason::HashMismatch => write_name(b"HashMismatch", out),
        Reason::OutputCycle => write_name(b"OutputCycle", out),
        Reason::TooLarge => write_name(b"TooLarge", out),
        Reason::ReadFault => write_name(b"ReadFault", out),
        Reason::OutOfMemory => write_name(b"OutOfMemory", out),
        Reason::Killed => write_name(b"Killed", out),
        Reason::BadMode(output) => write_with_output(b"BadMode", drv, output, out),
        Reason::NotAllowed(output, index) => write_not_allowed(drv, output, named, index, out),
        Reason::BadSpecifier(output) => write_with_output(b"BadSpecifier", drv, output, out),
        Reason::BadAttributes => write_name(b"BadAttributes", out),
        Reason::BadGraph => write_name(b"BadGraph", out),
        Reason::UnknownNar(index) => write_unknown_nar(named, index, out),
        Reason::PastMaxSize(output) => write_with_output(b"PastMaxSize", drv, output, out),
        Reason::PastMaxClosureSize(output) => {
            write_with_output(b"PastMaxClosureSize", drv, output, out)
        }
    }
}

/// Adds why a derivation of a plan is not begun: the cause's name, and its value in parentheses. An
/// error where memory is refused, and no other; a part may be written then. For a missing feature
/// takes memory for it, and for structured attributes, which are read again.
pub fn write_refusal(
    plan: &Plan,
    drv: &Derivation,
    cause: Refusal,
    out: &mut Vec<u8>,
) -> Result<(), AllocError>
    ensures { OnOk result (out.new.items ≡ out.old.items
        ++ refusal_words plan.now.nodes drv.now cause) }
{
    match cause {
        Refusal::WrongSystem => write_name(b"WrongSystem", out),
        Refusal::Unsupported => write_name(b"Unsupported", out),
        Refusal::MissingFeature(feature) => write_missing_feature(drv, feature, out),
        Refusal::MissingSource(source) => write_missing_source(drv, source, out),
        Refusal::InputNotRealised(input) => write_failed_input(plan, input, out),
        Refusal::PartlyValid(output) => write_valid_output(drv, output, out),
    }
}

// Adds a name, and in parentheses the name of an output.
fn write_with_output(
    name: &[u8],
    drv: &Derivation,
    output: usize,
    out: &mut Vec<u8>,
) -> Result<(), AllocError>
    ensures { OnOk result (out.new.items ≡ out.old.items
        ++ with_value name.now (output_words drv.now output)) }
{
    out.extend_from_slice(name)?;
    out.extend_from_slice(b"(")?;
    write_output(drv, output, out)?;
    out.extend_from_slice(b")")
}

// Adds that an output refers to a path to which it may not.
fn write_not_allowed(
    drv: &Derivation,
    output: usize,
    named: Option<&StorePath>,
    index: usize,
    out: &mut Vec<u8>,
) -> Result<(), AllocError>
    ensures { OnOk result (out.new.items ≡ out.old.items ++ with_value (codes "NotAllowed")
        (output_words drv.now output ++ codes ","
        ++ text_or_number (option_map (λ path. path.now) named.entry) index)) }
{
    out.extend_from_slice(b"NotAllowed")?;
    out.extend_from_slice(b"(")?;
    write_reference(drv, output, named, index, out)?;
    out.extend_from_slice(b")")
}

// Adds that the archive of a path is not known.
fn write_unknown_nar(
    named: Option<&StorePath>,
    index: usize,
    out: &mut Vec<u8>,
) -> Result<(), AllocError>
    ensures { OnOk result (out.new.items ≡ out.old.items ++ with_value (codes "UnknownNar")
        (text_or_number (option_map (λ path. path.now) named.entry) index)) }
{
    out.extend_from_slice(b"UnknownNar")?;
    out.extend_from_slice(b"(")?;
    write_path_or_index(named, index, out)?;
    out.extend_from_slice(b")")
}

// Adds the name of an output that refers to a path, a comma, and that path, or its index where no
// path is named.
fn write_reference(
    drv: &Derivation,
    output: usize,
    named: Option<&StorePath>,
    index: usize,
    out: &mut Vec<u8>,
) -> Result<(), AllocError>
    ensures { OnOk result (out.new.items ≡ out.old.items ++ output_words drv.now output
        ++ codes "," ++ text_or_number (option_map (λ path. path.now) named.entry) index) }
{
    write_output(drv, output, out)?;
    out.extend_from_slice(b",")?;
    write_path_or_index(named, index, out)
}

// Adds the name of an output as the derivation's text spells it.
fn write_output(drv: &Derivation, output: usize, out: &mut Vec<u8>) -> Result<(), AllocError>
    ensures { OnOk result (out.new.items ≡ out.old.items ++ output_words drv.now output) }
{
    match drv.outputs().get(output) {
        Some(found) => write_string(out, &found.name),
        None => write_number(output, out),
    }
}

// Adds a path, or its index where there is none.
fn write_path_or_index(
    named: Option<&StorePath>,
    index: usize,
    out: &mut Vec<u8>,
) -> Result<(), AllocError>
    ensures { OnOk result (out.new.items ≡ out.old.items
        ++ text_or_number (option_map (λ path. path.now) named.entry) index) }
{
    match named {
        Some(path) => out.extend_from_slice(path.text()),
        None => write_number(index, out),
    }
}

// Adds that a feature is missing: the feature as the derivations' language spells it.
fn write_missing_feature(
    drv: &Derivation,
    feature: usize,
    out: &mut Vec<u8>,
) -> Result<(), AllocError>
    ensures { OnOk result (out.new.items ≡ out.old.items
        ++ with_text (codes "MissingFeature") (spelled_features drv.now) feature) }
{
    let alloc = *out.allocator();
    match required_feature(alloc, drv, feature)? {
        Some(found) => write_with_string(b"MissingFeature", &found, out),
        None => write_with_number(b"MissingFeature", feature, out),
    }
}

// Adds that a source is missing: its path.
fn write_missing_source(
    drv: &Derivation,
    source: usize,
    out: &mut Vec<u8>,
) -> Result<(), AllocError>
    ensures { OnOk result (out.new.items ≡ out.old.items
        ++ with_text (codes "MissingSource") drv.now.sources source) }
{
    match drv.sources().get(source) {
        Some(path) => write_with_value(b"MissingSource", path, out),
        None => write_with_number(b"MissingSource", source, out),
    }
}

// Adds that an input failed or is refused: its path.
fn write_failed_input(plan: &Plan, input: usize, out: &mut Vec<u8>) -> Result<(), AllocError>
    ensures { OnOk result (out.new.items ≡ out.old.items
        ++ with_text (codes "InputNotRealised") (paths_of plan.now.nodes) input) }
{
    if input < plan.len() {
        write_with_value(b"InputNotRealised", plan.path(input).text(), out)
    } else {
        write_with_number(b"InputNotRealised", input, out)
    }
}

// Adds that an output is valid while another isn't: its path.
fn write_valid_output(drv: &Derivation, output: usize, out: &mut Vec<u8>) -> Result<(), AllocError>
    ensures { OnOk result (out.new.items ≡ out.old.items
        ++ with_text (codes "PartlyValid") (output_paths_of drv.now) output) }
{
    match drv.outputs().get(output) {
        Some(found) => write_with_value(b"PartlyValid", &found.path, out),
        None => write_with_number(b"PartlyValid", output, out),
    }
}
