//! The edges of a picture: from each derivation to the inputs that it waits for.
ghost use Rattle.std.specs.Prelude.{◌≡◌, ◌<◌, ◌++◌, OnOk, Vec, codes, flat_map, length, map, ℕ};
ghost use Rattle.std.specs.declared.alloc.Global.{Global};
ghost use Rattle.nix_drv.specs.Parts.{bytes_of, input_of};
ghost use Rattle.run_report.specs.Listing.{AreWithin};
ghost use Rattle.run_report.specs.declared.report.listing.Listed.{Listed};
ghost use Rattle.run_report.specs.Forecasts.{foretold};
ghost use Rattle.run_report.specs.Pictures.{are_out_alone, awaits_inputs, edge_line, edges_at, label_of, listed_names, quoted};

use crate::forecast::Forecast;
use crate::report::listing::Listed;
use drv_graph::Plan;
use nix_drv::Input;
use run_states::{Refusal, State};
use std::alloc::AllocError;

// Adds the edges of some derivations.
pub(crate) fn write_all_edges(
    forecast: &Forecast,
    listed: &[Listed<'_>],
    out: &mut Vec<u8>,
) -> Result<(), AllocError>
    requires { AreWithin (length forecast.now.run.graph.nodes) listed.now }
    ensures { OnOk result (out.new.items ≡ out.old.items
        ++ flat_map (λ (l : Listed). edges_at forecast.now.run.graph.nodes
        (foretold forecast.now.run forecast.now.entries) l.number) listed.now) }
{
    'listed: for one in listed {
        write_edges_of(forecast.plan(), one.number, forecast.state(one.number), out)?;
    }
    Ok(())
}

// Adds the edges of a derivation, if it waits for its inputs.
fn write_edges_of(
    plan: &Plan,
    number: usize,
    state: State,
    out: &mut Vec<u8>,
) -> Result<(), AllocError>
    requires { number < length plan.now.nodes }
    ensures { OnOk result (out.new.items ≡ out.old.items
        ++ edges_at plan.now.nodes (λ _. state) number) }
{
    let user = plan.path(number);
    let drv = plan.drv(number);
    if awaits_inputs(state) {
        write_edges(user.text(), drv.inputs(), out)
    } else {
        Ok(())
    }
}

// Whether a derivation with this foretold state waits for its inputs.
fn awaits_inputs(state: State) -> bool
    ensures { result ≡ awaits_inputs state }
{
    matches!(
        state,
        State::Done | State::Refused(Refusal::InputNotRealised(_))
    )
}

// Adds the edges from a derivation to some inputs.
fn write_edges(user: &[u8], inputs: &[Input], out: &mut Vec<u8>) -> Result<(), AllocError>
    ensures { OnOk result (out.new.items ≡ out.old.items
        ++ flat_map (λ i. edge_line user.now (input_of i)) inputs.now) }
{
    'inputs: for input in inputs {
        write_edge(user, input, out)?;
    }
    Ok(())
}

// Adds the edge from a derivation to an input.
fn write_edge(user: &[u8], input: &Input, out: &mut Vec<u8>) -> Result<(), AllocError>
    ensures { OnOk result (out.new.items
        ≡ out.old.items ++ edge_line user.now (input_of input.now)) }
{
    write_arrow(user, &input.path, out)?;
    write_label(&input.names, out)?;
    out.extend_from_slice(b";\n")
}

// Adds two paths and an arrow between them.
fn write_arrow(from: &[u8], to: &[u8], out: &mut Vec<u8>) -> Result<(), AllocError>
    ensures { OnOk result (out.new.items
        ≡ out.old.items ++ codes "  " ++ quoted from.now ++ codes " -> " ++ quoted to.now) }
{
    out.extend_from_slice(b"  ")?;
    write_quoted(from, out)?;
    out.extend_from_slice(b" -> ")?;
    write_quoted(to, out)
}

// Adds the label of an edge: the outputs that are used, where they aren't just `out`.
fn write_label(names: &[Vec<u8>], out: &mut Vec<u8>) -> Result<(), AllocError>
    ensures { OnOk result (out.new.items ≡ out.old.items ++ label_of (map bytes_of names.now)) }
{
    if are_out_alone(names) {
        return Ok(());
    }
    out.extend_from_slice(b" [label=")?;
    write_names(names, out)?;
    out.extend_from_slice(b"]")
}

// Whether some names are just that of the output `out`.
fn are_out_alone(names: &[Vec<u8>]) -> bool
    ensures { result ≡ are_out_alone (map bytes_of names.now) }
{
    match names {
        [name] => name.as_slice() == b"out".as_slice(),
        _ => false,
    }
}

// Adds names in quotes, with a comma between each two.
fn write_names(names: &[Vec<u8>], out: &mut Vec<u8>) -> Result<(), AllocError>
    ensures { OnOk result (out.new.items
        ≡ out.old.items ++ quoted (listed_names (map bytes_of names.now))) }
{
    out.extend_from_slice(b"\"")?;
    write_between(names, out)?;
    out.extend_from_slice(b"\"")
}

// Adds names with a comma between each two.
fn write_between(names: &[Vec<u8>], out: &mut Vec<u8>) -> Result<(), AllocError>
    ensures { OnOk result (out.new.items ≡ out.old.items ++ listed_names (map bytes_of names.now)) }
{
    match names.split_first() {
        Some((first, others)) => write_listed(first, others, out),
        None => Ok(()),
    }
}

// Adds a name, and the others after it, each with a comma before it.
fn write_listed(first: &[u8], others: &[Vec<u8>], out: &mut Vec<u8>) -> Result<(), AllocError>
    ensures { OnOk result (out.new.items ≡ out.old.items ++ first.now
        ++ flat_map (λ (v : Vec ℕ Global). codes ", " ++ v.items) others.now) }
{
    out.extend_from_slice(first)?;
    'others: for name in others {
        write_other(name, out)?;
    }
    Ok(())
}

// Adds a comma and a name.
fn write_other(name: &[u8], out: &mut Vec<u8>) -> Result<(), AllocError>
    ensures { OnOk result (out.new.items ≡ out.old.items ++ codes ", " ++ name.now) }
{
    out.extend_from_slice(b", ")?;
    out.extend_from_slice(name)
}

// Adds a text in quotes.
pub(crate) fn write_quoted(text: &[u8], out: &mut Vec<u8>) -> Result<(), AllocError>
    ensures { OnOk result (out.new.items ≡ out.old.items ++ quoted text.now) }
{
    out.extend_from_slice(b"\"")?;
    out.extend_from_slice(text)?;
    out.extend_from_slice(b"\"")
}
