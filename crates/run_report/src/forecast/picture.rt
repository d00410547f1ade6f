//! The picture of a forecast, in Graphviz's language.
ghost use Rattle.std.specs.Prelude.{◌≡◌, ◌<◌, ◌++◌, IfOk, OnOk, codes, flat_map, length};
ghost use Rattle.run_report.specs.Listing.{AreWithin, IsMarked};
ghost use Rattle.run_report.specs.declared.report.listing.Listed.{Listed};
ghost use Rattle.run_report.specs.Forecasts.{foretold};
ghost use Rattle.run_report.specs.private.Marks.{AreRoots, is_marked};
ghost use Rattle.run_report.specs.Pictures.{IsDrawing, border_of, edges_at, fill_of, node_at, node_line};

use crate::forecast::Forecast;
use crate::forecast::edges::{write_all_edges, write_quoted};
use crate::report::listing::{Listed, marked_by_path};
use drv_graph::Plan;
use nix_names::StorePath;
use run_states::{State, mark};
use std::alloc::{AllocError, Global};

// The picture of a forecast of which these derivations are wanted.
pub(crate) fn picture_of(
    alloc: Global,
    forecast: &Forecast,
    wanted: &[bool],
) -> Result<Vec<u8>, AllocError>
    requires { length wanted.now ≡ length forecast.now.run.graph.nodes }
    ensures { IfOk result (λ text. IsDrawing forecast.now.run.graph
        (IsMarked wanted.now (length forecast.now.run.graph.nodes))
        (foretold forecast.now.run forecast.now.entries) text.items) }
{
    let listed = marked_by_path(alloc, forecast.plan(), wanted)?;
    let roots = root_marks(alloc, forecast.plan())?;
    let mut text = Vec::new(alloc);
    write_picture(forecast, &listed, &roots, &mut text)?;
    Ok(text)
}

// Of each derivation, whether it is a root.
fn root_marks(alloc: Global, plan: &Plan) -> Result<Vec<bool>, AllocError>
    ensures { IfOk result (λ marks. AreRoots plan.now marks.items) }
{
    let mut marks = vec![in alloc; false; plan.len()]?;
    mark(&mut marks, plan.roots());
    Ok(marks)
}

// Adds the picture of some derivations, of which the roots are marked.
fn write_picture(
    forecast: &Forecast,
    listed: &[Listed<'_>],
    roots: &[bool],
    out: &mut Vec<u8>,
) -> Result<(), AllocError>
    requires roots { length roots.now ≡ length forecast.now.run.graph.nodes }
    requires within { AreWithin (length forecast.now.run.graph.nodes) listed.now }
    ensures { OnOk result (out.new.items ≡ out.old.items ++ codes "digraph plan {\n"
        ++ flat_map (λ (l : Listed). node_at forecast.now.run.graph.nodes
        (foretold forecast.now.run forecast.now.entries) (is_marked roots.now) l.number) listed.now
        ++ flat_map (λ (l : Listed). edges_at forecast.now.run.graph.nodes
        (foretold forecast.now.run forecast.now.entries) l.number) listed.now ++ codes "}\n") }
{
    out.extend_from_slice(b"digraph plan {\n")?;
    write_nodes(forecast, listed, roots, out)?;
    write_all_edges(forecast, listed, out)?;
    out.extend_from_slice(b"}\n")
}

// Adds the nodes of some derivations, of which the roots are marked.
fn write_nodes(
    forecast: &Forecast,
    listed: &[Listed<'_>],
    roots: &[bool],
    out: &mut Vec<u8>,
) -> Result<(), AllocError>
    requires roots { length roots.now ≡ length forecast.now.run.graph.nodes }
    requires within { AreWithin (length forecast.now.run.graph.nodes) listed.now }
    ensures { OnOk result (out.new.items ≡ out.old.items
        ++ flat_map (λ (l : Listed). node_at forecast.now.run.graph.nodes
        (foretold forecast.now.run forecast.now.entries) (is_marked roots.now) l.number)
        listed.now) }
{
    'listed: for one in listed {
        let state = forecast.state(one.number);
        let is_root = is_marked(roots, one.number);
        write_node(forecast.plan(), one.number, state, is_root, out)?;
    }
    Ok(())
}

// Whether the derivation with this number is marked.
fn is_marked(marks: &[bool], number: usize) -> bool
    requires { number < length marks.now }
    ensures { result ≡ is_marked marks.now number }
{
    marks[number]
}

// Adds the node of a derivation of a plan.
fn write_node(
    plan: &Plan,
    number: usize,
    state: State,
    is_root: bool,
    out: &mut Vec<u8>,
) -> Result<(), AllocError>
    requires { number < length plan.now.nodes }
    ensures { OnOk result (out.new.items ≡ out.old.items
        ++ node_at plan.now.nodes (λ _. state) (λ _. is_root) number) }
{
    let path = plan.path(number);
    write_node_line(path, state, is_root, out)
}

// Adds the node of a derivation, by its path.
fn write_node_line(
    path: &StorePath,
    state: State,
    is_root: bool,
    out: &mut Vec<u8>,
) -> Result<(), AllocError>
    ensures { OnOk result (out.new.items
        ≡ out.old.items ++ node_line path.now state is_root) }
{
    out.extend_from_slice(b"  ")?;
    write_quoted(path.text(), out)?;
    out.extend_from_slice(b" [label=")?;
    write_quoted(path.name(), out)?;
    write_style(state, is_root, out)
}

// Adds how a node is drawn.
fn write_style(state: State, is_root: bool, out: &mut Vec<u8>) -> Result<(), AllocError>
    ensures { OnOk result (out.new.items ≡ out.old.items ++ codes ", style=filled, fillcolor="
        ++ fill_of state ++ border_of is_root ++ codes "];\n") }
{
    out.extend_from_slice(b", style=filled, fillcolor=")?;
    out.extend_from_slice(fill(state))?;
    out.extend_from_slice(border(is_root))?;
    out.extend_from_slice(b"];\n")
}

// The colour of a node.
fn fill(state: State) -> &'static [u8]
    ensures { result.now ≡ fill_of state }
{
    match state {
        State::Done => b"palegreen",
        State::Reused => b"lightgrey",
        _ => b"lightcoral",
    }
}

// The border of a node.
fn border(is_root: bool) -> &'static [u8]
    ensures { result.now ≡ border_of is_root }
{
    if is_root { b", peripheries=2" } else { b"" }
}
