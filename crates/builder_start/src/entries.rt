//! The files of graphs, where attributes are entries of the environment.
ghost use Rattle.std.specs.Prelude.{◌≡◌, ◌∷◌, [], List, ℕ, All, IfErr, IfOk, IsTrue, OnOk, Some, map, string_bytes};
ghost use Rattle.std.specs.List.{AllZip, list_any};
ghost use Rattle.nix_names.specs.Names.{same_bytes};
ghost use Rattle.structured_attrs.specs.Registrations.{registrations_text};
ghost use Rattle.build_outcome.specs.declared.reason.Reason.TheVariants.{BadGraph};
ghost use Rattle.builder_start.specs.Asked.{graphs_of, tokens_or_none};
ghost use Rattle.builder_start.specs.Entries.{AreFiles, AskForBadGraphs, IsFileOf, IsGoodPair, is_file_name, last_pairs, root_of};
ghost use Rattle.builder_start.specs.Graphs.{IsGraph};
ghost use Rattle.builder_start.specs.private.Files.{IsAdded};
ghost use Rattle.builder_start.specs.private.Shown.{IsWhy, shown_pair};

use crate::asked::graphs_of;
use crate::pairs::{Pair, is_file_name, is_named, pairs_of};
use crate::rows::Rows;
use crate::starts::graph_from;
use build_outcome::{Job, PreparedFile, Reason, WholeInput, tokens_of};
use std::alloc::{AllocError, Global};
use std::{slice, str};
use structured_attrs::registration_text;
use valid_table::Registration;

// The files that a job asks for.
pub(crate) fn files_asked(
    alloc: Global,
    job: &Job,
    rows: &Rows,
) -> Result<Vec<PreparedFile>, Reason>
    ensures ok { IfOk result (λ files. AreFiles rows.now job.now.whole_inputs.items
        (tokens_or_none (graphs_of job.now)) files.items) }
    ensures bad { IfErr result (IsWhy BadGraph (AskForBadGraphs rows.now
        job.now.whole_inputs.items (tokens_or_none (graphs_of job.now)))) }
{
    match graphs_of(job) {
        Some(text) => {
            let tokens = tokens_of(alloc, text)?;
            files_of_tokens(alloc, rows, &job.whole_inputs, &tokens)
        }
        None => files_of_tokens(alloc, rows, &job.whole_inputs, &[]),
    }
}

// The files that tokens ask for.
fn files_of_tokens(
    alloc: Global,
    rows: &Rows,
    whole: &[WholeInput],
    tokens: &[&[u8]],
) -> Result<Vec<PreparedFile>, Reason>
    ensures ok { IfOk result
        (λ files. AreFiles rows.now whole.now (map (λ t. t.now) tokens.now) files.items) }
    ensures bad { IfErr result
        (IsWhy BadGraph (AskForBadGraphs rows.now whole.now (map (λ t. t.now) tokens.now))) }
{
    match pairs_of(alloc, tokens)? {
        Some(pairs) => files_of(alloc, rows, whole, &pairs),
        None => Err(Reason::BadGraph),
    }
}

// The files that pairs ask for: of each name that of the last pair.
fn files_of(
    alloc: Global,
    rows: &Rows,
    whole: &[WholeInput],
    pairs: &[Pair<'_>],
) -> Result<Vec<PreparedFile>, Reason>
    ensures good { IfOk result
        (λ _. All (IsGoodPair rows.now whole.now) (map shown_pair pairs.now)) }
    ensures files { IfOk result (λ files. AllZip (IsFileOf rows.now whole.now)
        (last_pairs (map shown_pair pairs.now)) files.items) }
    ensures bad { IfErr result
        (IsWhy BadGraph (All (IsGoodPair rows.now whole.now) (map shown_pair pairs.now) → ⊥)) }
{
    let mut files = Vec::new(alloc);
    for i in 0..pairs.len() {
        let pair = &pairs[i];
        let graph = graph_of(alloc, rows, whole, pair)?;
        add_last(alloc, pair, &pairs[i + 1..], &graph, &mut files)?;
    }
    Ok(files)
}

// Adds the file of a pair, where no pair after it has its name.
fn add_last(
    alloc: Global,
    pair: &Pair<'_>,
    after: &[Pair<'_>],
    graph: &[Registration],
    files: &mut Vec<PreparedFile>,
) -> Result<(), AllocError>
    requires { IsTrue (is_file_name pair.now.name.now) }
    ensures { OnOk result (IsAdded
        (list_any (λ other. same_bytes other.0 pair.now.name.now) (map shown_pair after.now))
        pair.now graph.now files.old.items files.new.items) }
{
    if is_named(after, pair.name) {
        return Ok(());
    }
    files.push(file_of(alloc, pair.name, graph)?)?;
    Ok(())
}

// The records of the graph of the path that a pair's text names.
fn graph_of(
    alloc: Global,
    rows: &Rows,
    whole: &[WholeInput],
    pair: &Pair<'_>,
) -> Result<Vec<Registration>, Reason>
    ensures good { IfOk result (λ _. IsGoodPair rows.now whole.now (shown_pair pair.now)) }
    ensures graph { IfOk result (λ graph. (root : List ℕ)
        × (root_of rows.now pair.now.text.now ≡ Some root)
        × IsGraph rows.now whole.now (root ∷ []) graph.items) }
    ensures bad { IfErr result
        (IsWhy BadGraph (IsGoodPair rows.now whole.now (shown_pair pair.now) → ⊥)) }
{
    if !is_file_name(pair.name) {
        return Err(Reason::BadGraph);
    }
    let Some(root) = rows.root_of(pair.text) else {
        return Err(Reason::BadGraph);
    };
    graph_from(alloc, rows, whole, slice::from_ref(root))
}

// The file with a name that has the text of a graph.
fn file_of(alloc: Global, name: &[u8], graph: &[Registration]) -> Result<PreparedFile, AllocError>
    requires { IsTrue (is_file_name name.now) }
    ensures name { IfOk result (λ file. string_bytes file.name ≡ name.now) }
    ensures contents { IfOk result
        (λ file. file.contents.items ≡ registrations_text graph.now) }
{
    let Ok(name) = str::from_utf8(name) else {
        unreachable!();
    };
    Ok(PreparedFile {
        name: String::from_str(alloc, name)?,
        contents: registration_text(alloc, graph)?,
    })
}
