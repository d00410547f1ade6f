//! Reverse edges: from each derivation of a plan to those that wait for it.
ghost use Rattle.std.specs.Prelude.{◌≡◌, ◌<◌, ◌+◌, ◌++◌, ◌^◌, ℕ, [], ◌∷◌, All, IfOk, List, None, length, slice_index, vec_capacity};
ghost use Rattle.std.specs.List.{slice_index_or, sum};
ghost use Rattle.run_states.specs.StateTables.{all_of, awaited_at, listed};
ghost use Rattle.run_states.specs.Steps.{total};
ghost use Rattle.run_states.specs.FollowedEdges.{sizes};
ghost use Rattle.run_states.specs.UserSpans.{AddsUser, HaveRoom, often, pairs, parts, uses};
ghost use Rattle.run_states.specs.Users.{AreUsers, users_of};
ghost use Rattle.run_states.specs.declared.users.Edge.{Edge};
ghost use Rattle.run_states.specs.declared.users.Span.{Span};

use crate::states::inputs_of;
use drv_graph::Plan;
use std::alloc::{AllocError, Global};
use std::marker::Model;

// The edge to a derivation that waits. The index is that of the awaited one among the user's
// inputs, in its text's order; the index after all inputs is that of its nearest earlier twin.
#[derive(Clone, Copy, Debug, PartialEq, Eq)]
pub(crate) struct Edge {
    pub(crate) user: usize,
    pub(crate) index: usize,
}

// Of each derivation, the edges to those that wait for it: those of one stand side by side.
#[derive(Debug, Drop)]
pub(crate) struct Users {
    spans: Vec<Span>,
    edges: Vec<Edge>,
}

// Where edges stand: from one index up to another.
#[derive(Clone, Copy, Debug)]
struct Span {
    start: usize,
    end: usize,
}

impl Model for Users {
    ghost use Rattle.std.specs.Prelude.{List};
    ghost use Rattle.run_states.specs.UserSpans.{HaveRoom, parts};
    ghost use Rattle.run_states.specs.declared.users.Edge.{Edge};

    ghost Value = { List (List Edge) };

    ghost use Rattle.std.specs.Prelude.{length};

    ghost view = { λ u. parts u.spans.items u.edges.items };

    ghost invariant = { λ u. HaveRoom u.spans.items (length u.edges.items) (λ input. 0) };
}

impl Users {
    // The reverse edges of a plan, each of whose derivations has this nearest earlier twin. Costs a
    // few steps for each derivation and each pair of one and what it waits for.
    pub(crate) fn open(
        alloc: Global,
        plan: &Plan,
        twins: &[Option<usize>],
    ) -> Result<Users, AllocError>
        requires count { length twins.now ≡ length plan.now.nodes }
        requires smaller { (d : ℕ) → All (λ t. t < d) (listed (slice_index_or twins.now d None)) }
        ensures ok { IfOk result (λ users.
            AreUsers (λ d. all_of (awaited_at plan.now twins.now d))
            (length plan.now.nodes) users) }
        ensures sizes { IfOk result (λ users. (d : ℕ) → d < length plan.now.nodes
            → sizes users d
            ≡ uses (λ d. all_of (awaited_at plan.now twins.now d))
            (length plan.now.nodes) d) }
        ensures few { IfOk result
            (λ users. total (sizes users) (length plan.now.nodes) < 2 ^ 63) }
    {
        let mut edges = vec![in alloc; Edge { user: 0, index: 0 }; pairs_in(plan, twins)]?;
        let counts = counts_of(alloc, plan, twins)?;
        let mut spans = empty_spans(alloc, &counts)?;
        for d in 0..plan.len() {
            add_user(d, inputs_of(plan, d), twins[d], &mut spans, &mut edges);
        }
        Ok(Users { spans, edges })
    }

    // The edges to those that wait for this derivation.
    pub(crate) fn of(&self, input: usize) -> &[Edge]
        requires { input < length self.now }
        ensures { result.now ≡ users_of self.now input }
    {
        let span = self.spans[input];
        &self.edges[span.start..span.end]
    }
}

// How many pairs there are of a derivation of a plan and one that it waits for, or the greatest
// number where there are more.
fn pairs_in(plan: &Plan, twins: &[Option<usize>]) -> usize
    requires { length twins.now ≡ length plan.now.nodes }
    ensures { result < 2 ^ 63 → result
        ≡ pairs (λ d. all_of (awaited_at plan.now twins.now d))
        (length plan.now.nodes) }
{
    let mut pairs: usize = 0;
    for user in 0..plan.len() {
        pairs = pairs.saturating_add(inputs_of(plan, user).len());
        if twins[user].is_some() {
            pairs = pairs.saturating_add(1);
        }
    }
    pairs
}

// Of each derivation of a plan, how often it is waited for.
fn counts_of(alloc: Global, plan: &Plan, twins: &[Option<usize>]) -> Result<Vec<usize>, AllocError>
    requires count { length twins.now ≡ length plan.now.nodes }
    requires smaller { (d : ℕ) → All (λ t. t < d) (listed (slice_index_or twins.now d None)) }
    requires few { pairs (λ d. all_of (awaited_at plan.now twins.now d))
        (length plan.now.nodes) < 2 ^ 63 }
    ensures size { IfOk result (λ counts. length counts.items ≡ length plan.now.nodes) }
    ensures total { IfOk result (λ counts. sum counts.items
        ≡ pairs (λ d. all_of (awaited_at plan.now twins.now d))
        (length plan.now.nodes)) }
    ensures each { IfOk result (λ counts. (n : ℕ) → n < length plan.now.nodes
        → slice_index counts.items n
        ≡ uses (λ d. all_of (awaited_at plan.now twins.now d))
        (length plan.now.nodes) n) }
{
    let mut counts = vec![in alloc; 0; plan.len()]?;
    for user in 0..plan.len() {
        count_inputs(inputs_of(plan, user), &mut counts);
        count_inputs(twins[user].as_slice(), &mut counts);
    }
    Ok(counts)
}

// Counts each of some inputs, or a twin, once more.
fn count_inputs(inputs: &[usize], counts: &mut [usize])
    requires within { All (λ input. input < length counts.old) inputs.now }
    requires few { sum counts.old + length inputs.now < 2 ^ 64 }
    ensures size { length counts.new ≡ length counts.old }
    ensures total { sum counts.new ≡ sum counts.old + length inputs.now }
    ensures each { (n : ℕ) → n < length counts.old
        → slice_index counts.new n ≡ slice_index counts.old n + often n inputs.now }
{
    for &input in inputs {
        counts[input] += 1;
    }
}

// Empty spans, each with room for this count of edges.
fn empty_spans(alloc: Global, counts: &[usize]) -> Result<Vec<Span>, AllocError>
    requires { sum counts.now < 2 ^ 64 }
    ensures size { IfOk result (λ spans. length spans.items ≡ length counts.now) }
    ensures empty { IfOk result (λ spans. All (λ (span : Span). span.start ≡ span.end)
        spans.items) }
    ensures room { IfOk result (λ spans. HaveRoom spans.items (sum counts.now)
        (λ n. slice_index counts.now n)) }
    ensures exact { IfOk result (λ spans. vec_capacity spans ≡ length counts.now) }
{
    let mut spans = Vec::with_capacity(alloc, counts.len())?;
    let mut slots: usize = 0;
    for &count in counts {
        spans.push_reserved(Span {
            start: slots,
            end: slots,
        });
        slots += count;
    }
    Ok(spans)
}

// Adds the edges of a user with these inputs and, if it has one, this nearest earlier twin.
fn add_user(
    user: usize,
    inputs: &[usize],
    twin: Option<usize>,
    spans: &mut [Span],
    edges: &mut [Edge],
)
    requires within { All (λ input. input < length spans.old) (inputs.now ++ listed twin) }
    requires room { HaveRoom spans.old (length edges.old)
        (λ n. often n (inputs.now ++ listed twin)) }
    ensures spans { length spans.new ≡ length spans.old }
    ensures edges { length edges.new ≡ length edges.old }
    ensures room { (left : ℕ → ℕ)
        → HaveRoom spans.old (length edges.old)
        (λ n. often n (inputs.now ++ listed twin) + left n)
        → HaveRoom spans.new (length edges.new) left }
    ensures adds { AddsUser user (inputs.now ++ listed twin) (length spans.old)
        (users_of (parts spans.old edges.old)) (users_of (parts spans.new edges.new)) }
{
    add_edges(user, inputs, spans, edges);
    if let Some(twin) = twin {
        add_edge(user, inputs.len(), twin, spans, edges);
    }
}

// Adds the edges of a user with these inputs, each at the end of its input's span.
fn add_edges(user: usize, inputs: &[usize], spans: &mut [Span], edges: &mut [Edge])
    requires within { All (λ input. input < length spans.old) inputs.now }
    requires room { HaveRoom spans.old (length edges.old) (λ n. often n inputs.now) }
    ensures spans { length spans.new ≡ length spans.old }
    ensures edges { length edges.new ≡ length edges.old }
    ensures room { (left : ℕ → ℕ)
        → HaveRoom spans.old (length edges.old) (λ n. often n inputs.now + left n)
        → HaveRoom spans.new (length edges.new) left }
    ensures adds { AddsUser user inputs.now (length spans.old)
        (users_of (parts spans.old edges.old)) (users_of (parts spans.new edges.new)) }
{
    for (index, &input) in inputs.iter().enumerate() {
        add_edge(user, index, input, spans, edges);
    }
}

// Adds the edge from a derivation to a user that waits for it, at the end of its span. It stands at
// this index among what the user waits for.
fn add_edge(user: usize, index: usize, awaited: usize, spans: &mut [Span], edges: &mut [Edge])
    requires within { awaited < length spans.old }
    requires room { HaveRoom spans.old (length edges.old) (λ n. often n (awaited ∷ [])) }
    ensures spans { length spans.new ≡ length spans.old }
    ensures edges { length edges.new ≡ length edges.old }
    ensures room { (left : ℕ → ℕ)
        → HaveRoom spans.old (length edges.old) (λ n. often n (awaited ∷ []) + left n)
        → HaveRoom spans.new (length edges.new) left }
    ensures adds { (before : List ℕ) (old : ℕ → List Edge) → length before ≡ index
        → AddsUser user before (length spans.old) old (users_of (parts spans.old edges.old))
        → AddsUser user (before ++ awaited ∷ []) (length spans.old) old
        (users_of (parts spans.new edges.new)) }
{
    let span = spans[awaited];
    edges[span.end] = Edge { user, index };
    spans[awaited] = Span {
        end: span.end + 1,
        ..span
    };
}
