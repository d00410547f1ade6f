//! A walk along links, depth first, for a round among numbers.
ghost use Rattle.std.specs.Prelude.{◌≡◌, ◌<◌, ◌≤◌, [], IfOk, length, map};
ghost use Rattle.build_outcome.specs.private.Walking.{AreInner, IsAfter, IsWalkStep, IsWalk, MayTell, TellsRound, fresh};

use std::alloc::{AllocError, Global};

// Whether a number is still to be met, is on the trail, or was left.
#[derive(Clone, Copy)]
enum Mark {
    New,
    Open,
    Closed,
}

// What a walk knows of a number: how many of its links, from the first on, are left to be passed.
#[derive(Clone, Copy)]
struct WalkNode {
    mark: Mark,
    left: usize,
}

// What comes next on a walk: a number is entered or left, a link is passed, or it leads back.
enum WalkStep {
    Enter(usize),
    Leave,
    Pass,
    Return,
}

// Whether two different numbers lead to each other by links.
pub(crate) fn has_round(alloc: Global, links: &[Vec<usize>]) -> Result<bool, AllocError>
    requires { AreInner links.now }
    ensures { IfOk result (TellsRound links.now) }
{
    let mut nodes = new_nodes(alloc, links)?;
    for start in 0..links.len() {
        if walk_from(alloc, links, nodes.as_mut_slice(), start)? {
            return Ok(true);
        }
    }
    Ok(false)
}

// What is known of each number before a walk.
fn new_nodes(alloc: Global, links: &[Vec<usize>]) -> Result<Vec<WalkNode>, AllocError>
    ensures { IfOk result (λ nodes. nodes.items ≡ map fresh links.now) }
{
    links.iter().map(|own| fresh(own)).collect(alloc)
}

// What is known of a number with these links before a walk.
fn fresh(own: &Vec<usize>) -> WalkNode
    ensures { result ≡ fresh own.now }
{
    WalkNode {
        mark: Mark::New,
        left: own.len(),
    }
}

// Walks from a number, if it wasn't met. Whether a round is found.
fn walk_from(
    alloc: Global,
    links: &[Vec<usize>],
    nodes: &mut [WalkNode],
    start: usize,
) -> Result<bool, AllocError>
    requires inner { AreInner links.now }
    requires walk { IsWalk links.now nodes.old [] }
    requires within { start < length links.now }
    ensures { IfOk result (MayTell links.now nodes.old nodes.new start) }
{
    if !matches!(nodes[start].mark, Mark::New) {
        return Ok(false);
    }
    nodes[start].mark = Mark::Open;
    let mut trail = vec![in alloc; start]?;
    while let Some(&top) = trail.last() {
        match advance(links, nodes, top) {
            WalkStep::Enter(to) => trail.push(to)?,
            WalkStep::Leave => {
                trail.pop();
            }
            WalkStep::Pass => {}
            WalkStep::Return => return Ok(true),
        }
    }
    Ok(false)
}

// One step of a walk at the last number of its trail.
fn advance(links: &[Vec<usize>], nodes: &mut [WalkNode], top: usize) -> WalkStep
    requires inner { AreInner links.now }
    requires after { IsAfter links.now nodes.old }
    requires within { top < length links.now }
    ensures { IsWalkStep links.now nodes.old nodes.new top result }
{
    let left = nodes[top].left;
    if left == 0 {
        nodes[top].mark = Mark::Closed;
        return WalkStep::Leave;
    }
    let to = links[top][left - 1];
    if to != top {
        match nodes[to].mark {
            Mark::New => {
                nodes[to].mark = Mark::Open;
                return WalkStep::Enter(to);
            }
            Mark::Open => return WalkStep::Return,
            Mark::Closed => {}
        }
    }
    nodes[top].left = left - 1;
    WalkStep::Pass
}
