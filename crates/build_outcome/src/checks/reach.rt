//! The numbers to which links lead.
ghost use Rattle.std.specs.Prelude.{◌≡◌, ◌<◌, All, IfOk, OnOk, false, length, map};
ghost use Rattle.build_outcome.specs.private.Reaching.{AreReached, MarksAll};
ghost use Rattle.build_outcome.specs.private.Walking.{AreInner};

use std::alloc::{AllocError, Global};

// Whether links lead from one number to each. Costs a step for each link.
pub(crate) fn reached_from(
    alloc: Global,
    links: &[Vec<usize>],
    start: usize,
) -> Result<Vec<bool>, AllocError>
    requires inner { AreInner links.now }
    requires within { start < length links.now }
    ensures { IfOk result (λ marks. AreReached links.now start marks.items) }
{
    let mut marks = no_marks(alloc, links)?;
    mark_from(alloc, links, marks.as_mut_slice(), start)?;
    Ok(marks)
}

// Marks the numbers to which links lead from one, where none is marked.
fn mark_from(
    alloc: Global,
    links: &[Vec<usize>],
    marks: &mut [bool],
    start: usize,
) -> Result<(), AllocError>
    requires inner { AreInner links.now }
    requires within { start < length links.now }
    requires none { marks.old ≡ map (λ _. false) links.now }
    ensures { OnOk result (AreReached links.now start marks.new) }
{
    marks[start] = true;
    let mut left = vec![in alloc; start]?;
    while let Some(top) = left.pop() {
        mark_all(&links[top], marks, &mut left)?;
    }
    Ok(())
}

// A mark for each number, and none of them set.
fn no_marks(alloc: Global, links: &[Vec<usize>]) -> Result<Vec<bool>, AllocError>
    ensures { IfOk result (λ marks. marks.items ≡ map (λ _. false) links.now) }
{
    links.iter().map(|_| false).collect(alloc)
}

// Marks these numbers, and adds those that weren't marked to what is left.
fn mark_all(numbers: &[usize], marks: &mut [bool], left: &mut Vec<usize>) -> Result<(), AllocError>
    requires { All (λ n. n < length marks.old) numbers.now }
    ensures { OnOk result
        (MarksAll numbers.now marks.old marks.new left.old.items left.new.items) }
{
    for number in numbers {
        if !marks[*number] {
            marks[*number] = true;
            left.push(*number)?;
        }
    }
    Ok(())
}
