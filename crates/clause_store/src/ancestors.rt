// The lines that a line rests on, marked.
ghost use Rattle.std.specs.Prelude.{◌≡◌, IfOk, OnOk, length};
ghost use Rattle.clause_store.specs.Marks.{stored_parents, MarkAncestors, VisitsLine};

use crate::lines::StoredLine;
use crate::parents::add_parents;
use std::alloc::{AllocError, Global};

// Marks a line that isn't marked, and has its parents wait.
fn look_at(
    lines: &[StoredLine],
    m: u64,
    marks: &mut Vec<bool>,
    waiting: &mut Vec<u64>,
) -> Result<(), AllocError>
    requires { length marks.old.items ≡ length lines.now }
    ensures { OnOk result (VisitsLine (length lines.now) (stored_parents lines.now) m
        marks.old.items waiting.old.items marks.new.items waiting.new.items) }
{
    if m == 0 {
        return Ok(());
    }
    let place = (m - 1) as usize;
    if place >= lines.len() {
        return Ok(());
    }
    if marks[place] {
        return Ok(());
    }
    marks[place] = true;
    add_parents(&lines[place].just, waiting)
}

/// Marks the lines that the one of a number rests on, itself among them.
#[tactic(auto, using(crate::proofs::Marking::way_begins))]
pub fn marked(alloc: Global, lines: &[StoredLine], n: u64) -> Result<Vec<bool>, AllocError>
    ensures { IfOk result (λ marks. MarkAncestors (length lines.now) (stored_parents lines.now) n
        marks.items) }
{
    let mut marks: Vec<bool> = vec![in alloc; false; lines.len()]?;
    let mut waiting = Vec::new(alloc);
    waiting.push(n)?;
    while let Some(m) = waiting.pop() {
        look_at(lines, m, &mut marks, &mut waiting)?;
    }
    Ok(marks)
}
