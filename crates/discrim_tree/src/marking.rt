// Walks through a tree of paths that are lists of marks.
ghost use Rattle.std.specs.Prelude.{ℕ, ◌≡◌, ◌≤◌, IfOk, IsTrue, OnOk, length, map};
ghost use Rattle.std.specs.List.{Contains};
ghost use Rattle.std.specs.List.Sorted.{IsStrictlyIncreasing};
ghost use Rattle.discrim_tree.specs.Marking.{EntersOver, EntersWithin, IsOver, IsToCome, IsWithin, MeetsBehind, Yields, has_many_numbers, is_wide};
ghost use Rattle.discrim_tree.specs.Marks.{AreAmong, mark_step};
ghost use Rattle.discrim_tree.specs.Nodes.{Ends, KeepsOthers, Reaches};

use crate::contents::{Branch, Contents};
use crate::edge::Edge;
use crate::nodes::Nodes;
use std::alloc::{AllocError, Global};
use std::cmp::Ordering;

// So many branches are gone through; among more each mark's is looked for.
const FEW: usize = 32;

/// A node, and how many of the marks, from the first on, are met on the way there.
#[derive(Clone, Copy)]
pub struct Meeting {
    pub node: usize,
    pub met: usize,
}

/// The path of a list of marks: a step for each.
pub fn path_of_marks(alloc: Global, marks: &[u64]) -> Result<Vec<Edge>, AllocError>
    ensures { IfOk result (λ path. path.items ≡ map mark_step marks.now) }
{
    let mut path = Vec::with_capacity(alloc, marks.len())?;
    for mark in marks {
        path.push(Edge::Symbol(*mark, 0))?;
    }
    Ok(path)
}

// Whether a step's mark is among marks.
fn is_among(edge: Edge, marks: &[u64]) -> bool
    ensures { (m : ℕ) → edge ≡ mark_step m → Contains marks.now m → IsTrue result }
{
    match edge {
        Edge::Symbol(mark, _) => marks.contains(&mark),
        _ => false,
    }
}

// The nodes to which the branches of marks lead come to those that wait.
fn enter_branches(
    waiting: &mut Vec<usize>,
    branches: &[Branch],
    marks: &[u64],
) -> Result<(), AllocError>
    ensures kept { OnOk result (AreAmong waiting.old.items waiting.new.items) }
    ensures enters { OnOk result (EntersWithin branches.now marks.now waiting.new.items) }
{
    for (edge, k) in branches {
        if is_among(*edge, marks) {
            waiting.push(*k)?;
        }
    }
    Ok(())
}

// The same, where each mark's branch is looked for.
fn enter_marks(
    waiting: &mut Vec<usize>,
    contents: &Contents,
    marks: &[u64],
) -> Result<(), AllocError>
    ensures kept { OnOk result (AreAmong waiting.old.items waiting.new.items) }
    ensures enters { OnOk result (EntersWithin contents.now.branches marks.now waiting.new.items) }
{
    for mark in marks {
        if let Some(k) = contents.target(Edge::Symbol(*mark, 0)) {
            waiting.push(k)?;
        }
    }
    Ok(())
}

// The same in the way that is the shorter.
fn enter_within(
    waiting: &mut Vec<usize>,
    contents: &Contents,
    marks: &[u64],
) -> Result<(), AllocError>
    ensures kept { OnOk result (AreAmong waiting.old.items waiting.new.items) }
    ensures enters { OnOk result (EntersWithin contents.now.branches marks.now waiting.new.items) }
{
    let branches = contents.branches();
    let listed = branches.as_slice();
    if listed.len() <= FEW {
        return enter_branches(waiting, listed, marks);
    }
    enter_marks(waiting, contents, marks)
}

// How many marks are met behind one more mark of a rising list; none where the next can't be met any more.
fn met_behind(mark: u64, marks: &[u64], met: usize) -> Option<usize>
    ensures { IsStrictlyIncreasing marks.now → MeetsBehind marks.now met mark result }
{
    if met >= marks.len() {
        return Some(met);
    }
    match mark.cmp(&marks[met]) {
        Ordering::Less => Some(met),
        Ordering::Equal => Some(met + 1),
        Ordering::Greater => None,
    }
}

// The same behind a step.
fn met_by(edge: Edge, marks: &[u64], met: usize) -> Option<usize>
    ensures { IsStrictlyIncreasing marks.now → (m : ℕ) → edge ≡ mark_step m → MeetsBehind marks.now met m result }
{
    match edge {
        Edge::Symbol(mark, _) => met_behind(mark, marks, met),
        _ => None,
    }
}

// The nodes to which the branches lead come to those that wait, where the marks can still be met behind them.
fn enter_over(
    waiting: &mut Vec<Meeting>,
    branches: &[Branch],
    marks: &[u64],
    met: usize,
) -> Result<(), AllocError>
    ensures kept { OnOk result (AreAmong waiting.old.items waiting.new.items) }
    ensures enters { OnOk result (IsStrictlyIncreasing marks.now → EntersOver branches.now marks.now met waiting.new.items) }
{
    for (edge, k) in branches {
        if let Some(met) = met_by(*edge, marks, met) {
            waiting.push(Meeting { node: *k, met })?;
        }
    }
    Ok(())
}

// A node's numbers come to others, if all marks are met.
fn add_met(
    numbers: &mut Vec<u64>,
    more: &[u64],
    marks: &[u64],
    met: usize,
) -> Result<(), AllocError>
    ensures kept { OnOk result (AreAmong numbers.old.items numbers.new.items) }
    ensures added { OnOk result (length marks.now ≤ met → AreAmong more.now numbers.new.items) }
{
    if met >= marks.len() {
        numbers.extend_from_slice(more)?;
    }
    Ok(())
}

impl Nodes {
    // The node to which the path of a list of marks leads.
    fn end_of_marks(&self, marks: &[u64]) -> Option<usize>
        ensures { Ends self.now.items (map mark_step marks.now) result }
    {
        let mut at = 0;
        for mark in marks {
            match self.child(at, Edge::Symbol(*mark, 0)) {
                None => return None,
                Some(k) => at = k,
            }
        }
        Some(at)
    }

    /// A number leaves the end of the path of a list of marks; nodes without numbers and branches go.
    pub fn take_marked(&mut self, marks: &[u64], number: u64)
        ensures others { KeepsOthers number self.old.items self.new.items }
        ensures gone { Reaches self.new.items 0 (map mark_step marks.now) number → ⊥ }
    {
        match self.end_of_marks(marks) {
            None => {}
            Some(end) => self.take_at(end, number),
        }
    }

    // The numbers at a node come to others, and the nodes below to those that wait, where all marks on the way are among these.
    fn within_one(
        &self,
        waiting: &mut Vec<usize>,
        numbers: &mut Vec<u64>,
        at: usize,
        marks: &[u64],
    ) -> Result<(), AllocError>
        ensures others { OnOk result (AreAmong waiting.old.items waiting.new.items) }
        ensures kept { OnOk result (AreAmong numbers.old.items numbers.new.items) }
        ensures yields { OnOk result (Yields (IsWithin self.now.items marks.now) at numbers.new.items waiting.new.items) }
    {
        match self.items.get(at) {
            None => Ok(()),
            Some(node) => {
                numbers.extend_from_slice(node.contents.numbers())?;
                enter_within(waiting, &node.contents, marks)
            }
        }
    }

    // Whether a node has more numbers than so many.
    fn has_many_numbers(&self, at: usize, most: usize) -> bool
        ensures { result ≡ has_many_numbers self.now.items at most }
    {
        match self.items.get(at) {
            None => false,
            Some(node) => node.contents.numbers().len() > most,
        }
    }

    // Whether it has more numbers or branches.
    fn is_wide(&self, at: usize, most: usize) -> bool
        ensures { result ≡ is_wide self.now.items at most }
    {
        match self.items.get(at) {
            None => false,
            Some(node) => {
                let branches = node.contents.branches();
                node.contents.numbers().len() > most || branches.as_slice().len() > most
            }
        }
    }

    /// The numbers at and below the nodes that wait come to others, where all marks on the way are among these; whether they have
    /// all come. Fewer nodes than so many are gone through, and none that has more numbers than that.
    pub fn within(
        &self,
        waiting: &mut Vec<usize>,
        numbers: &mut Vec<u64>,
        marks: &[u64],
        most: usize,
    ) -> Result<bool, AllocError>
        ensures { IfOk result (λ b. IsTrue b → (n : ℕ) → IsToCome (IsWithin self.now.items marks.now) waiting.old.items n → Contains numbers.new.items n) }
    {
        for _step in 0..most {
            match waiting.pop() {
                None => return Ok(true),
                Some(at) => {
                    if numbers.len() > most || self.has_many_numbers(at, most) {
                        return Ok(false);
                    }
                    self.within_one(waiting, numbers, at, marks)?;
                }
            }
        }
        Ok(false)
    }

    // The numbers at a node come to others, if all marks are met, and the nodes below to those that wait, where they can be.
    fn over_one(
        &self,
        waiting: &mut Vec<Meeting>,
        numbers: &mut Vec<u64>,
        next: Meeting,
        marks: &[u64],
    ) -> Result<(), AllocError>
        ensures others { OnOk result (AreAmong waiting.old.items waiting.new.items) }
        ensures kept { OnOk result (AreAmong numbers.old.items numbers.new.items) }
        ensures yields { OnOk result (IsStrictlyIncreasing marks.now → Yields (IsOver self.now.items marks.now) next numbers.new.items waiting.new.items) }
    {
        match self.items.get(next.node) {
            None => Ok(()),
            Some(node) => {
                add_met(numbers, node.contents.numbers(), marks, next.met)?;
                let branches = node.contents.branches();
                enter_over(waiting, branches.as_slice(), marks, next.met)
            }
        }
    }

    /// The numbers at and below the nodes that wait come to others, where the marks that are left are met on a rising way; whether
    /// they have all come. Fewer nodes than so many are gone through, and none that has more numbers or branches than that.
    pub fn over(
        &self,
        waiting: &mut Vec<Meeting>,
        numbers: &mut Vec<u64>,
        marks: &[u64],
        most: usize,
    ) -> Result<bool, AllocError>
        ensures { IfOk result (λ b. IsTrue b → IsStrictlyIncreasing marks.now → (n : ℕ) → IsToCome (IsOver self.now.items marks.now) waiting.old.items n → Contains numbers.new.items n) }
    {
        for _step in 0..most {
            match waiting.pop() {
                None => return Ok(true),
                Some(next) => {
                    if numbers.len() > most || self.is_wide(next.node, most) {
                        return Ok(false);
                    }
                    self.over_one(waiting, numbers, next, marks)?;
                }
            }
        }
        Ok(false)
    }
}
