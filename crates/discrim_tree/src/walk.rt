// Walks through a tree of paths: to the nodes of terms that fit a term.
ghost use Rattle.std.specs.Prelude.{ℕ, ◌≡◌, ◌+◌, ◌<◌, ◌≤◌, IfOk, IsTrue, OnOk, length};
ghost use Rattle.fol_core.specs.TermView.{tree_of};
ghost use Rattle.discrim_tree.specs.declared.edge.Edge.TheVariants.{Any};
ghost use Rattle.discrim_tree.specs.Walks.{GoesOn, Follows, Enters, StartsAt, SkipsOne, SkipsAll, SkipsEach, Passes, Came, CameByAny, IsPast, IsBeyond, IsSkipped, StartOnly, SkippedEach, Comes, AreFitting, IsFrom, arity};

use crate::contents::Branches;
use crate::edge::{Edge, step_of};
use crate::nodes::Nodes;
use crate::skipping::Skipping;
use fol_core::Term;
use std::alloc::AllocError;

// How many terms follow a step.
fn arity(edge: Edge) -> usize
    ensures { result ≡ arity edge }
{
    match edge {
        Edge::Any => 0,
        Edge::Element(_) => 0,
        Edge::Symbol(_, count) => count,
    }
}

// How many terms are left after a step, or want of memory where that is no number of the machine.
fn left(count: usize, edge: Edge) -> Result<usize, AllocError>
    requires { 0 < count }
    ensures { IfOk result (λ left. left + 1 ≡ count + arity edge) }
{
    match (count - 1).checked_add(arity(edge)) {
        Some(left) => Ok(left),
        None => Err(AllocError),
    }
}

// One term is to be skipped from each node between two places; what was to be skipped before is gone.
fn starts(
    waiting: &mut Vec<Skipping>,
    walk: &[usize],
    low: usize,
    high: usize,
) -> Result<(), AllocError>
    requires { high ≤ length walk.now }
    ensures all { OnOk result (StartsAt low high walk.now waiting.new.items) }
    ensures only { OnOk result (StartOnly low walk.now waiting.new.items) }
{
    waiting.clear();
    for i in low..high {
        waiting.push(Skipping {
            node: walk[i],
            count: 1,
        })?;
    }
    Ok(())
}

impl Nodes {
    // Goes by a step from the nodes between two places.
    #[inline(always)]
    fn follow(
        &self,
        walk: &mut Vec<usize>,
        low: usize,
        high: usize,
        edge: Edge,
    ) -> Result<(), AllocError>
        requires { high ≤ length walk.old.items }
        ensures goes_on { OnOk result (GoesOn walk.old.items walk.new.items) }
        ensures longer { OnOk result (length walk.old.items ≤ length walk.new.items) }
        ensures follows { OnOk result (Follows self.now.items low high edge walk.old.items walk.new.items) }
        ensures came { OnOk result (Came self.now.items low high edge walk.old.items walk.new.items) }
    {
        for i in low..high {
            if let Some(k) = self.child(walk[i], edge) {
                walk.push(k)?;
            }
        }
        Ok(())
    }

    // Goes by the step of a variable, where variables fit other terms.
    fn follow_any(
        &self,
        walk: &mut Vec<usize>,
        below: bool,
        low: usize,
        high: usize,
    ) -> Result<(), AllocError>
        requires { high ≤ length walk.old.items }
        ensures goes_on { OnOk result (GoesOn walk.old.items walk.new.items) }
        ensures longer { OnOk result (length walk.old.items ≤ length walk.new.items) }
        ensures follows { OnOk result (IsTrue below → Follows self.now.items low high Any walk.old.items walk.new.items) }
        ensures came { OnOk result (CameByAny self.now.items below low high walk.old.items walk.new.items) }
    {
        if !below {
            return Ok(());
        }
        self.follow(walk, low, high, Edge::Any)?;
        Ok(())
    }

    // The branches of a node come to what is to be skipped, with the terms that are left behind each.
    fn enter_each(
        &self,
        waiting: &mut Vec<Skipping>,
        at: usize,
        count: usize,
    ) -> Result<(), AllocError>
        requires { 0 < count }
        ensures goes_on { OnOk result (GoesOn waiting.old.items waiting.new.items) }
        ensures enters { OnOk result (Enters self.now.items at count waiting.new.items) }
        ensures only { OnOk result (IsSkipped self.now.items at count waiting.old.items waiting.new.items) }
    {
        if !self.items.contains(at) {
            return Ok(());
        }
        match self.items[at].contents.branches() {
            Branches::One((edge, node)) => {
                let count = left(count, edge)?;
                waiting.push(Skipping { node, count })?;
                Ok(())
            }
            Branches::Many(branches) => {
                for (edge, k) in branches {
                    let count = left(count, *edge)?;
                    waiting.push(Skipping { node: *k, count })?;
                }
                Ok(())
            }
        }
    }

    // Goes a step further where terms are to be skipped from a node.
    fn skip_one(
        &self,
        walk: &mut Vec<usize>,
        waiting: &mut Vec<Skipping>,
        next: Skipping,
    ) -> Result<(), AllocError>
        ensures goes_on { OnOk result (GoesOn walk.old.items walk.new.items) }
        ensures longer { OnOk result (length walk.old.items ≤ length walk.new.items) }
        ensures others { OnOk result (GoesOn waiting.old.items waiting.new.items) }
        ensures skips { OnOk result (SkipsOne self.now.items next (length walk.old.items) walk.new.items waiting.new.items) }
        ensures past { OnOk result ((to : ℕ) → IsFrom (length walk.old.items) walk.new.items to → IsPast self.now.items next.node next.count to) }
        ensures only { OnOk result (IsSkipped self.now.items next.node next.count waiting.old.items waiting.new.items) }
    {
        if next.count == 0 {
            walk.push(next.node)?;
            return Ok(());
        }
        self.enter_each(waiting, next.node, next.count)?;
        Ok(())
    }

    // Goes to the nodes behind all terms that are to be skipped.
    fn skip(&self, walk: &mut Vec<usize>, waiting: &mut Vec<Skipping>) -> Result<(), AllocError>
        ensures goes_on { OnOk result (GoesOn walk.old.items walk.new.items) }
        ensures longer { OnOk result (length walk.old.items ≤ length walk.new.items) }
        ensures skips { OnOk result (SkipsAll self.now.items waiting.old.items (length walk.old.items) walk.new.items) }
        ensures beyond { OnOk result ((to : ℕ) → IsFrom (length walk.old.items) walk.new.items to → IsBeyond self.now.items waiting.old.items to) }
    {
        for _step in 0..u64::MAX {
            match waiting.pop() {
                None => return Ok(()),
                Some(next) => self.skip_one(walk, waiting, next)?,
            }
        }
        Err(AllocError)
    }

    // Goes to the nodes behind one term from those between two places.
    #[inline(never)]
    fn skip_each(
        &self,
        walk: &mut Vec<usize>,
        waiting: &mut Vec<Skipping>,
        low: usize,
        high: usize,
    ) -> Result<(), AllocError>
        requires { high ≤ length walk.old.items }
        ensures goes_on { OnOk result (GoesOn walk.old.items walk.new.items) }
        ensures longer { OnOk result (length walk.old.items ≤ length walk.new.items) }
        ensures skips { OnOk result (SkipsEach self.now.items low high walk.old.items walk.new.items) }
        ensures behind { OnOk result (SkippedEach self.now.items low walk.old.items walk.new.items) }
    {
        starts(waiting, walk, low, high)?;
        self.skip(walk, waiting)?;
        Ok(())
    }

    // Goes to the nodes behind the terms that fit a term, from those from a place on; they stand from the place on that
    // is returned. The second list is room for what is to be skipped.
    fn pass(
        &self,
        walk: &mut Vec<usize>,
        waiting: &mut Vec<Skipping>,
        below: bool,
        above: bool,
        low: usize,
        t: &Term,
    ) -> Result<usize, AllocError>
        ensures goes_on { OnOk result (GoesOn walk.old.items walk.new.items) }
        ensures longer { OnOk result (length walk.old.items ≤ length walk.new.items) }
        ensures within { IfOk result (λ next. next ≤ length walk.new.items) }
        ensures passes { IfOk result (λ next. Passes self.now.items below above (tree_of t.now) low walk.old.items next walk.new.items) }
        ensures comes { IfOk result (λ next. Comes self.now.items below above (tree_of t.now) low walk.old.items next walk.new.items) }
    {
        let high = walk.len();
        if low >= high {
            return Ok(high);
        }
        match t {
            Term::Var(_) => {
                if above {
                    self.skip_each(walk, waiting, low, high)?;
                    return Ok(high);
                }
                self.follow(walk, low, high, Edge::Any)?;
                Ok(high)
            }
            Term::Elem(_) => {
                self.follow(walk, low, high, step_of(t))?;
                self.follow_any(walk, below, low, high)?;
                Ok(high)
            }
            Term::App(_, terms) => {
                self.follow(walk, low, high, step_of(t))?;
                let mut next = high;
                for term in &terms.items {
                    next = self.pass(walk, waiting, below, above, next, term)?;
                }
                self.follow_any(walk, below, low, high)?;
                Ok(next)
            }
        }
    }

    /// The numbers at the ends of the paths of the terms that fit a term. What stood in the lists is gone.
    pub fn fitting(
        &self,
        walk: &mut Vec<usize>,
        numbers: &mut Vec<u64>,
        below: bool,
        above: bool,
        t: &Term,
    ) -> Result<(), AllocError>
        ensures { OnOk result (AreFitting self.now.items below above (tree_of t.now) numbers.new.items) }
    {
        walk.clear();
        walk.push(0)?;
        let mut waiting = Vec::new(*walk.allocator());
        let next = self.pass(walk, &mut waiting, below, above, 0, t)?;
        self.numbers_at(numbers, &walk[next..])?;
        Ok(())
    }
}
