// What a node of a tree of paths has: numbers and branches.
ghost use Rattle.std.specs.Prelude.{ℕ, ◌≡◌, ◌==◌, ◌<◌, ◌≤◌, ◌⊎◌, List, [], ◌∷◌, ◌++◌, None, Some, false, length, not, insert, remove, IfErr, IfOk, IfSome, IsTrue, OnOk, OnErr};
ghost use Rattle.std.specs.List.{filter};
ghost use Rattle.discrim_tree.specs.Contents.{target, numbers_of, branches_of, listed, IsAt, IsGapFor, StepsRise};
ghost use Rattle.discrim_tree.specs.declared.edge.Edge.{Edge};

use crate::edge::Edge;
use std::alloc::{AllocError, Global};
use std::cmp::Ordering;
use std::marker::Model;
use std::slice;

// So many branches are gone through; among more a step is found by halves.
const FEW: usize = 4;

/// A step, and the node to which it leads.
pub type Branch = (Edge, usize);

/// The numbers of the paths that end at a node, and the node's branches, by rising step. Nearly all nodes have one number or
/// one branch, which takes no memory of its own.
#[derive(Drop)]
pub struct Contents {
    form: Form,
}

/// One branch, or a list of branches that is lent.
#[derive(Clone, Copy)]
pub enum Branches<'a> {
    One(Branch),
    Many(&'a [Branch]),
}

// A form takes 16 bytes, so one branch stands there by the kind of its step. Of a symbol's branch it has the number of arguments,
// the node and the symbol; where the first two are too large for that, the branch stands in lists.
#[derive(Drop)]
enum Form {
    Nothing,
    Number(u64),
    ByAny(usize),
    ByElement(u32, usize),
    BySymbol(u16, u32, u64),
    Lists(Box<Lists>),
}

#[derive(Drop)]
struct Lists {
    numbers: Vec<u64>,
    branches: Vec<Branch>,
}

impl Model for Contents {
    ghost use Rattle.discrim_tree.specs.Contents.{Contents as Parts};

    ghost Value = { Parts };

    ghost use Rattle.discrim_tree.specs.Contents.{numbers_of, branches_of, StepsRise};

    ghost view = { λ a. record { numbers = numbers_of a.form; branches = branches_of a.form } };

    ghost invariant = { λ a. StepsRise (branches_of a.form) };
}

impl Contents {
    /// Neither numbers nor branches.
    pub fn new() -> Contents
        ensures numbers { result.numbers ≡ [] }
        ensures branches { result.branches ≡ [] }
    {
        Contents {
            form: Form::Nothing,
        }
    }

    /// Whether there are neither numbers nor branches.
    pub fn is_empty(&self) -> bool
        ensures yes { IsTrue result → (self.now.numbers ≡ []) × (self.now.branches ≡ []) }
        ensures no { result ≡ false → (self.now.numbers ≡ [] → ⊥) ⊎ (self.now.branches ≡ [] → ⊥) }
    {
        let branches = self.form.branches();
        self.form.numbers().is_empty() && branches.as_slice().is_empty()
    }

    /// The numbers.
    pub fn numbers(&self) -> &[u64]
        ensures { result.now ≡ self.now.numbers }
    {
        self.form.numbers()
    }

    /// The branches.
    pub fn branches(&self) -> Branches<'_>
        ensures all { listed result ≡ self.now.branches }
        ensures rise { StepsRise self.now.branches }
    {
        self.form.branches()
    }

    /// Where a step leads.
    #[inline(always)]
    pub fn target(&self, edge: Edge) -> Option<usize>
        ensures { result ≡ target self.now.branches edge }
    {
        match self.form.branches() {
            Branches::One((step, node)) => if edge == step { Some(node) } else { None },
            Branches::Many(branches) => target_in(branches, edge),
        }
    }

    /// The step of the branch that leads to a node.
    pub fn step_to(&self, node: usize) -> Option<Edge>
        ensures step { IfSome result (λ edge. target self.now.branches edge ≡ Some node) }
        ensures none { result ≡ None → (edge : Edge) → target self.now.branches edge ≡ Some node → ⊥ }
    {
        let branches = self.form.branches();
        for (step, k) in branches.as_slice() {
            if *k == node {
                return Some(*step);
            }
        }
        None
    }

    /// One more number.
    pub fn put_number(&mut self, alloc: Global, number: u64) -> Result<(), AllocError>
        ensures numbers { OnOk result (self.new.numbers ≡ self.old.numbers ++ number ∷ []) }
        ensures branches { self.new.branches ≡ self.old.branches }
        ensures err { OnErr result (self.new.numbers ≡ self.old.numbers) }
    {
        self.form.push(alloc, number)
    }

    /// One more branch.
    pub fn put_branch(&mut self, alloc: Global, edge: Edge, node: usize) -> Result<(), AllocError>
        requires { target self.old.branches edge ≡ None }
        ensures numbers { self.new.numbers ≡ self.old.numbers }
        ensures there { OnOk result (target self.new.branches edge ≡ Some node) }
        ensures others { OnOk result ((e : Edge) → (e ≡ edge → ⊥) → target self.new.branches e
            ≡ target self.old.branches e) }
        ensures err { OnErr result (self.new.branches ≡ self.old.branches) }
    {
        let branches = self.form.branches();
        match place_of(branches.as_slice(), edge) {
            Ok(_) => unreachable!(),
            Err(at) => self.form.insert(alloc, at, (edge, node)),
        }
    }

    /// A number is taken away, as often as it is there.
    pub fn take_number(&mut self, number: u64)
        ensures numbers { self.new.numbers ≡ filter (λ n. not (n == number)) self.old.numbers }
        ensures branches { self.new.branches ≡ self.old.branches }
    {
        self.form.forget(number);
    }

    /// The branch of a step is taken away, where there is one.
    pub fn take_branch(&mut self, edge: Edge)
        ensures numbers { self.new.numbers ≡ self.old.numbers }
        ensures gone { target self.new.branches edge ≡ None }
        ensures others { (e : Edge) → (e ≡ edge → ⊥) → target self.new.branches e
            ≡ target self.old.branches e }
    {
        let branches = self.form.branches();
        if let Ok(at) = place_of(branches.as_slice(), edge) {
            self.form.remove(at);
        }
    }
}

impl Branches<'_> {
    /// All of them.
    #[inline(always)]
    pub fn as_slice(&self) -> &[Branch]
        ensures { result.now ≡ listed self.now }
    {
        match self {
            Branches::One(branch) => slice::from_ref(branch),
            Branches::Many(branches) => branches,
        }
    }
}

impl Form {
    // One branch, where it needs no lists.
    fn of(branch: Branch) -> Option<Form>
        ensures numbers { IfSome result (λ form. numbers_of form ≡ []) }
        ensures branches { IfSome result (λ form. branches_of form ≡ branch ∷ []) }
    {
        let (step, node) = branch;
        match step {
            Edge::Any => Some(Form::ByAny(node)),
            Edge::Element(k) => Some(Form::ByElement(k, node)),
            Edge::Symbol(symbol, count) => {
                let count = u16::try_from(count).ok()?;
                let node = u32::try_from(node).ok()?;
                Some(Form::BySymbol(count, node, symbol))
            }
        }
    }

    // One branch.
    fn made(alloc: Global, branch: Branch) -> Result<Form, AllocError>
        ensures numbers { IfOk result (λ form. numbers_of form ≡ []) }
        ensures branches { IfOk result (λ form. branches_of form ≡ branch ∷ []) }
    {
        match Form::of(branch) {
            Some(form) => Ok(form),
            None => {
                let mut lists = Lists::of(alloc, &Form::Nothing)?;
                lists.branches.reserve_exact(1)?;
                lists.branches.push(branch)?;
                Ok(Form::Lists(Box::new(alloc, lists)?))
            }
        }
    }

    fn numbers(&self) -> &[u64]
        ensures { result.now ≡ numbers_of self.now }
    {
        match self {
            Form::Number(number) => slice::from_ref(number),
            Form::Lists(lists) => &lists.numbers,
            _ => &[],
        }
    }

    #[inline(always)]
    fn branches(&self) -> Branches<'_>
        ensures { listed result ≡ branches_of self.now }
    {
        match self {
            Form::Nothing => Branches::Many(&[]),
            Form::Number(_) => Branches::Many(&[]),
            Form::ByAny(node) => Branches::One((Edge::Any, *node)),
            Form::ByElement(k, node) => Branches::One((Edge::Element(*k), *node)),
            Form::BySymbol(count, node, symbol) => {
                Branches::One((Edge::Symbol(*symbol, *count as usize), *node as usize))
            }
            Form::Lists(lists) => Branches::Many(&lists.branches),
        }
    }

    // One more number behind the others.
    fn push(&mut self, alloc: Global, number: u64) -> Result<(), AllocError>
        ensures numbers { OnOk result (numbers_of self.new ≡ numbers_of self.old ++ number ∷ []) }
        ensures branches { branches_of self.new ≡ branches_of self.old }
        ensures err { OnErr result (numbers_of self.new ≡ numbers_of self.old) }
    {
        match self {
            Form::Nothing => *self = Form::Number(number),
            Form::Lists(lists) => lists.numbers.push(number)?,
            _ => {
                let mut lists = Lists::of(alloc, self)?;
                lists.numbers.reserve_exact(1)?;
                lists.numbers.push(number)?;
                *self = Form::Lists(Box::new(alloc, lists)?);
            }
        }
        Ok(())
    }

    // One more branch, at a place.
    fn insert(&mut self, alloc: Global, at: usize, branch: Branch) -> Result<(), AllocError>
        requires { at ≤ length (branches_of self.old) }
        ensures numbers { numbers_of self.new ≡ numbers_of self.old }
        ensures branches { OnOk result (branches_of self.new ≡ insert (branches_of self.old) at branch) }
        ensures err { OnErr result (branches_of self.new ≡ branches_of self.old) }
    {
        match self {
            Form::Nothing => *self = Form::made(alloc, branch)?,
            Form::Lists(lists) => lists.branches.insert(at, branch)?,
            _ => {
                let mut lists = Lists::of(alloc, self)?;
                lists.branches.reserve_exact(1)?;
                lists.branches.insert(at, branch)?;
                *self = Form::Lists(Box::new(alloc, lists)?);
            }
        }
        Ok(())
    }

    // A number is in the list no more.
    fn forget(&mut self, number: u64)
        ensures numbers { numbers_of self.new ≡ filter (λ n. not (n == number)) (numbers_of self.old) }
        ensures branches { branches_of self.new ≡ branches_of self.old }
    {
        match self {
            Form::Number(n) => {
                if *n == number {
                    *self = Form::Nothing;
                }
            }
            Form::Lists(lists) => lists.numbers.retain(|n| *n != number),
            _ => {}
        }
    }

    // The branch at a place is taken away.
    fn remove(&mut self, at: usize)
        requires { at < length (branches_of self.old) }
        ensures numbers { numbers_of self.new ≡ numbers_of self.old }
        ensures branches { branches_of self.new ≡ remove (branches_of self.old) at }
    {
        match self {
            Form::Nothing => unreachable!(),
            Form::Number(_) => unreachable!(),
            Form::Lists(lists) => {
                let _branch = lists.branches.remove(at);
            }
            _ => *self = Form::Nothing,
        }
    }
}

impl Lists {
    // A form's numbers and branches, without room for more.
    fn of(alloc: Global, form: &Form) -> Result<Lists, AllocError>
        ensures numbers { IfOk result (λ lists. lists.numbers.items ≡ numbers_of form.now) }
        ensures branches { IfOk result (λ lists. lists.branches.items ≡ branches_of form.now) }
    {
        let mut lists = Lists {
            numbers: Vec::new(alloc),
            branches: Vec::new(alloc),
        };
        lists.numbers.reserve_exact(form.numbers().len())?;
        lists.numbers.extend_from_slice(form.numbers())?;
        let branches = form.branches();
        lists.branches.reserve_exact(branches.as_slice().len())?;
        lists.branches.extend_from_slice(branches.as_slice())?;
        Ok(lists)
    }
}

// Where a step leads.
#[inline(always)]
fn target_in(branches: &[Branch], edge: Edge) -> Option<usize>
    requires { StepsRise branches.now }
    ensures { result ≡ target branches.now edge }
{
    if branches.len() <= FEW {
        return target_among(branches, edge);
    }
    match place_of(branches, edge) {
        Ok(at) => Some(branches[at].1),
        Err(_) => None,
    }
}

// Where a step leads among few branches; none behind a greater step is looked at.
#[inline(always)]
fn target_among(branches: &[Branch], edge: Edge) -> Option<usize>
    requires { StepsRise branches.now }
    ensures { result ≡ target branches.now edge }
{
    for (step, node) in branches {
        match edge.cmp(step) {
            Ordering::Less => return None,
            Ordering::Equal => return Some(*node),
            Ordering::Greater => {}
        }
    }
    None
}

// The place of a step's branch, or the place where it would come.
#[inline(never)]
fn place_of(branches: &[Branch], edge: Edge) -> Result<usize, usize>
    requires { StepsRise branches.now }
    ensures found { IfOk result (IsAt branches.now edge) }
    ensures absent { IfErr result (IsGapFor branches.now edge) }
{
    branches.binary_search_by_key(&edge, |&(step, _)| step)
}
