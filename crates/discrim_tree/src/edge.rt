// The steps of a term's path.
ghost use Rattle.std.specs.Prelude.{◌≡◌, ◌++◌, IfOk, OnOk};
ghost use Rattle.fol_core.specs.TermView.{tree_of};
ghost use Rattle.discrim_tree.specs.Paths.{edge_of, step_of, path_of};

use fol_core::Term;
use packed_terms::Head;
use std::alloc::{AllocError, Global};

// For how many steps a path has room at first.
const ROOM: usize = 16;

/// A step: any variable, an element, or a symbol with the number of its arguments.
#[derive(Clone, Copy, PartialEq, Eq, PartialOrd, Ord)]
pub enum Edge {
    Any,
    Element(u32),
    Symbol(u64, usize),
}

/// The first step of a term.
#[tactic(auto, using(crate::proofs::Paths::list_back))]
pub fn step_of(t: &Term) -> Edge
    ensures { result ≡ step_of (tree_of t.now) }
{
    match t {
        Term::Var(_) => Edge::Any,
        Term::Elem(k) => Edge::Element(*k),
        Term::App(f, terms) => Edge::Symbol(f.0, terms.len()),
    }
}

/// The step of what stands at a node of a term.
pub fn edge_of(head: Head) -> Edge
    ensures { result ≡ edge_of head }
{
    match head {
        Head::Variable(_) => Edge::Any,
        Head::Element(k) => Edge::Element(k),
        Head::Symbol(f, count) => Edge::Symbol(f, count),
    }
}

/// The steps of one more term come to a path.
pub fn add_steps(path: &mut Vec<Edge>, t: &Term) -> Result<(), AllocError>
    ensures { OnOk result (path.new.items ≡ path.old.items ++ path_of (tree_of t.now)) }
{
    path.push(step_of(t))?;
    match t {
        Term::Var(_) => Ok(()),
        Term::Elem(_) => Ok(()),
        Term::App(_, terms) => {
            for term in &terms.items {
                add_steps(path, term)?;
            }
            Ok(())
        }
    }
}

/// A term's path.
pub fn path_of(alloc: Global, t: &Term) -> Result<Vec<Edge>, AllocError>
    ensures { IfOk result (λ path. path.items ≡ path_of (tree_of t.now)) }
{
    let mut path = Vec::with_capacity(alloc, ROOM)?;
    add_steps(&mut path, t)?;
    Ok(path)
}
