// The heads of a term, from the left.
ghost use Rattle.std.specs.Prelude.{◌≡◌, ◌++◌, IfOk, OnOk};
ghost use Rattle.fol_core.specs.TermView.{tree_of};
ghost use Rattle.packed_terms.specs.Heads.{first_head, heads};

use crate::head::Head;
use fol_core::Term;
use std::alloc::{AllocError, Global};

// What stands at the root of a term.
#[tactic(auto, using(crate::proofs::Heads::list_back))]
fn first_head(t: &Term) -> Head
    ensures { result ≡ first_head (tree_of t.now) }
{
    match t {
        Term::Var(x) => Head::Variable(*x),
        Term::Elem(k) => Head::Element(*k),
        Term::App(f, terms) => Head::Symbol(f.0, terms.len()),
    }
}

// How many nodes a term has.
fn count(t: &Term) -> usize {
    match t {
        Term::Var(_) => 1,
        Term::Elem(_) => 1,
        Term::App(_, terms) => {
            let mut all = 1usize;
            for term in &terms.items {
                all = all.saturating_add(count(term));
            }
            all
        }
    }
}

// The heads of a term come to others.
fn add_heads(all: &mut Vec<Head>, t: &Term) -> Result<(), AllocError>
    ensures { OnOk result (all.new.items ≡ all.old.items ++ heads (tree_of t.now)) }
{
    all.push(first_head(t))?;
    match t {
        Term::Var(_) => Ok(()),
        Term::Elem(_) => Ok(()),
        Term::App(_, terms) => {
            for term in &terms.items {
                add_heads(all, term)?;
            }
            Ok(())
        }
    }
}

/// The heads of a term, in a place that has room for no more.
pub fn heads(alloc: Global, t: &Term) -> Result<Vec<Head>, AllocError>
    ensures { IfOk result (λ all. all.items ≡ heads (tree_of t.now)) }
{
    let mut all = Vec::with_capacity(alloc, count(t))?;
    add_heads(&mut all, t)?;
    Ok(all)
}
