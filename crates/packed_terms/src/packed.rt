// A packed term.
ghost use Rattle.std.specs.Prelude.{◌≡◌, IfOk, length, slice_get};
ghost use Rattle.fol_core.specs.TermView.{tree_of};
ghost use Rattle.packed_terms.specs.Heads.{heads};

use crate::form::Form;
use crate::head::Head;
use crate::packing::heads;
use crate::unpacking::first_built;
use fol_core::Term;
use std::alloc::{AllocError, Global};
use std::marker::Model;

/// A term in few bytes: four a node where its numbers are small; contracts see its tree.
#[derive(Drop)]
pub struct PackedTerm {
    // The heads of the term, from the left.
    form: Form,
}

impl Model for PackedTerm {
    ghost use Rattle.fol_core.specs.Tree.{Tree};
    ghost use Rattle.fol_core.specs.TreeCodes.{coded_tree};

    ghost Value = { Tree };

    ghost coded = { coded_tree };

    ghost use Rattle.packed_terms.specs.Building.{term_of};
    ghost use Rattle.packed_terms.specs.Codes.{heads_of};

    ghost view = { λ a. term_of (heads_of a.form) };

    ghost use Rattle.packed_terms.specs.Building.{AreHeads};

    ghost invariant = { λ a. AreHeads (heads_of a.form) };
}

impl PackedTerm {
    /// The same term, packed.
    #[tactic(auto, using(crate::proofs::Heads::term_told, crate::proofs::Heads::are_told))]
    pub fn new(alloc: Global, t: &Term) -> Result<PackedTerm, AllocError>
        ensures { IfOk result (λ p. p ≡ tree_of t.now) }
    {
        let all = heads(alloc, t)?;
        Ok(PackedTerm {
            form: Form::new(alloc, all)?,
        })
    }

    /// The term.
    pub fn term(&self, alloc: Global) -> Result<Term, AllocError>
        ensures { IfOk result (λ t. tree_of t ≡ self.now) }
    {
        first_built(alloc, &self.form)
    }

    /// How many nodes it has.
    pub fn len(&self) -> usize
        ensures { result ≡ length (heads self.now) }
    {
        self.form.len()
    }

    /// What stands at a node, counted from the left.
    pub fn head(&self, i: usize) -> Option<Head>
        ensures { result ≡ slice_get (heads self.now) i }
    {
        self.form.head(i)
    }
}
