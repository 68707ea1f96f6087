// Terms of a literal replaced by a side of an equation.
ghost use Rattle.std.specs.Prelude.{◌≡◌, ◌<◌, ◌++◌, Some, IfOk, OnOk, length};
ghost use Rattle.std.specs.List.{flat_map};
ghost use Rattle.fol_core.specs.TermView.{tree_of};
ghost use Rattle.fol_core.specs.Tree.{app, trees_of};
ghost use Rattle.paramod.specs.Replacing.{site_of};
ghost use Rattle.paramod.specs.Sites.{replacing_side, atom_into, word_at, paramodulant_at};
ghost use Rattle.proof_words.specs.Written.{written_first};
ghost use Rattle.prover_steps.specs.Equalities.{paths_of, paths_below};
ghost use Rattle.resolution.specs.View.{all_conclusions};
ghost use Rattle.substitutions.specs.Paths.{subterm_at};

use crate::sides::may_be_replaced;
use crate::site::Site;
use derivation::{First, Paramodulation};
use fol_core::Term;
use inference::{Putting, paramodulate};
use resolution::{Concluded, Conclusion};
use std::alloc::{AllocError, Global};

// The word of a step into a path.
fn word_for(alloc: Global, site: &Site, path: &[u64]) -> Result<First, AllocError>
    ensures { IfOk result (λ f. written_first f ≡ word_at (site_of site.now) path.now) }
{
    let path = Vec::from_slice(alloc, path)?;
    Ok(First::Para(Paramodulation {
        from: site.from.number(),
        equation: site.equation,
        side: site.side,
        into: site.into.number(),
        literal: site.literal,
        path,
    }))
}

// At a path where a term is.
fn add_at(
    alloc: Global,
    site: &Site,
    term: &Term,
    path: &[u64],
    made: &mut Vec<Conclusion>,
) -> Result<(), AllocError>
    requires side { tree_of site.now.term.now ≡ replacing_side (site_of site.now) }
    requires there { subterm_at (atom_into (site_of site.now)) path.now ≡ Some (tree_of term.now) }
    requires below { 0 < length path.now }
    ensures { OnOk result (all_conclusions made.new.items ≡ all_conclusions made.old.items
        ++ paramodulant_at (site_of site.now) path.now) }
{
    if !may_be_replaced(site.term, term) {
        return Ok(());
    }
    let at = Putting {
        equation: site.equation,
        side: site.side,
        literal: site.literal,
        path,
    };
    let judged = paramodulate(
        alloc,
        at,
        site.from.clause(),
        site.term,
        site.into.clause(),
        term,
    )?;
    let Some(clause) = Concluded::of(alloc, judged)? else {
        return Ok(());
    };
    let first = word_for(alloc, site, path)?;
    made.push(Conclusion { clause, first })?;
    Ok(())
}

/// Adds what comes of the terms from a path on: of the one there, and of those below it.
pub fn add_from(
    alloc: Global,
    site: &Site,
    term: &Term,
    path: &mut Vec<u64>,
    made: &mut Vec<Conclusion>,
) -> Result<(), AllocError>
    requires side { tree_of site.now.term.now ≡ replacing_side (site_of site.now) }
    requires there { subterm_at (atom_into (site_of site.now)) path.old.items
        ≡ Some (tree_of term.now) }
    requires below { 0 < length path.old.items }
    ensures path { OnOk result (path.new.items ≡ path.old.items) }
    ensures made { OnOk result (all_conclusions made.new.items ≡ all_conclusions made.old.items
        ++ flat_map (λ rest. paramodulant_at (site_of site.now) (path.old.items ++ rest))
        (paths_of (tree_of term.now))) }
{
    add_at(alloc, site, term, path.as_slice(), made)?;
    match term {
        Term::Var(_) => Ok(()),
        Term::Elem(_) => Ok(()),
        Term::App(_, terms) => {
            for (i, part) in terms.items.iter().enumerate() {
                path.push(i as u64 + 1)?;
                add_from(alloc, site, part, path, made)?;
                let _number = path.pop();
            }
            Ok(())
        }
    }
}

/// Adds what comes of all terms below an atom.
pub fn add_below(
    alloc: Global,
    site: &Site,
    atom: &Term,
    made: &mut Vec<Conclusion>,
) -> Result<(), AllocError>
    requires side { tree_of site.now.term.now ≡ replacing_side (site_of site.now) }
    requires atom { tree_of atom.now ≡ atom_into (site_of site.now) }
    ensures { OnOk result (all_conclusions made.new.items ≡ all_conclusions made.old.items
        ++ flat_map (paramodulant_at (site_of site.now)) (paths_below (tree_of atom.now))) }
{
    match atom {
        Term::Var(_) => Ok(()),
        Term::Elem(_) => Ok(()),
        Term::App(_, terms) => {
            let mut path = Vec::new(alloc);
            for (i, part) in terms.items.iter().enumerate() {
                path.push(i as u64 + 1)?;
                add_from(alloc, site, part, &mut path, made)?;
                let _number = path.pop();
            }
            Ok(())
        }
    }
}
