// What terms in others weigh, where the weights of all terms in them are listed.
ghost use Rattle.std.specs.Prelude.{◌≡◌, ◌+◌, ◌<◌, if◌then◌else◌, length};
ghost use Rattle.fol_core.specs.Sizes.{size_of, sizes_of};
ghost use Rattle.fol_core.specs.TermView.{tree_of};
ghost use Rattle.fol_core.specs.Tree.{trees_of};
ghost use Rattle.unifiers.specs.Matching.{same_tree};
ghost use Rattle.weights.specs.Parts.{parts, parts_of, stands_among, place_among, listed_weight};

use fol_core::{Term, Terms};
use substitutions::same;

// Whether two terms are the same; if not, the place is moved on.
fn is_here(term: &Term, sought: &Term, place: &mut usize) -> bool
    requires { place.old + 1 < 18446744073709551616 }
    ensures same { result ≡ same_tree (tree_of term.now) (tree_of sought.now) }
    ensures place { place.new ≡ place.old + (if result then 0 else 1) }
{
    if same(term, sought) {
        return true;
    }
    *place += 1;
    false
}

// Whether a term is another one or stands in it; the place is moved on by the terms before it, or by all.
#[cycle(parts)]
#[tactic(auto, using(crate::proofs::Listed::among_arguments, crate::proofs::Listed::among_all, crate::proofs::Listed::place_in_arguments, crate::proofs::Listed::place_in_all))]
fn stands_in(term: &Term, sought: &Term, place: &mut usize) -> bool
    requires { place.old + size_of (tree_of term.now) < 18446744073709551616 }
    ensures stands { result ≡ stands_among (parts (tree_of term.now)) (tree_of sought.now) }
    ensures place { place.new
        ≡ place.old + place_among (parts (tree_of term.now)) (tree_of sought.now) }
{
    match term {
        Term::Var(_) => is_here(term, sought, place),
        Term::Elem(_) => is_here(term, sought, place),
        Term::App(_, terms) => {
            if stands_in_some(terms, sought, place) {
                return true;
            }
            is_here(term, sought, place)
        }
    }
}

// Whether it stands in some terms, or is one of them.
#[cycle(parts)]
#[tactic(auto, using(crate::proofs::Listed::some_here, crate::proofs::Listed::place_here, crate::proofs::Listed::some_behind, crate::proofs::Listed::place_behind, crate::proofs::Listed::parts_end, crate::proofs::Listed::sizes_step, crate::proofs::Listed::place_within))]
fn stands_in_some(terms: &Terms, sought: &Term, place: &mut usize) -> bool
    requires { place.old + sizes_of (trees_of terms.now) < 18446744073709551616 }
    ensures stands { result ≡ stands_among (parts_of (trees_of terms.now)) (tree_of sought.now) }
    ensures place { place.new
        ≡ place.old + place_among (parts_of (trees_of terms.now)) (tree_of sought.now) }
{
    for term in &terms.items {
        if stands_in(term, sought, place) {
            return true;
        }
    }
    false
}

/// What a term in others weighs, their terms' weights being listed.
pub fn listed_weight(weights: &[u64], terms: &Terms, sought: &Term) -> u64
    requires { length weights.now ≡ sizes_of (trees_of terms.now) }
    ensures { result ≡ listed_weight weights.now (trees_of terms.now) (tree_of sought.now) }
{
    let mut place = 0;
    let _stands = stands_in_some(terms, sought, &mut place);
    if place < weights.len() {
        weights[place]
    } else {
        1
    }
}
