// How large clauses are: each is looked at no further than the number asked about.
ghost use Rattle.std.specs.Prelude.{◌≡◌, ◌<◌, ◌+◌, ◌||◌, MatchOption, false, nat_lt};
ghost use Rattle.fol_core.specs.Sizes.{size_of, depth_of};
ghost use Rattle.fol_core.specs.TermView.{tree_of};
ghost use Rattle.clause_limits.specs.Sizes.{clause_size, clause_depth, is_too_large};

use crate::limits::{MOST_CLAUSE_LEVELS, MOST_CLAUSE_SYMBOLS};
use fol_core::{Clause, Term};

/// Whether a term has more levels.
#[tactic(auto, using(crate::proofs::Measures::deeper_here, crate::proofs::Measures::deeper_behind, crate::proofs::Measures::deeper_end, crate::proofs::Measures::deeper_around))]
pub fn is_deeper(term: &Term, levels: u64) -> bool
    ensures { result ≡ nat_lt levels (depth_of (tree_of term.now)) }
{
    if levels == 0 {
        return true;
    }
    match term {
        Term::Var(_) => false,
        Term::Elem(_) => false,
        Term::App(_, terms) => {
            for term in &terms.items {
                if is_deeper(term, levels - 1) {
                    return true;
                }
            }
            false
        }
    }
}

/// How many symbols and variables are left of a number behind those of a term.
#[tactic(auto, using(crate::proofs::Measures::sizes_next, crate::proofs::Measures::sizes_end))]
pub fn left_behind(term: &Term, room: u64) -> Option<u64>
    ensures { MatchOption result (room < size_of (tree_of term.now))
        (λ left. left + size_of (tree_of term.now) ≡ room) }
{
    if room == 0 {
        return None;
    }
    let mut left = room - 1;
    match term {
        Term::Var(_) => Some(left),
        Term::Elem(_) => Some(left),
        Term::App(_, terms) => {
            for term in &terms.items {
                match left_behind(term, left) {
                    Some(rest) => left = rest,
                    None => return None,
                }
            }
            Some(left)
        }
    }
}

/// Whether a clause has more levels.
#[tactic(auto, using(crate::proofs::Measures::clause_deeper_here, crate::proofs::Measures::clause_deeper_behind, crate::proofs::Measures::clause_deeper_end))]
pub fn is_clause_deeper(clause: &Clause, levels: u64) -> bool
    ensures { result ≡ nat_lt levels (clause_depth clause.now) }
{
    for literal in &clause.literals {
        if is_deeper(&literal.atom, levels) {
            return true;
        }
    }
    false
}

/// How many symbols and variables are left of a number behind those of a clause.
#[tactic(auto, using(crate::proofs::Measures::clause_sizes_next, crate::proofs::Measures::clause_sizes_end))]
pub fn left_behind_clause(clause: &Clause, room: u64) -> Option<u64>
    ensures { MatchOption result (room < clause_size clause.now)
        (λ left. left + clause_size clause.now ≡ room) }
{
    let mut left = room;
    for literal in &clause.literals {
        match left_behind(&literal.atom, left) {
            Some(rest) => left = rest,
            None => return None,
        }
    }
    Some(left)
}

/// Whether a clause has more levels, or more symbols and variables: levels are counted only where it has so many symbols and
/// variables that they may be too many.
pub fn is_larger(clause: &Clause, levels: u64, symbols: u64) -> bool
    ensures { result
        ≡ (nat_lt levels (clause_depth clause.now) || nat_lt symbols (clause_size clause.now)) }
{
    if let Some(_left) = left_behind_clause(clause, levels.min(symbols)) {
        return false;
    }
    if is_clause_deeper(clause, levels) {
        return true;
    }
    match left_behind_clause(clause, symbols) {
        Some(_) => false,
        None => true,
    }
}

/// Whether a clause is too large to be processed.
pub fn is_too_large(clause: &Clause) -> bool
    ensures { result ≡ is_too_large clause.now }
{
    is_larger(clause, MOST_CLAUSE_LEVELS, MOST_CLAUSE_SYMBOLS)
}

/// How many symbols and variables a clause has that isn't too large.
pub fn clause_size(clause: &Clause) -> u64
    requires { is_too_large clause.now ≡ false }
    ensures { result ≡ clause_size clause.now }
{
    match left_behind_clause(clause, MOST_CLAUSE_SYMBOLS) {
        Some(left) => MOST_CLAUSE_SYMBOLS - left,
        None => MOST_CLAUSE_SYMBOLS,
    }
}
