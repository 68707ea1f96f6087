// Whether one substitution takes the literals of a clause to different literals of another.
ghost use Rattle.std.specs.Prelude.{◌≡◌, ◌+◌, ◌<◌, ◌≤◌, [], drop, is_some, length, vec_len, vec_capacity};
ghost use Rattle.std.specs.List.{list_all};
ghost use Rattle.fol_core.specs.ClauseView.{literal_of};
ghost use Rattle.fol_core.specs.TermView.{tree_of};
ghost use Rattle.prover_steps.specs.Subsuming.{matched_literal, subsumes};
ghost use Rattle.subsume.specs.Places.{literals_of, is_taken, completes, goes_on, serves, AreBack, HasPlaces};
ghost use Rattle.subsume.specs.Unused.{matches_in};
ghost use Rattle.subsume.specs.Variables.{standing};
ghost use Rattle.term_matches.specs.Matched.{MatchesOnto};
ghost use Rattle.term_matches.specs.Occurrences.{occurrences};

use crate::room::Places;
use fol_core::{Clause, Literal};
use term_matches::Matches;
use unifiers::matches_are_found;

// Whether the bindings, with more of them, make of a literal another one, of its sign.
#[tactic(auto, using(crate::proofs::Literals::signs_same, crate::proofs::Literals::signs_differ))]
fn match_literal<'a>(found: &mut Matches<'a>, literal: &Literal, other: &'a Literal) -> bool
    requires { length found.old.bindings + occurrences (tree_of literal.now.atom)
        ≤ found.old.room }
    ensures matches { MatchesOnto result
        (matched_literal (literal_of literal.now) (literal_of other.now) found.old.bindings)
        found.old.bindings found.new.bindings }
    ensures few { length found.new.bindings
        ≤ length found.old.bindings + occurrences (tree_of literal.now.atom) }
    ensures room { found.new.room ≡ found.old.room }
{
    if literal.positive != other.positive {
        return false;
    }
    found.match_onto(&literal.atom, &other.atom)
}

// Whether a literal has another one as an instance, of its sign.
#[tactic(auto, using(crate::proofs::Literals::found_is))]
fn matches<'a>(found: &mut Matches<'a>, literal: &Literal, other: &'a Literal) -> bool
    requires { occurrences (tree_of literal.now.atom) ≤ found.old.room }
    ensures matches { result ≡ is_some (matched_literal (literal_of literal.now)
        (literal_of other.now) []) }
    ensures room { found.new.room ≡ found.old.room }
{
    found.undo(0);
    match_literal(found, literal, other)
}

// Whether it has one of some others.
#[tactic(auto, using(held_clauses::proofs::LiteralTests::some_here, held_clauses::proofs::LiteralTests::some_behind, held_clauses::proofs::LiteralTests::some_end))]
fn matches_some<'a>(found: &mut Matches<'a>, literal: &Literal, others: &'a Clause) -> bool
    requires { occurrences (tree_of literal.now.atom) ≤ found.old.room }
    ensures matches { result ≡ matches_in others.now (literal_of literal.now) }
    ensures room { found.new.room ≡ found.old.room }
{
    for other in &others.literals {
        if matches(found, literal, other) {
            return true;
        }
    }
    false
}

// Whether each literal has.
#[tactic(auto, using(held_clauses::proofs::LiteralTests::all_fails, held_clauses::proofs::LiteralTests::all_behind, held_clauses::proofs::LiteralTests::all_end))]
fn all_match_some<'a>(found: &mut Matches<'a>, clause: &Clause, others: &'a Clause) -> bool
    requires { standing clause.now ≤ found.old.room }
    ensures matches { result ≡ list_all (matches_in others.now) clause.now }
    ensures room { found.new.room ≡ found.old.room }
{
    for literal in &clause.literals {
        if !matches_some(found, literal, others) {
            return false;
        }
    }
    true
}

// Whether a place is one of some.
fn is_taken(places: &[usize], place: usize) -> bool
    ensures { result ≡ is_taken places.now place }
{
    places.iter().any(|p| *p == place)
}

// Whether the next literal is matched to the one at a place, and the others to ones at other places.
#[cycle(ways)]
fn goes_on<'a>(
    literals: &[Literal],
    others: &'a [Literal],
    places: &mut Vec<usize>,
    found: &mut Matches<'a>,
    place: usize,
) -> bool
    requires next { vec_len places.old < length literals.now }
    requires place { place < length others.now }
    requires room { HasPlaces literals.now places.old found.old }
    ensures goes_on { result ≡ goes_on (literals_of literals.now) (literals_of others.now)
        found.old.bindings places.old.items place }
    ensures back { AreBack result places.old.items places.new.items }
    ensures undone { AreBack result found.old.bindings found.new.bindings }
    ensures capacity { vec_capacity places.new ≡ vec_capacity places.old }
    ensures room { found.new.room ≡ found.old.room }
{
    let next = places.len();
    let mark = found.mark();
    if match_literal(found, &literals[next], &others[place]) {
        places.push_reserved(place);
        if completes(literals, others, places, found) {
            return true;
        }
        places.truncate(next);
    }
    found.undo(mark);
    false
}

// Whether it is so by a place that isn't taken.
#[cycle(ways)]
fn serves<'a>(
    literals: &[Literal],
    others: &'a [Literal],
    places: &mut Vec<usize>,
    found: &mut Matches<'a>,
    place: usize,
) -> bool
    requires next { vec_len places.old < length literals.now }
    requires place { place < length others.now }
    requires room { HasPlaces literals.now places.old found.old }
    ensures serves { result ≡ serves (literals_of literals.now) (literals_of others.now)
        found.old.bindings places.old.items place }
    ensures back { AreBack result places.old.items places.new.items }
    ensures undone { AreBack result found.old.bindings found.new.bindings }
    ensures capacity { vec_capacity places.new ≡ vec_capacity places.old }
    ensures room { found.new.room ≡ found.old.room }
{
    if is_taken(places.as_slice(), place) {
        return false;
    }
    goes_on(literals, others, places, found, place)
}

// Whether the literals that have no place yet are matched to ones at places that aren't taken.
#[cycle(ways)]
#[tactic(auto, using(crate::proofs::Ways::all_placed, crate::proofs::Ways::ways_begin_at, crate::proofs::Ways::ways_found, crate::proofs::Ways::ways_behind, crate::proofs::Ways::ways_over))]
fn completes<'a>(
    literals: &[Literal],
    others: &'a [Literal],
    places: &mut Vec<usize>,
    found: &mut Matches<'a>,
) -> bool
    requires { HasPlaces literals.now places.old found.old }
    ensures completes { result ≡ completes (literals_of literals.now) (literals_of others.now)
        found.old.bindings places.old.items }
    ensures back { AreBack result places.old.items places.new.items }
    ensures undone { AreBack result found.old.bindings found.new.bindings }
    ensures capacity { vec_capacity places.new ≡ vec_capacity places.old }
    ensures room { found.new.room ≡ found.old.room }
{
    if places.len() >= literals.len() {
        return true;
    }
    for place in 0..others.len() {
        if serves(literals, others, places, found, place) {
            return true;
        }
    }
    false
}

/// Whether the first clause subsumes the second: a literal that none of the second matches is looked for before ways are
/// tried.
pub fn subsumes<'a>(places: &mut Places<'a>, clause: &Clause, other: &'a Clause) -> bool
    requires literals { length clause.now ≤ places.old }
    requires variables { standing clause.now ≤ places.old }
    ensures subsumes { result ≡ subsumes clause.now other.now }
    ensures room { places.new ≡ places.old }
{
    matches_are_found();
    if other.len() < clause.len() {
        return false;
    }
    if !all_match_some(&mut places.found, clause, other) {
        return false;
    }
    places.taken.clear();
    places.found.undo(0);
    completes(
        clause.as_slice(),
        other.as_slice(),
        &mut places.taken,
        &mut places.found,
    )
}
