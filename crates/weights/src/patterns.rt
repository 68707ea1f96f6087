// What terms weigh by rules.
ghost use Rattle.std.specs.Prelude.{◌≡◌, ◌+◌, ◌≤◌, ◌++◌, [], is_some, length, map, vec_len, vec_capacity};
ghost use Rattle.fol_core.specs.Sizes.{size_of, sizes_of};
ghost use Rattle.fol_core.specs.TermView.{tree_of};
ghost use Rattle.fol_core.specs.Tree.{app, trees_of};
ghost use Rattle.fol_core.specs.WeightView.{weight_of};
ghost use Rattle.prover_steps.specs.Searching.{clause_size};
ghost use Rattle.term_matches.specs.Matched.{IsFound};
ghost use Rattle.unifiers.specs.Matching.{matched};
ghost use Rattle.weights.specs.Parts.{parts_weights, weights_below, standing_weight, AreWeighedAs, IsWeighedAs};
ghost use Rattle.weights.specs.Rows.{weight_row};
ghost use Rattle.weights.specs.Weighing.{pattern_of, term_weight, weight_within, atoms_weight};
ghost use Rattle.weights.specs.WeighingLaws.{first_weight, weight_under};

use crate::parts::listed_weight;
use fol_core::{Clause, Sym, Term, Terms, Weight};
use term_matches::Matches;

/// The greatest weight: sums and products stop at it.
pub const MOST_WEIGHT: u64 = 2_147_483_647;

/// A pattern that is lent, and what its instances weigh.
#[derive(Clone, Copy)]
pub struct PatternWeight<'a> {
    pub head: Sym,
    pub arguments: &'a Terms,
    pub weight: &'a Weight,
}

impl<'a> PatternWeight<'a> {
    // Whether an application is an instance of the pattern, and by which bindings.
    fn fits<'b>(&self, found: &mut Matches<'b>, head: Sym, terms: &'b Terms) -> bool
        requires { sizes_of (trees_of terms.now) ≤ found.old.room }
        ensures fits { IsFound result (matched (pattern_of (weight_row self.now))
            (app head.0 (trees_of terms.now)) []) found.new.bindings }
        ensures room { found.new.room ≡ found.old.room }
    {
        if self.head.0 != head.0 {
            return false;
        }
        found.undo(0);
        found.match_all_onto(self.arguments, terms)
    }
}

// What a pattern weighs whose variables are bound to terms in others, the weights of all terms in these being listed.
fn pattern_weight(weights: &[u64], found: &Matches<'_>, terms: &Terms, weight: &Weight) -> u64
    requires { length weights.now ≡ sizes_of (trees_of terms.now) }
    ensures { result ≡ weight_under (standing_weight weights.now found.now.bindings
        (trees_of terms.now)) (weight_of weight.now) }
{
    match weight {
        Weight::Number(n) => u64::from(*n),
        Weight::Variable(x) => match found.given(*x) {
            Some(term) => listed_weight(weights, terms, term),
            None => 1,
        },
        Weight::Sum(v, w) => {
            let v = pattern_weight(weights, found, terms, v.weight());
            let w = pattern_weight(weights, found, terms, w.weight());
            v.saturating_add(w).min(MOST_WEIGHT)
        }
        Weight::Product(v, w) => {
            let v = pattern_weight(weights, found, terms, v.weight());
            let w = pattern_weight(weights, found, terms, w.weight());
            v.saturating_mul(w).min(MOST_WEIGHT)
        }
    }
}

// What the first rule says of which an application is an instance, the weights of all terms in its arguments being listed.
#[tactic(auto, using(crate::proofs::Finding::rule_fits, crate::proofs::Finding::rule_fails, crate::proofs::Finding::no_rule))]
fn weight_by_rule<'b>(
    rules: &[PatternWeight<'_>],
    found: &mut Matches<'b>,
    weights: &[u64],
    head: Sym,
    terms: &'b Terms,
) -> Option<u64>
    requires listed { weights.now ≡ parts_weights (map weight_row rules.now) (trees_of terms.now) }
    requires room { sizes_of (trees_of terms.now) ≤ found.old.room }
    ensures weight { result ≡ first_weight (map weight_row rules.now) (map weight_row rules.now)
        (app head.0 (trees_of terms.now)) }
    ensures room { found.new.room ≡ found.old.room }
{
    for rule in rules {
        if rule.fits(found, head, terms) {
            return Some(pattern_weight(weights, found, terms, rule.weight));
        }
    }
    None
}

// What a term weighs; the weights of the terms in it are listed, and its own behind them.
#[cycle(weigh)]
#[tactic(auto, using(crate::proofs::Weighed::own_weight))]
fn weigh<'b>(
    rules: &[PatternWeight<'_>],
    found: &mut Matches<'b>,
    term: &'b Term,
    weights: &mut Vec<u64>,
) -> u64
    requires room { vec_len weights.old + size_of (tree_of term.now) ≤ vec_capacity weights.old }
    requires bindings { size_of (tree_of term.now) ≤ found.old.room }
    ensures weighed { IsWeighedAs (map weight_row rules.now) (tree_of term.now) result
        weights.old.items weights.new.items }
    ensures len { vec_len weights.new ≡ vec_len weights.old + size_of (tree_of term.now) }
    ensures room { vec_capacity weights.new ≡ vec_capacity weights.old }
    ensures bindings { found.new.room ≡ found.old.room }
{
    let weight = weigh_below(rules, found, term, weights);
    weights.push_reserved(weight);
    weight
}

// What a term weighs; the weights of the terms below it are listed.
#[cycle(weigh)]
fn weigh_below<'b>(
    rules: &[PatternWeight<'_>],
    found: &mut Matches<'b>,
    term: &'b Term,
    weights: &mut Vec<u64>,
) -> u64
    requires room { vec_len weights.old + size_of (tree_of term.now) ≤ vec_capacity weights.old }
    requires bindings { size_of (tree_of term.now) ≤ found.old.room }
    ensures weight { result ≡ term_weight (map weight_row rules.now) (tree_of term.now) }
    ensures listed { weights.new.items ≡ weights.old.items
        ++ weights_below (map weight_row rules.now) (tree_of term.now) }
    ensures len { vec_len weights.new + 1 ≡ vec_len weights.old + size_of (tree_of term.now) }
    ensures room { vec_capacity weights.new ≡ vec_capacity weights.old }
    ensures bindings { found.new.room ≡ found.old.room }
{
    match term {
        Term::Var(_) => 1,
        Term::Elem(_) => 1,
        Term::App(head, terms) => application_weight(rules, found, *head, terms, weights),
    }
}

// What an application weighs; the weights of the terms in its arguments are listed.
#[cycle(weigh)]
#[tactic(auto, using(crate::proofs::Weighed::by_rule, crate::proofs::Weighed::by_arguments, crate::proofs::Weighed::behind))]
fn application_weight<'b>(
    rules: &[PatternWeight<'_>],
    found: &mut Matches<'b>,
    head: Sym,
    terms: &'b Terms,
    weights: &mut Vec<u64>,
) -> u64
    requires room { vec_len weights.old + sizes_of (trees_of terms.now) ≤ vec_capacity weights.old }
    requires bindings { sizes_of (trees_of terms.now) ≤ found.old.room }
    ensures weight { result ≡ term_weight (map weight_row rules.now)
        (app head.0 (trees_of terms.now)) }
    ensures listed { weights.new.items ≡ weights.old.items
        ++ parts_weights (map weight_row rules.now) (trees_of terms.now) }
    ensures len { vec_len weights.new ≡ vec_len weights.old + sizes_of (trees_of terms.now) }
    ensures room { vec_capacity weights.new ≡ vec_capacity weights.old }
    ensures bindings { found.new.room ≡ found.old.room }
{
    let before = weights.len();
    let sum = weigh_all(rules, found, terms, weights);
    let (_, own) = weights.as_slice().split_at(before);
    match weight_by_rule(rules, found, own, head, terms) {
        Some(weight) => weight,
        None => (sum + 1).min(MOST_WEIGHT),
    }
}

// What some terms weigh together; the weights of the terms in them are listed.
#[cycle(weigh)]
#[tactic(auto, using(crate::proofs::Weighed::listed_next, crate::proofs::Weighed::listed_end, crate::proofs::Weighed::sum_next, crate::proofs::Weighed::sum_end, crate::proofs::Listed::sizes_step))]
fn weigh_all<'b>(
    rules: &[PatternWeight<'_>],
    found: &mut Matches<'b>,
    terms: &'b Terms,
    weights: &mut Vec<u64>,
) -> u64
    requires room { vec_len weights.old + sizes_of (trees_of terms.now) ≤ vec_capacity weights.old }
    requires bindings { sizes_of (trees_of terms.now) ≤ found.old.room }
    ensures weighed { AreWeighedAs (map weight_row rules.now) (trees_of terms.now) result
        weights.old.items weights.new.items }
    ensures len { vec_len weights.new ≡ vec_len weights.old + sizes_of (trees_of terms.now) }
    ensures room { vec_capacity weights.new ≡ vec_capacity weights.old }
    ensures bindings { found.new.room ≡ found.old.room }
{
    let mut sum = 0u64;
    for term in &terms.items {
        let weight = weigh(rules, found, term, weights);
        sum = weight.saturating_add(sum).min(MOST_WEIGHT);
    }
    sum
}

// A weight with that of a term added, where each symbol and variable weighs 1.
#[tactic(auto, using(crate::proofs::Counted::next_argument, crate::proofs::Counted::all_arguments))]
fn with_symbols(before: u64, term: &Term) -> u64
    ensures { result ≡ weight_within (before + size_of (tree_of term.now)) }
{
    let mut weight = before.saturating_add(1).min(MOST_WEIGHT);
    if let Term::App(_, terms) = term {
        for term in &terms.items {
            weight = with_symbols(weight, term);
        }
    }
    weight
}

// What the atoms of a clause weigh together so.
#[tactic(auto, using(crate::proofs::Counted::next_literal, crate::proofs::Counted::all_literals))]
fn symbols_weight(clause: &Clause) -> u64
    ensures { result ≡ weight_within (clause_size clause.now) }
{
    let mut weight = 0;
    for literal in &clause.literals {
        weight = with_symbols(weight, &literal.atom);
    }
    weight
}

/// What the atoms of a clause weigh together, with room for the weights of the terms of each, and for bindings to them. Where there are no rules
/// symbols and variables are counted.
#[tactic(auto, using(crate::proofs::Counted::without_rules, crate::proofs::Weighed::atom_size))]
pub fn atoms_weight<'b>(
    rules: &[PatternWeight<'_>],
    found: &mut Matches<'b>,
    clause: &'b Clause,
    weights: &mut Vec<u64>,
) -> u64
    requires room { clause_size clause.now ≤ vec_capacity weights.old }
    requires bindings { clause_size clause.now ≤ found.old.room }
    ensures weight { result ≡ atoms_weight (map weight_row rules.now) clause.now }
    ensures room { vec_capacity weights.new ≡ vec_capacity weights.old }
    ensures bindings { found.new.room ≡ found.old.room }
{
    if rules.is_empty() {
        return symbols_weight(clause);
    }
    let mut sum = 0u64;
    for literal in &clause.literals {
        weights.clear();
        let weight = weigh(rules, found, &literal.atom, weights);
        sum = weight.saturating_add(sum).min(MOST_WEIGHT);
    }
    sum
}
