// The rules of weights and the hints of a problem.
ghost use Rattle.std.specs.Prelude.{◌≡◌, ◌≤◌, IfOk, map};
ghost use Rattle.std.specs.Option.{option_map};
ghost use Rattle.fol_core.specs.RuleView.{rule_of};
ghost use Rattle.prover_steps.specs.Searching.{clause_size};
ghost use Rattle.weights.specs.Heads.{head_of, rows_for};
ghost use Rattle.weights.specs.HintRows.{row_of_hint};
ghost use Rattle.weights.specs.Hints.{hint_place, is_hinted, clause_weight};
ghost use Rattle.weights.specs.Rows.{weight_row};

use crate::hints::Hints;
use crate::patterns::{PatternWeight, atoms_weight};
use crate::room::Room;
use fol_core::{Clause, EQ, Sym, Symbols, WeightRule};
use fol_problem::Problem;
use std::alloc::{AllocError, Global};

/// The rules of weights, of which the first that fits counts, and the hints.
#[derive(Drop)]
pub struct Rules<'a> {
    pub patterns: Vec<PatternWeight<'a>>,
    pub hints: Hints,
}

// The symbol that a pattern begins with, if there is one.
fn head_of(symbols: &Symbols, rule: &WeightRule) -> Option<Sym>
    ensures { option_map (λ s. s.0) result ≡ head_of symbols.now (rule_of rule.now) }
{
    let arity = rule.arguments.len() as u64;
    let name = rule.head.bytes();
    if name == b"=".as_slice() && arity == 2 {
        Some(EQ)
    } else {
        symbols.find(name, arity)
    }
}

// The patterns of some rules.
#[tactic(auto, using(crate::proofs::Stated::rule_here, crate::proofs::Stated::rule_without, crate::proofs::Stated::no_rules))]
fn patterns_of<'a>(
    alloc: Global,
    symbols: &Symbols,
    rules: &'a [WeightRule],
) -> Result<Vec<PatternWeight<'a>>, AllocError>
    ensures { IfOk result (λ ps. map weight_row ps.items
        ≡ rows_for symbols.now (map rule_of rules.now)) }
{
    let mut patterns = Vec::new(alloc);
    for rule in rules {
        if let Some(head) = head_of(symbols, rule) {
            let arguments = &rule.arguments;
            let weight = &rule.weight;
            patterns.push(PatternWeight {
                head,
                arguments,
                weight,
            })?;
        }
    }
    Ok(patterns)
}

impl<'a> Rules<'a> {
    /// The rules and hints of a problem.
    pub fn new(alloc: Global, problem: &'a Problem) -> Result<Rules<'a>, AllocError>
        ensures patterns { IfOk result (λ r. map weight_row r.patterns.items
            ≡ rows_for problem.now.symbols (map rule_of problem.now.weights.items)) }
        ensures hints { IfOk result (λ r. r.hints ≡ map row_of_hint problem.now.hints.items) }
    {
        let patterns = patterns_of(alloc, &problem.symbols, problem.weights.as_slice())?;
        let hints = Hints::new(alloc, problem.hints.as_slice())?;
        Ok(Rules { patterns, hints })
    }

    /// The place, from 0, of the first hint that a clause matches.
    #[tactic(auto, using(crate::proofs::Hinted::is_room, crate::proofs::Hinted::is_room_for_variables))]
    pub fn hint_of<'b>(&'b self, room: &mut Room<'b>, clause: &Clause) -> Option<usize>
        requires { clause_size clause.now ≤ room.old }
        ensures place { result ≡ hint_place self.now.hints clause.now }
        ensures room { room.new ≡ room.old }
    {
        self.hints.first(&mut room.places, clause)
    }

    /// Whether a clause matches a hint.
    #[tactic(auto, using(crate::proofs::Hinted::hinted_is))]
    pub fn is_hinted<'b>(&'b self, room: &mut Room<'b>, clause: &Clause) -> bool
        requires { clause_size clause.now ≤ room.old }
        ensures hinted { result ≡ is_hinted self.now.hints clause.now }
        ensures room { room.new ≡ room.old }
    {
        self.hint_of(room, clause).is_some()
    }

    /// What a clause weighs whose first hint is known, as `hint_of` says.
    pub fn weight_with<'b>(
        &self,
        room: &mut Room<'b>,
        hint: Option<usize>,
        clause: &'b Clause,
    ) -> u64
        requires hint { hint ≡ hint_place self.now.hints clause.now }
        requires room { clause_size clause.now ≤ room.old }
        ensures weight { result ≡ clause_weight (map weight_row self.now.patterns.items)
            self.now.hints clause.now }
        ensures room { room.new ≡ room.old }
    {
        match self.hints.weight_at(hint) {
            Some(weight) => u64::from(weight),
            None => {
                let patterns = self.patterns.as_slice();
                atoms_weight(patterns, &mut room.found, clause, &mut room.weights)
            }
        }
    }

    /// What a clause weighs.
    pub fn weight_of<'b>(&'b self, room: &mut Room<'b>, clause: &'b Clause) -> u64
        requires { clause_size clause.now ≤ room.old }
        ensures weight { result ≡ clause_weight (map weight_row self.now.patterns.items)
            self.now.hints clause.now }
        ensures room { room.new ≡ room.old }
    {
        let hint = self.hint_of(room, clause);
        self.weight_with(room, hint, clause)
    }
}
