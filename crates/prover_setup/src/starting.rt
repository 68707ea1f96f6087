// Where a search begins.
ghost use Rattle.std.specs.Prelude.{◌≡◌, ◌+◌, ◌<◌, ◌++◌, ◌∷◌, [], ℕ, IfOk, OnOk, Some, map};
ghost use Rattle.std.specs.List.{AllByRecursion, list_any};
ghost use Rattle.fol_problem.specs.Stated.{all_said};
ghost use Rattle.given_clause.specs.Noted.{AreNoted};
ghost use Rattle.given_clause.specs.States.{entry_of, state_of};
ghost use Rattle.proof_words.specs.Written.{by_copy};
ghost use Rattle.prover_steps.specs.Conclusions.{has_equation};
ghost use Rattle.prover_steps.specs.HeldOrder.{numbers_of};
ghost use Rattle.prover_steps.specs.Searching.{Setting};
ghost use Rattle.prover_steps.specs.Starting.{held_rule, queued_as, queued_input, queued_inputs, rules_of, start_state};

use clause_index::{HeldSet, RewriteRules};
use conclusions::has_equation;
use derivation::First;
use discrim_tree::Tries;
use fol_core::Clause;
use fol_problem::{Input, Problem, Role};
use given_clause::{QueueEntry, Queued, Search, Waiting};
use held_clauses::Held;
use prover_proofs::role_at;
use std::alloc::{AllocError, Global};
use std::collections::VecDeque;

// A number behind another one; there are no more lines than numbers.
fn behind(n: u64, more: u64) -> Result<u64, AllocError>
    ensures { IfOk result (λ sum. sum ≡ n + more) }
{
    n.checked_add(more).ok_or(AllocError)
}

// A clause is queued.
fn push(
    alloc: Global,
    usable: bool,
    number: u64,
    clause: &Clause,
    queue: &mut VecDeque<QueueEntry>,
) -> Result<(), AllocError>
    ensures { OnOk result (map entry_of queue.new.items ≡ map entry_of queue.old.items
        ++ queued_as usable number (0, clause.now) ∷ []) }
{
    queue.push_back(QueueEntry::Built(Queued {
        clause: clause.copy(alloc)?,
        first: First::Copy(number),
        later: Vec::new(alloc),
        input: Some(number),
        usable,
    }))?;
    Ok(())
}

// An input clause is queued, unless it is one of a demodulator.
fn queue_input(
    alloc: Global,
    role: Role,
    number: u64,
    clause: &Clause,
    queue: &mut VecDeque<QueueEntry>,
) -> Result<(), AllocError>
    ensures { OnOk result (map entry_of queue.new.items ≡ map entry_of queue.old.items
        ++ queued_input role number (0, clause.now)) }
{
    match role {
        Role::Assumption => push(alloc, false, number, clause, queue),
        Role::Usable => push(alloc, true, number, clause, queue),
        Role::Demodulator => Ok(()),
        Role::Goal => push(alloc, false, number, clause, queue),
    }
}

// One of a demodulator is a rule.
fn add_rule(
    alloc: Global,
    role: Role,
    number: u64,
    clause: &Clause,
    rules: &mut RewriteRules,
) -> Result<(), AllocError>
    requires { AllByRecursion (λ n. n < number) (numbers_of rules.old) }
    ensures { OnOk result (rules.new ≡ rules.old ++ held_rule role number (0, clause.now)) }
{
    match role {
        Role::Demodulator => rules.put_in(Held::new(alloc, number, clause.copy(alloc)?)?),
        Role::Assumption | Role::Usable | Role::Goal => Ok(()),
    }
}

// The queue, of clauses that are numbered one by one from a number on.
fn queued_inputs(
    alloc: Global,
    inputs: &[Input],
    first: u64,
    clauses: &[(u64, Clause)],
) -> Result<VecDeque<QueueEntry>, AllocError>
    ensures { IfOk result (λ q. map entry_of q.items
        ≡ queued_inputs (all_said inputs.now) first clauses.now) }
{
    let mut queue = VecDeque::new(alloc);
    for (i, row) in clauses.iter().enumerate() {
        let number = behind(first, i as u64)?;
        let role = role_at(inputs, row.0);
        queue_input(alloc, role, number, &row.1, &mut queue)?;
    }
    Ok(queue)
}

// The rules.
fn rules_of(
    alloc: Global,
    inputs: &[Input],
    first: u64,
    clauses: &[(u64, Clause)],
) -> Result<RewriteRules, AllocError>
    ensures { IfOk result (λ rules. rules ≡ rules_of (all_said inputs.now) first clauses.now) }
{
    let mut rules = RewriteRules::new(alloc);
    for (i, row) in clauses.iter().enumerate() {
        let number = behind(first, i as u64)?;
        let role = role_at(inputs, row.0);
        add_rule(alloc, role, number, &row.1, &mut rules)?;
    }
    Ok(rules)
}

// Whether some clause has an equation; else none is rewritten or paramodulated.
fn any_has_equation(clauses: &[(u64, Clause)]) -> bool
    ensures { result ≡ list_any (λ r. has_equation r.1) clauses.now }
{
    clauses.iter().any(|row| has_equation(&row.1))
}

/// A search for proofs of a problem with these clauses, as it begins.
pub fn start_search(
    alloc: Global,
    problem: &Problem,
    clauses: &[(u64, Clause)],
) -> Result<Search, AllocError>
    ensures state { IfOk result (λ s. state_of s
        ≡ start_state (all_said problem.now.inputs.items) clauses.now) }
    ensures noted { IfOk result (λ s. (st : Setting) → AreNoted st s.waiting) }
    ensures untried { IfOk result (λ s. s.tries ≡ 0) }
{
    let inputs = problem.inputs.as_slice();
    let first = behind(inputs.len() as u64, 1)?;
    let next = behind(first, clauses.len() as u64)?;
    let queue = queued_inputs(alloc, inputs, first, clauses)?;
    let rules = rules_of(alloc, inputs, first, clauses)?;
    let keeps_inside = any_has_equation(clauses);
    Ok(Search {
        waiting: Waiting::new(alloc, keeps_inside),
        usable: HeldSet::new(alloc, keeps_inside),
        rules,
        queue,
        lines: Vec::new(alloc),
        next,
        turn: 0,
        given: 0,
        generated: 0,
        kept: 0,
        large: 0,
        symbols: 0,
        tries: Tries::new(alloc),
        proofs: Vec::new(alloc),
        ended: None,
    })
}
