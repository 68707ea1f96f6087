// A clause rewritten and put in order.
ghost use Rattle.std.specs.Prelude.{◌≡◌, ◌≤◌, false, IfOk};
ghost use Rattle.clause_index.specs.Sets.{all_in};
ghost use Rattle.demodulate.specs.Steps.{tidied_by, tidied_of};
ghost use Rattle.held_clauses.specs.Order.{greater_of};
ghost use Rattle.prover_steps.specs.Searching.{is_too_large};

use crate::normal::normal_form;
use crate::ordering::put_in_order;
use crate::step::Tidied;
use clause_index::{HeldSets, RewriteRules};
use clause_limits::numbered_anew;
use discrim_tree::Tries;
use fol_core::Clause;
use ladr_options::Options;
use std::alloc::{AllocError, Global};
use term_order::Precedence;

/// What rewriting by the rules makes of a clause, and then putting it in order, by the clauses that are held; the variables
/// numbered at the end.
pub fn tidy(
    alloc: Global,
    precedence: &Precedence,
    options: &Options,
    rules: &mut RewriteRules,
    held: &HeldSets<'_>,
    clause: Clause,
    tries: &mut Tries,
) -> Result<Tidied, AllocError>
    ensures tidied { IfOk result (λ t. tidied_of t ≡ tidied_by (greater_of precedence.now)
        options.now rules.old (all_in held.now) clause) }
    ensures rules { rules.new ≡ rules.old }
    ensures small { is_too_large clause ≡ false
        → IfOk result (λ t. is_too_large t.clause ≡ false) }
    ensures on { tries.old ≤ tries.new }
{
    let rewritten = normal_form(alloc, rules, options.demod_step_limit, clause, tries)?;
    let Tidied { clause, words } = put_in_order(
        alloc,
        precedence,
        options.unit_deletion,
        held,
        rewritten,
        tries,
    )?;
    let clause = numbered_anew(alloc, clause)?;
    Ok(Tidied { clause, words })
}
