// Processing a clause of the queue.
ghost use Rattle.std.specs.Prelude.{◌≡◌, ◌≤◌, ◌∷◌, [], false, IfOk, OnOk};
ghost use Rattle.std.specs.List.{AllByRecursion, list_any};
ghost use Rattle.std.specs.Option.{option_map};
ghost use Rattle.clause_index.specs.Subsumers.{is_long_above};
ghost use Rattle.fol_core.specs.ClauseView.{literal_of};
ghost use Rattle.given_clause.specs.Acting.{has_short_above, is_unwanted};
ghost use Rattle.given_clause.specs.Guides.{setting_of};
ghost use Rattle.given_clause.specs.Noted.{AreNoted, StayNoted};
ghost use Rattle.given_clause.specs.States.{entry_of, queued_of, reason_of, state_of};
ghost use Rattle.prover_steps.specs.HeldOrder.{IsInOrder, IsNoRuleIn, IsUnusedIn, input_numbers};
ghost use Rattle.prover_steps.specs.Searching.{all_held, tidied, is_too_large, is_too_heavy, is_no_use, has_proofs, becomes_rule, limit_reached, deletes_back, rewrites_back, rules_back, works_back, after_kept, settled, processed, under_limits, counted_on, subsumes_back};
ghost use Rattle.prover_steps.specs.Subsuming.{subsumes};

use crate::acting::{Back, is_subsumed_by, is_unit, meet_units, put_back, subsume_back};
use crate::guide::{Guide, room_for};
use crate::keeping::{add_proof, counted_on, keep_line, keep_queued};
use crate::state::{QueueEntry, Queued, Reason, Search};
use clause_index::{HeldSet, HeldSets, is_short};
use clause_limits::is_too_large;
use demodulate::{Tidied, tidy};
use discrim_tree::Tries;
use fol_core::{Clause, Literal};
use held_clauses::Held;
use paramod::is_oriented;
use prover_steps::steps_keep_order;
use std::alloc::{AllocError, Global};
use subsume::{Places, is_tautology};

// A clause of the queue rewritten and put in order.
fn tidied(
    alloc: Global,
    guide: &Guide<'_>,
    search: &mut Search,
    queued: Queued,
) -> Result<Queued, AllocError>
    ensures tidied { IfOk result (λ q. queued_of q ≡ tidied (setting_of guide.now)
        (state_of search.old) (queued_of queued)) }
    ensures small { is_too_large queued.clause ≡ false
        → IfOk result (λ q. is_too_large q.clause ≡ false) }
    ensures waiting { search.new.waiting ≡ search.old.waiting }
    ensures state { state_of search.new ≡ state_of search.old }
    ensures on { search.old.tries ≤ search.new.tries }
{
    let Queued {
        clause,
        first,
        input,
        usable,
        ..
    } = queued;
    let held = HeldSets {
        waiting: &search.waiting.held,
        usable: &search.usable,
    };
    let Tidied { clause, words } = tidy(
        alloc,
        &guide.precedence,
        &guide.options,
        &mut search.rules,
        &held,
        clause,
        &mut search.tries,
    )?;
    Ok(Queued {
        clause,
        first,
        later: words,
        input,
        usable,
    })
}

// Whether one of some clauses subsumes another one.
#[tactic(auto, using(crate::proofs::Tests::some_here, crate::proofs::Tests::some_behind, crate::proofs::Tests::some_end))]
fn is_subsumed(alloc: Global, held: &[Held], clause: &Clause) -> Result<bool, AllocError>
    ensures { IfOk result (λ b. b ≡ list_any (λ h. subsumes h.clause clause.now) held.now) }
{
    let mut places = Places::new(alloc);
    for one in held {
        if is_subsumed_by(&mut places, one.clause(), clause)? {
            return Ok(true);
        }
    }
    Ok(false)
}

// Whether one of a set has one literal, of which this one is an instance, or none: each that is found so subsumes a clause that
// has this literal.
fn has_short_above(set: &HeldSet, literal: &Literal, tries: &mut Tries) -> Result<bool, AllocError>
    ensures above { IfOk result (λ b. b ≡ has_short_above set.now (literal_of literal.now)) }
    ensures on { tries.old ≤ tries.new }
{
    set.has_short_above(literal.positive, &literal.atom, tries)
}

// Whether there is one for some literal of a clause.
#[tactic(auto, using(crate::proofs::Tests::literal_here, crate::proofs::Tests::literal_behind, crate::proofs::Tests::literal_end))]
fn is_subsumed_by_short(
    set: &HeldSet,
    clause: &Clause,
    tries: &mut Tries,
) -> Result<bool, AllocError>
    ensures subsumed { IfOk result (λ b. b ≡ list_any (has_short_above set.now) clause.now) }
    ensures on { tries.old ≤ tries.new }
{
    for literal in clause.as_slice() {
        if has_short_above(set, literal, tries)? {
            return Ok(true);
        }
    }
    Ok(false)
}

// Whether a clause has two literals or more and subsumes another one.
fn is_long_above<'a>(
    places: &mut Places<'a>,
    held: &Held,
    clause: &'a Clause,
) -> Result<bool, AllocError>
    ensures { IfOk result (λ b. b ≡ is_long_above clause.now held.now) }
{
    if is_short(held.clause()) {
        return Ok(false);
    }
    is_subsumed_by(places, held.clause(), clause)
}

// Whether one of some clauses that are lent does.
#[tactic(auto, using(crate::proofs::Tests::some_here, crate::proofs::Tests::some_behind, crate::proofs::Tests::some_end))]
fn has_long_above(alloc: Global, held: &[&Held], clause: &Clause) -> Result<bool, AllocError>
    ensures { IfOk result (λ b. b ≡ list_any (λ h. is_long_above clause.now h.now) held.now) }
{
    let mut places = Places::new(alloc);
    for one in held {
        if is_long_above(&mut places, one, clause)? {
            return Ok(true);
        }
    }
    Ok(false)
}

// Whether one of a set with two literals or more subsumes a clause; where that has one at most, none does.
fn is_subsumed_by_long(alloc: Global, set: &HeldSet, clause: &Clause) -> Result<bool, AllocError>
    ensures { IfOk result (λ b. b ≡ list_any (is_long_above clause.now) set.now) }
{
    if is_short(clause) {
        return Ok(false);
    }
    let held = set.long_above(clause)?;
    has_long_above(alloc, held.as_slice(), clause)
}

// Whether one of a set subsumes a clause.
#[tactic(auto, using(crate::proofs::Subsumed::by_long))]
fn is_subsumed_in(
    alloc: Global,
    set: &HeldSet,
    clause: &Clause,
    tries: &mut Tries,
) -> Result<bool, AllocError>
    ensures subsumed { IfOk result (λ b. b ≡ list_any (λ h. subsumes h.clause clause.now) set.now) }
    ensures on { tries.old ≤ tries.new }
{
    if clause.len() == 0 {
        return is_subsumed(alloc, set.as_slice(), clause);
    }
    if is_subsumed_by_short(set, clause, tries)? {
        return Ok(true);
    }
    is_subsumed_by_long(alloc, set, clause)
}

// Whether one of the clauses that are held subsumes another one.
#[tactic(auto, using(crate::proofs::Settling::some_held))]
fn is_subsumed_by_held(
    alloc: Global,
    search: &mut Search,
    clause: &Clause,
) -> Result<bool, AllocError>
    ensures subsumed { IfOk result (λ b. b ≡ list_any (λ h. subsumes h.clause clause.now)
        (all_held (state_of search.old))) }
    ensures waiting { search.new.waiting ≡ search.old.waiting }
    ensures state { state_of search.new ≡ state_of search.old }
    ensures on { search.old.tries ≤ search.new.tries }
{
    if is_subsumed_in(alloc, &search.waiting.held, clause, &mut search.tries)? {
        return Ok(true);
    }
    is_subsumed_in(alloc, &search.usable, clause, &mut search.tries)
}

// Whether a clause weighs too much and matches no hint.
fn is_too_heavy<'a>(
    alloc: Global,
    guide: &'a Guide<'_>,
    clause: &'a Clause,
) -> Result<bool, AllocError>
    requires { is_too_large clause.now ≡ false }
    ensures { IfOk result (λ b. b ≡ is_too_heavy (setting_of guide.now) clause.now) }
{
    let mut room = room_for(alloc, clause)?;
    if guide.weight_of(&mut room, clause) <= u64::from(guide.options.max_weight) {
        return Ok(false);
    }
    Ok(!guide.is_hinted(&mut room, clause))
}

// Whether a clause that is no input clause comes while enough wait, or weighs too much.
fn is_unwanted(
    alloc: Global,
    guide: &Guide<'_>,
    search: &Search,
    queued: &Queued,
) -> Result<bool, AllocError>
    requires { is_too_large queued.now.clause ≡ false }
    ensures { IfOk result (λ b. b ≡ is_unwanted (setting_of guide.now) (state_of search.now)
        (queued_of queued.now)) }
{
    if queued.input.is_some() {
        return Ok(false);
    }
    if guide.options.sos_limit as usize <= search.waiting.len() {
        return Ok(true);
    }
    is_too_heavy(alloc, guide, &queued.clause)
}

// Whether a clause is of no use: what is told sooner is asked before.
fn is_no_use(
    alloc: Global,
    guide: &Guide<'_>,
    search: &mut Search,
    queued: &Queued,
) -> Result<bool, AllocError>
    requires { is_too_large queued.now.clause ≡ false }
    ensures no_use { IfOk result (λ b. b ≡ is_no_use (setting_of guide.now) (state_of search.old)
        (queued_of queued.now)) }
    ensures waiting { search.new.waiting ≡ search.old.waiting }
    ensures state { state_of search.new ≡ state_of search.old }
    ensures on { search.old.tries ≤ search.new.tries }
{
    let clause = &queued.clause;
    if is_tautology(clause) {
        return Ok(true);
    }
    if guide.weighs_first {
        if is_unwanted(alloc, guide, search, queued)? {
            return Ok(true);
        }
        return is_subsumed_by_held(alloc, search, clause);
    }
    if is_subsumed_by_held(alloc, search, clause)? {
        return Ok(true);
    }
    is_unwanted(alloc, guide, search, queued)
}

// Whether there are as many proofs as were wanted.
fn has_proofs(guide: &Guide<'_>, search: &Search) -> bool
    ensures { result ≡ has_proofs (setting_of guide.now) (state_of search.now) }
{
    guide.options.max_proofs as usize <= search.proofs.len()
}

// Whether a clause is to be a rule.
fn becomes_rule(guide: &Guide<'_>, clause: &Clause) -> Result<bool, AllocError>
    ensures { IfOk result (λ b. b ≡ becomes_rule (setting_of guide.now).greater clause.now) }
{
    match clause.as_slice() {
        [literal] if literal.positive => is_oriented(&guide.precedence, &literal.atom),
        _ => Ok(false),
    }
}

// Those that a clause subsumes are retired, if they are to be.
fn subsumed_back(
    alloc: Global,
    guide: &Guide<'_>,
    search: &mut Search,
    held: &Held,
) -> Result<(), AllocError>
    requires { IsInOrder (state_of search.old) }
    ensures noted { OnOk result (StayNoted (setting_of guide.now) search.old.waiting
        search.new.waiting) }
    ensures state { OnOk result (state_of search.new ≡ subsumes_back (setting_of guide.now) held.now
        (state_of search.old)) }
    ensures on { search.old.tries ≤ search.new.tries }
{
    if guide.options.back_subsume {
        subsume_back(alloc, search, held)
    } else {
        Ok(())
    }
}

// A unit puts back the clauses from which it deletes a literal.
fn delete_back(
    alloc: Global,
    guide: &Guide<'_>,
    search: &mut Search,
    held: &Held,
) -> Result<(), AllocError>
    requires { IsInOrder (state_of search.old) }
    ensures noted { OnOk result (StayNoted (setting_of guide.now) search.old.waiting
        search.new.waiting) }
    ensures state { OnOk result (state_of search.new ≡ deletes_back (setting_of guide.now) held.now
        (state_of search.old)) }
    ensures on { search.old.tries ≤ search.new.tries }
{
    if is_unit(held.clause()) && guide.options.unit_deletion {
        put_back(alloc, Back::Deletes, search, held)
    } else {
        Ok(())
    }
}

// A clause becomes a rule, and puts back those that it rewrites.
fn rules_back(
    alloc: Global,
    guide: &Guide<'_>,
    search: &mut Search,
    held: &Held,
) -> Result<(), AllocError>
    requires ordered { IsInOrder (state_of search.old) }
    requires no_rule { IsNoRuleIn (state_of search.old) held.now.number }
    ensures noted { OnOk result (StayNoted (setting_of guide.now) search.old.waiting
        search.new.waiting) }
    ensures state { OnOk result (state_of search.new ≡ rules_back (setting_of guide.now) held.now
        (state_of search.old)) }
    ensures on { search.old.tries ≤ search.new.tries }
{
    steps_keep_order();
    if !becomes_rule(guide, held.clause())? {
        return Ok(());
    }
    search.rules.put_in(held.copy()?)?;
    if guide.options.back_demod {
        put_back(alloc, Back::Rewrites, search, held)
    } else {
        Ok(())
    }
}

// What a clause that is kept does to others, unless as many proofs are found as were wanted.
fn work_back(
    alloc: Global,
    guide: &Guide<'_>,
    search: &mut Search,
    held: &Held,
) -> Result<(), AllocError>
    requires ordered { IsInOrder (state_of search.old) }
    requires no_rule { IsNoRuleIn (state_of search.old) held.now.number }
    ensures noted { OnOk result (StayNoted (setting_of guide.now) search.old.waiting
        search.new.waiting) }
    ensures state { OnOk result (state_of search.new ≡ works_back (setting_of guide.now) held.now
        (state_of search.old)) }
    ensures on { search.old.tries ≤ search.new.tries }
{
    steps_keep_order();
    if has_proofs(guide, search) {
        return Ok(());
    }
    subsumed_back(alloc, guide, search, held)?;
    delete_back(alloc, guide, search, held)?;
    rules_back(alloc, guide, search, held)
}

// A clause that is kept meets the units, and then does what it does to others.
fn after_kept(
    alloc: Global,
    guide: &Guide<'_>,
    search: &mut Search,
    held: &Held,
) -> Result<(), AllocError>
    requires ordered { IsInOrder (state_of search.old) }
    requires no_rule { IsNoRuleIn (state_of search.old) held.now.number }
    ensures noted { OnOk result (StayNoted (setting_of guide.now) search.old.waiting
        search.new.waiting) }
    ensures state { OnOk result (state_of search.new ≡ after_kept (setting_of guide.now)
        (state_of search.old) held.now) }
    ensures on { search.old.tries ≤ search.new.tries }
{
    steps_keep_order();
    meet_units(alloc, search, held)?;
    work_back(alloc, guide, search, held)
}

// A clause that is rewritten and in order: the empty one is a proof, one of no use is dropped, any other one is kept.
fn settle(
    alloc: Global,
    guide: &Guide<'_>,
    search: &mut Search,
    queued: Queued,
) -> Result<(), AllocError>
    requires ordered { IsInOrder (state_of search.old) }
    requires unused { AllByRecursion (IsUnusedIn (state_of search.old))
        (input_numbers (queued_of queued ∷ [])) }
    requires small { is_too_large queued.clause ≡ false }
    requires noted { AreNoted (setting_of guide.now) search.old.waiting }
    ensures noted { OnOk result (AreNoted (setting_of guide.now) search.new.waiting) }
    ensures state { OnOk result (state_of search.new ≡ settled (setting_of guide.now)
        (state_of search.old) (queued_of queued)) }
    ensures on { search.old.tries ≤ search.new.tries }
{
    steps_keep_order();
    if queued.clause.len() == 0 {
        let line = keep_line(alloc, search, queued)?;
        return add_proof(search, line.number());
    }
    if is_no_use(alloc, guide, search, &queued)? {
        return Ok(());
    }
    let held = keep_queued(alloc, guide, search, queued)?;
    after_kept(alloc, guide, search, &held)
}

// Processing a clause with its words: one that is too large is counted and dropped.
fn process_built(
    alloc: Global,
    guide: &Guide<'_>,
    search: &mut Search,
    queued: Queued,
) -> Result<(), AllocError>
    requires ordered { IsInOrder (state_of search.old) }
    requires unused { AllByRecursion (IsUnusedIn (state_of search.old))
        (input_numbers (queued_of queued ∷ [])) }
    requires noted { AreNoted (setting_of guide.now) search.old.waiting }
    ensures noted { OnOk result (AreNoted (setting_of guide.now) search.new.waiting) }
    ensures state { OnOk result (state_of search.new ≡ processed (setting_of guide.now)
        (state_of search.old) (queued_of queued)) }
    ensures on { search.old.tries ≤ search.new.tries }
{
    if is_too_large(&queued.clause) {
        search.large = counted_on(search.large, 1);
        return Ok(());
    }
    let queued = tidied(alloc, guide, search, queued)?;
    settle(alloc, guide, search, queued)
}

// Processing what left the queue. What isn't built is too large.
fn process(
    alloc: Global,
    guide: &Guide<'_>,
    search: &mut Search,
    entry: QueueEntry,
) -> Result<(), AllocError>
    requires ordered { IsInOrder (state_of search.old) }
    requires unused { AllByRecursion (IsUnusedIn (state_of search.old))
        (input_numbers (entry_of entry ∷ [])) }
    requires noted { AreNoted (setting_of guide.now) search.old.waiting }
    ensures noted { OnOk result (AreNoted (setting_of guide.now) search.new.waiting) }
    ensures state { OnOk result (state_of search.new ≡ processed (setting_of guide.now)
        (state_of search.old) (entry_of entry)) }
    ensures on { search.old.tries ≤ search.new.tries }
{
    match entry {
        QueueEntry::Built(queued) => process_built(alloc, guide, search, queued),
        QueueEntry::Large(clause, _) => {
            clause.exceeds_limits();
            search.large = counted_on(search.large, 1);
            Ok(())
        }
    }
}

// The limit that is reached, if one is.
fn limit_reached(guide: &Guide<'_>, search: &Search) -> Option<Reason>
    ensures { option_map reason_of result ≡ limit_reached (setting_of guide.now)
        (state_of search.now) }
{
    if has_proofs(guide, search) {
        Some(Reason::Proved)
    } else if u64::from(guide.options.max_kept) <= search.kept {
        Some(Reason::KeptAll)
    } else if u64::from(guide.options.max_megs) * 65_536 <= search.symbols {
        Some(Reason::Filled)
    } else {
        None
    }
}

/// Processes what left the queue, and tests the limits.
pub fn process_under_limits(
    alloc: Global,
    guide: &Guide<'_>,
    search: &mut Search,
    entry: QueueEntry,
) -> Result<(), AllocError>
    requires ordered { IsInOrder (state_of search.old) }
    requires unused { AllByRecursion (IsUnusedIn (state_of search.old))
        (input_numbers (entry_of entry ∷ [])) }
    requires noted { AreNoted (setting_of guide.now) search.old.waiting }
    ensures noted { OnOk result (AreNoted (setting_of guide.now) search.new.waiting) }
    ensures state { OnOk result (state_of search.new ≡ under_limits (setting_of guide.now)
        (processed (setting_of guide.now) (state_of search.old) (entry_of entry))) }
    ensures on { search.old.tries ≤ search.new.tries }
{
    process(alloc, guide, search, entry)?;
    search.ended = limit_reached(guide, search);
    Ok(())
}
