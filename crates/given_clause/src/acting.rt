// What a clause that is kept does to others.
ghost use Rattle.std.specs.Prelude.{◌≡◌, ◌≤◌, ◌++◌, [], ◌∷◌, true, not, ◌&&◌, IfOk, OnOk, filter, map};
ghost use Rattle.std.specs.List.{list_any};
ghost use Rattle.std.specs.Option.{option_map};
ghost use Rattle.derivation.specs.Later.{is_unit};
ghost use Rattle.derivation.specs.Places.{has_literal};
ghost use Rattle.given_clause.specs.Acting.{acts_on, may_put_back, may_conflict, word_for, conflicts_with, first_in};
ghost use Rattle.given_clause.specs.Noted.{StayNoted};
ghost use Rattle.given_clause.specs.States.{entry_of, state_of};
ghost use Rattle.held_clauses.specs.Holding.{lent};
ghost use Rattle.prover_steps.specs.Clashing.{is_same_held};
ghost use Rattle.prover_steps.specs.HeldOrder.{IsInOrder};
ghost use Rattle.prover_steps.specs.Searching.{Setting, all_held, others_held, retires, puts_back, queued_back, unit_meets};
ghost use Rattle.prover_steps.specs.Shortening.{denies};
ghost use Rattle.prover_steps.specs.Subsuming.{subsumes};
ghost use Rattle.resolution.specs.View.{conclusion_of};

use crate::keeping::{add_proof, keep_line};
use crate::lists::merged;
use crate::state::{QueueEntry, Queued, Search};
use clause_index::HeldSet;
use demodulate::{denies, rewrites_clause};
use derivation::{First, atom_at, has_literal};
use discrim_tree::Tries;
use fol_core::{Clause, Term};
use held_clauses::{Held, rule_left};
use resolution::{Conclusion, add_resolvent};
use std::alloc::{AllocError, Global};
use std::collections::VecDeque;
use subsume::{Places, subsumes};

/// It deletes a literal of a clause, or rewrites it: the clause is put back.
#[derive(Clone, Copy)]
pub enum Back {
    Deletes,
    Rewrites,
}

/// It subsumes a clause, or puts it back.
#[derive(Clone, Copy)]
pub enum Act {
    Subsumes,
    PutsBack(Back),
}

/// Whether a clause is a unit.
pub fn is_unit(clause: &Clause) -> bool
    ensures { result ≡ is_unit clause.now }
{
    clause.len() == 1
}

/// Whether a clause subsumes another one, in room that is made for it.
pub fn is_subsumed_by<'a>(
    places: &mut Places<'a>,
    clause: &Clause,
    other: &'a Clause,
) -> Result<bool, AllocError>
    ensures { IfOk result (λ b. b ≡ subsumes clause.now other.now) }
{
    places.reserve_for(clause)?;
    Ok(subsumes(places, clause, other))
}

// Whether a unit denies a literal of a clause.
#[tactic(auto, using(crate::proofs::Tests::literal_here, crate::proofs::Tests::literal_behind, crate::proofs::Tests::literal_end))]
fn denies_some(alloc: Global, unit: &Held, clause: &Clause) -> Result<bool, AllocError>
    ensures { IfOk result (λ b. b ≡ list_any (denies unit.now) clause.now) }
{
    for literal in clause.as_slice() {
        if denies(alloc, unit, literal)? {
            return Ok(true);
        }
    }
    Ok(false)
}

// Whether a clause does so to another one.
fn acts_on(alloc: Global, act: Act, held: &Held, clause: &Clause) -> Result<bool, AllocError>
    ensures { IfOk result (λ b. b ≡ acts_on act held.now clause.now) }
{
    match act {
        Act::Subsumes => is_subsumed_by(&mut Places::new(alloc), held.clause(), clause),
        Act::PutsBack(Back::Deletes) => denies_some(alloc, held, clause),
        Act::PutsBack(Back::Rewrites) => rewrites_clause(alloc, held, clause),
    }
}

// Whether it does so to another clause that is held, and not to itself.
fn acts_on_other(alloc: Global, act: Act, held: &Held, other: &Held) -> Result<bool, AllocError>
    ensures { IfOk result (λ b. b ≡ (not (is_same_held held.now other.now)
        && acts_on act held.now other.now.clause)) }
{
    if held.number() == other.number() {
        return Ok(false);
    }
    acts_on(alloc, act, held, other.clause())
}

// The clauses of a set that a clause may put back: those with a literal of the other sign that is an instance of its first
// one, or with an instance of the left side of its equation.
fn near_put_back<'a>(back: Back, set: &'a HeldSet, held: &Held) -> Result<Vec<&'a Held>, AllocError>
    ensures { IfOk result (λ hs. lent hs.items
        ≡ filter (may_put_back back held.now) set.now) }
{
    let clause = held.clause();
    let variable = Term::Var(0);
    let atom = atom_at(clause, 0).unwrap_or(&variable);
    match back {
        Back::Deletes => set.with_instance(!has_literal(clause, true, 0), atom),
        Back::Rewrites => set.with_instance_inside(rule_left(held).unwrap_or(&variable)),
    }
}

// Clauses of a set, among them all to which a clause does so.
fn near<'a>(act: Act, set: &'a HeldSet, held: &Held) -> Result<Vec<&'a Held>, AllocError>
    ensures { IfOk result (λ hs. filter (λ d. acts_on act held.now d.clause) (lent hs.items)
        ≡ filter (λ d. acts_on act held.now d.clause) set.now) }
{
    match act {
        Act::Subsumes => set.near_below(held.clause()),
        Act::PutsBack(back) => near_put_back(back, set, held),
    }
}

// The clauses of a list to which another one does so, it itself left out.
fn others_among<'a>(
    alloc: Global,
    act: Act,
    list: &[&'a Held],
    held: &Held,
) -> Result<Vec<&'a Held>, AllocError>
    ensures { IfOk result (λ hs. lent hs.items ≡ filter (λ d. not (is_same_held held.now d)
        && acts_on act held.now d.clause) (lent list.now)) }
{
    let mut others = Vec::new(alloc);
    for other in list {
        if acts_on_other(alloc, act, held, other)? {
            others.push(*other)?;
        }
    }
    Ok(others)
}

// Those of a set.
fn others_in<'a>(
    alloc: Global,
    act: Act,
    set: &'a HeldSet,
    held: &Held,
) -> Result<Vec<&'a Held>, AllocError>
    ensures { IfOk result (λ hs. lent hs.items ≡ filter (λ d. not (is_same_held held.now d)
        && acts_on act held.now d.clause) set.now) }
{
    let near = near(act, set, held)?;
    others_among(alloc, act, near.as_slice(), held)
}

// Copies of clauses that are lent.
fn copies_of(alloc: Global, held: &[&Held]) -> Result<Vec<Held>, AllocError>
    ensures { IfOk result (λ hs. hs.items ≡ lent held.now) }
{
    let mut copies = Vec::new(alloc);
    for one in held {
        copies.push(one.copy()?)?;
    }
    Ok(copies)
}

// Copies of the clauses that are held to which another one does so, by their numbers.
fn others_held(
    alloc: Global,
    act: Act,
    search: &Search,
    held: &Held,
) -> Result<Vec<Held>, AllocError>
    requires { IsInOrder (state_of search.now) }
    ensures { IfOk result (λ hs. hs.items ≡ others_held held.now (acts_on act held.now)
        (state_of search.now)) }
{
    let waiting = others_in(alloc, act, &search.waiting.held, held)?;
    let usable = others_in(alloc, act, &search.usable, held)?;
    let others = merged(alloc, waiting.as_slice(), usable.as_slice())?;
    copies_of(alloc, others.as_slice())
}

// Clauses are retired.
fn retire(gone: &[Held], search: &mut Search)
    ensures noted { (st : Setting) → StayNoted st search.old.waiting search.new.waiting }
    ensures state { state_of search.new ≡ retires gone.now (state_of search.old) }
    ensures on { search.old.tries ≤ search.new.tries }
{
    search.waiting.leave_out(gone);
    search.usable.leave_out(gone);
    search.rules.leave_out(gone);
}

// A clause that is put back, with the word for it.
fn queued_back(alloc: Global, back: Back, held: &Held) -> Result<QueueEntry, AllocError>
    ensures { IfOk result (λ entry. entry_of entry ≡ queued_back (word_for back) held.now) }
{
    let number = held.number();
    let first = match back {
        Back::Deletes => First::BackUnitDel(number),
        Back::Rewrites => First::BackRewrite(number),
    };
    Ok(QueueEntry::Built(Queued {
        clause: held.clause().copy(alloc)?,
        first,
        later: Vec::new(alloc),
        input: None,
        usable: false,
    }))
}

// Clauses that are put back, in their order.
fn all_queued_back(
    alloc: Global,
    back: Back,
    mut gone: Vec<Held>,
) -> Result<VecDeque<QueueEntry>, AllocError>
    ensures { IfOk result (λ qs. map entry_of qs.items
        ≡ map (queued_back (word_for back)) gone.items) }
{
    let mut queue = VecDeque::new(alloc);
    while let Some(held) = gone.pop() {
        queue.push_front(queued_back(alloc, back, &held)?)?;
    }
    Ok(queue)
}

// Clauses are queued behind all others.
fn queue_back(
    alloc: Global,
    back: Back,
    gone: Vec<Held>,
    search: &mut Search,
) -> Result<(), AllocError>
    ensures waiting { OnOk result (search.new.waiting ≡ search.old.waiting) }
    ensures state { OnOk result (state_of search.new ≡ record (state_of search.old) {
      queue = (state_of search.old).queue ++ map (queued_back (word_for back)) gone.items;
    }) }
    ensures on { search.old.tries ≤ search.new.tries }
{
    let mut queue = all_queued_back(alloc, back, gone)?;
    search.queue.append(&mut queue)
}

/// Those that a clause subsumes are retired.
pub fn subsume_back(alloc: Global, search: &mut Search, held: &Held) -> Result<(), AllocError>
    requires { IsInOrder (state_of search.old) }
    ensures noted { OnOk result
        ((st : Setting) → StayNoted st search.old.waiting search.new.waiting) }
    ensures state { OnOk result (state_of search.new ≡ retires (others_held held.now
        (acts_on Act.Subsumes held.now) (state_of search.old)) (state_of search.old)) }
    ensures on { search.old.tries ≤ search.new.tries }
{
    let gone = others_held(alloc, Act::Subsumes, search, held)?;
    retire(gone.as_slice(), search);
    Ok(())
}

/// Those from which it deletes a literal, or that it rewrites, are put back.
pub fn put_back(
    alloc: Global,
    back: Back,
    search: &mut Search,
    held: &Held,
) -> Result<(), AllocError>
    requires { IsInOrder (state_of search.old) }
    ensures noted { OnOk result
        ((st : Setting) → StayNoted st search.old.waiting search.new.waiting) }
    ensures state { OnOk result (state_of search.new ≡ puts_back (word_for back)
        (others_held held.now (acts_on (Act.PutsBack back) held.now) (state_of search.old))
        (state_of search.old)) }
    ensures on { search.old.tries ≤ search.new.tries }
{
    let gone = others_held(alloc, Act::PutsBack(back), search, held)?;
    retire(gone.as_slice(), search);
    queue_back(alloc, back, gone, search)
}

// What a clause makes of another one, if that is a unit.
fn conflict_with(alloc: Global, unit: &Held, held: &Held) -> Result<Option<Conclusion>, AllocError>
    ensures { IfOk result (λ o. option_map conclusion_of o
        ≡ first_in (conflicts_with (unit.now ∷ []) held.now)) }
{
    if !is_unit(unit.clause()) {
        return Ok(None);
    }
    let mut made = Vec::new(alloc);
    add_resolvent(alloc, held, 0, unit, 0, &mut made)?;
    Ok(made.pop())
}

// What a clause makes of the first unit with which it makes something.
#[tactic(auto, using(crate::proofs::Conflicts::conflict_here, crate::proofs::Conflicts::conflict_behind, crate::proofs::Conflicts::conflict_end))]
fn first_conflict(
    alloc: Global,
    units: &[&Held],
    held: &Held,
) -> Result<Option<Conclusion>, AllocError>
    ensures { IfOk result (λ o. option_map conclusion_of o
        ≡ first_in (conflicts_with (lent units.now) held.now)) }
{
    for unit in units {
        if let Some(conclusion) = conflict_with(alloc, unit, held)? {
            return Ok(Some(conclusion));
        }
    }
    Ok(None)
}

// The units of a set that may meet the first literal of a clause, and the clauses without literals.
fn opposing<'a>(
    set: &'a HeldSet,
    held: &Held,
    tries: &mut Tries,
) -> Result<Vec<&'a Held>, AllocError>
    ensures found { IfOk result (λ hs. lent hs.items ≡ filter (may_conflict held.now) set.now) }
    ensures on { tries.old ≤ tries.new }
{
    let clause = held.clause();
    let variable = Term::Var(0);
    set.short_unifiable(
        !has_literal(clause, true, 0),
        atom_at(clause, 0).unwrap_or(&variable),
        tries,
    )
}

// What a clause makes of the first unit that is held with which it makes something.
fn conflict(
    alloc: Global,
    search: &mut Search,
    held: &Held,
) -> Result<Option<Conclusion>, AllocError>
    requires { IsInOrder (state_of search.old) }
    ensures made { IfOk result (λ o. option_map conclusion_of o
        ≡ first_in (conflicts_with (all_held (state_of search.old)) held.now)) }
    ensures waiting { search.new.waiting ≡ search.old.waiting }
    ensures state { state_of search.new ≡ state_of search.old }
    ensures on { search.old.tries ≤ search.new.tries }
{
    let waiting = opposing(&search.waiting.held, held, &mut search.tries)?;
    let usable = opposing(&search.usable, held, &mut search.tries)?;
    let units = merged(alloc, waiting.as_slice(), usable.as_slice())?;
    first_conflict(alloc, units.as_slice(), held)
}

/// A unit gives a proof with the first unit that is opposite and unifies: what they make is the empty clause.
#[tactic(auto, using(crate::proofs::Conflicts::conflict_met))]
pub fn meet_units(alloc: Global, search: &mut Search, held: &Held) -> Result<(), AllocError>
    requires { IsInOrder (state_of search.old) }
    ensures waiting { OnOk result (search.new.waiting ≡ search.old.waiting) }
    ensures state { OnOk result (state_of search.new ≡ unit_meets (state_of search.old) held.now) }
    ensures on { search.old.tries ≤ search.new.tries }
{
    if !is_unit(held.clause()) {
        return Ok(());
    }
    let Some(conclusion) = conflict(alloc, search, held)? else {
        return Ok(());
    };
    let queued = Queued {
        clause: Clause::new(alloc),
        first: conclusion.first,
        later: Vec::new(alloc),
        input: None,
        usable: false,
    };
    let line = keep_line(alloc, search, queued)?;
    add_proof(search, line.number())
}
