// Laws of the order in which the plain search closes tables and comes to its leaves.
ghost use Rattle.std.specs.Prelude.{◌≡◌, [], ◌∷◌, ◌++◌, true, false, None, Some, IfSome};
ghost use Rattle.mace_ground.specs.Instances.{assigned_by};
ghost use Rattle.plain_search.specs.Closing.{asks, nothing, pass, told};
ghost use Rattle.plain_search.specs.Coming.{AllIsToCome, LeavesAreFound, SearchGoesOn, tries, within};
ghost use Rattle.plain_search.specs.Lefts.{all_left, with_left};
ghost use Rattle.plain_search.specs.Meeting.{LeavesCover, NextBySearch, RefutedBySearch, SettledBySearch, UndecidedBySearch};
ghost use Rattle.plain_search.specs.Orders.{ClosureInAnyOrder, ClosureIsWidest, ContradictionInAnyOrder, NoneIsClosed, Obeys};
ghost use Rattle.plain_search.specs.Parting.{LeavesDiffer, LeavesPart, LeavesSolve};
ghost use Rattle.plain_search.specs.Waking.{LookSuffices, StaysTold, ToldByValues};
ghost use Rattle.plain_search.specs.Worked.{world, spreading, denial, denied, implying, backwards, one_known, two_known, p_at, f_at, freely, events_in, come_with};

/// Closing has one result, whatever instances are gone over, in whatever order and however often: the
/// widest closed table, or a contradiction.
pub fn closing_has_one_result()
    ensures order { ClosureInAnyOrder }
    ensures contradiction { ContradictionInAnyOrder }
    ensures widest { ClosureIsWidest }
    ensures none { NoneIsClosed }
{}

/// Instances that don't meet a cell needn't be looked at when it gets a value, and one look at the
/// others is enough.
pub fn looks_suffice()
    ensures stays { StaysTold }
    ensures values { ToldByValues }
    ensures looks { LookSuffices }
{}

/// The events of the plain search have its leaves, and each step of a search by choices takes from
/// what is to come the events that it stands for.
pub fn searches_go_on()
    ensures leaves { LeavesAreFound }
    ensures all { AllIsToCome }
    ensures steps { SearchGoesOn }
{}

/// No two leaves are the same, already by their values in the cells of the world.
pub fn leaves_differ()
    ensures differ { LeavesDiffer }
    ensures part { LeavesPart }
{}

/// Each leaf is a solution, with the values that it has left, where all terms of the clauses have cells.
pub fn leaves_solve()
    ensures { LeavesSolve }
{}

/// The table that decisions lead to tells which solutions agree with them: none, where closing met a
/// contradiction; one, where no cell is open; and a cell's next value. Where the values that are tried
/// bound the cells, each solution is isomorphic to one that extends a leaf.
pub fn tables_meet_solutions()
    ensures refuted { RefutedBySearch }
    ensures next { NextBySearch }
    ensures undecided { UndecidedBySearch }
    ensures settled { SettledBySearch }
    ensures covered { LeavesCover }
{}

/// Gone over backwards, `p(0)`, `f(0) = 1` and the instances of `-p(x) | p(f(x))` need two passes for
/// what closure comes to, and with `-p(1)` two for the contradiction. The instance with 0 asks for
/// `p(1)` once both `p(0)` and `f(0)` have values.
pub fn worked_orders()
    ensures spreads { IfSome (pass 2 (backwards ++ backwards) (all_left (world spreading)))
        (λ q. (q (p_at 0) ≡ 1 ∷ []) × (q (p_at 1) ≡ 1 ∷ []) × (q (f_at 0) ≡ 1 ∷ [])
        × (q (f_at 1) ≡ 0 ∷ 1 ∷ [])) }
    ensures once { IfSome (pass 2 backwards (all_left (world spreading)))
        (λ q. q (p_at 1) ≡ 0 ∷ 1 ∷ []) }
    ensures contradicts { pass 2 (denied ++ denied)
        (all_left (world (denial ∷ spreading))) ≡ None }
    ensures waits { told 2 one_known (assigned_by (0 ∷ [])) implying ≡ nothing }
    ensures asks { told 2 two_known (assigned_by (0 ∷ [])) implying ≡ asks (p_at 1) 1 true }
    ensures obeys { Obeys (with_left two_known (p_at 1) (1 ∷ [])) (asks (p_at 1) 1 true) }
{}

/// A search for `f(f(x)) = x` on two elements chooses `f(0)` and gives it 0; chooses `f(1)`, which
/// leads to a contradiction with 0 and to a leaf with 1; and finds the other leaf with `f(0)` 1, where
/// closing gives `f(1)` its value. What is still to come shrinks from choice to choice.
pub fn worked_events()
    ensures all { events_in freely
        ≡ None ∷ None ∷ Some ((0 ∷ []) ∷ (1 ∷ []) ∷ []) ∷ Some ((1 ∷ []) ∷ (0 ∷ []) ∷ []) ∷ [] }
    ensures followed { come_with true (tries (f_at 0) 0 1 ∷ [])
        ≡ None ∷ Some ((0 ∷ []) ∷ (1 ∷ []) ∷ []) ∷ Some ((1 ∷ []) ∷ (0 ∷ []) ∷ []) ∷ [] }
    ensures two { come_with false (tries (f_at 1) 0 1 ∷ tries (f_at 0) 0 1 ∷ [])
        ≡ Some ((0 ∷ []) ∷ (1 ∷ []) ∷ []) ∷ Some ((1 ∷ []) ∷ (0 ∷ []) ∷ []) ∷ [] }
    ensures left { come_with false (tries (f_at 0) 0 1 ∷ [])
        ≡ Some ((1 ∷ []) ∷ (0 ∷ []) ∷ []) ∷ [] }
    ensures over { come_with false (tries (f_at 0) 1 1 ∷ []) ≡ [] }
    ensures within { within 1 3 (0 ∷ 1 ∷ 3 ∷ 4 ∷ []) ≡ 1 ∷ 3 ∷ [] }
{}
