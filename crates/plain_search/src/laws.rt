// Laws of the plain search: the functions do nothing, and their contracts are the laws.
ghost use Rattle.std.specs.Prelude.{◌≡◌, [], ◌∷◌, ◌++◌, true, false, None, Some, IfSome};
ghost use Rattle.std.specs.List.{AllByRecursion};
ghost use Rattle.mace_cells.specs.declared.way.Candidates.TheVariants.{All, LeastIndex, InUse};
ghost use Rattle.mace_cells.specs.declared.way.CellMeasure.TheVariants.{First, MostCrossed};
ghost use Rattle.plain_search.specs.Closing.{closure};
ghost use Rattle.plain_search.specs.Fitting.{IsClauseOfCells};
ghost use Rattle.plain_search.specs.Lefts.{all_left};
ghost use Rattle.plain_search.specs.PlainLaws.{ClosureKeeps, ContradictionsRefute, IsClosed, ClosureIsClosed, AllAtFirst, LeavesReachAll, LeavesAreModels, LeavesAreFull};
ghost use Rattle.plain_search.specs.Trying.{assignments, contradictions, occurrences, score};
ghost use Rattle.plain_search.specs.Worked.{constant_at, g_at, four, pair, moving, scores_in, chosen_first, world, spreading, denial, turning, fixing, reflecting, p_at, f_at, way, mapping, involution, naming, apart, turned, b_cell, single, decided, chosen_by, tried_by, found_in};

/// Closing a partial table loses no solution, and where it meets a contradiction there was none.
pub fn closing_is_sound()
    ensures first { AllAtFirst }
    ensures keeps { ClosureKeeps }
    ensures refutes { ContradictionsRefute }
{}

/// A pass over a closure changes nothing, where all terms of the clauses have cells.
pub fn closure_is_closed()
    ensures { ClosureIsClosed }
{}

/// What the search finds has a value in each cell and is a model, where all terms of the clauses
/// have cells.
pub fn leaves_are_models()
    ensures models { LeavesAreModels }
    ensures full { LeavesAreFull }
{}

/// Where all values are tried, the search finds each solution.
pub fn leaves_reach_all()
    ensures { LeavesReachAll }
{}

/// All terms of `p(0)`, `f(0) = 1` and `-p(x) | p(f(x))` have cells, where `p` and `f` have. A
/// closure assigns the cells of `p` and the first of `f`, of which the other has both values left;
/// with `-p(1)` it meets a contradiction. While `f(0)` has no value, `f(0) = f(0)` isn't decided. Of
/// four elements `b != 0` and `b != 1` leave two, and none together with `1 = b`, which alone
/// assigns it.
pub fn worked_closures()
    ensures fits { AllByRecursion (IsClauseOfCells (world spreading)) spreading }
    ensures begins_open { ¬ IsClosed (world spreading) (all_left (world spreading)) }
    ensures spreads { IfSome (closure (world spreading) (all_left (world spreading)))
        (λ q. (q (p_at 0) ≡ 1 ∷ []) × (q (p_at 1) ≡ 1 ∷ []) × (q (f_at 0) ≡ 1 ∷ [])
        × (q (f_at 1) ≡ 0 ∷ 1 ∷ [])) }
    ensures contradicts { closure (world (denial ∷ spreading))
        (all_left (world (denial ∷ spreading))) ≡ None }
    ensures reflects { IfSome (closure (world reflecting) (all_left (world reflecting)))
        (λ q. (q (p_at 0) ≡ 0 ∷ 1 ∷ []) × (q (f_at 0) ≡ 0 ∷ 1 ∷ [])) }
    ensures crosses { IfSome (closure (naming apart) (all_left (naming apart)))
        (λ q. q b_cell ≡ 2 ∷ 3 ∷ []) }
    ensures assigns { IfSome (closure (naming (turned ∷ [])) (all_left (naming (turned ∷ []))))
        (λ q. q b_cell ≡ 1 ∷ []) }
    ensures empties { closure (naming (apart ++ turned ∷ []))
        (all_left (naming (apart ++ turned ∷ []))) ≡ None }
{}

/// Of four cells of `f`, one of them with no value crossed off, two with one and the last with two:
/// the first is chosen, or the one with most crossed off, among all, those of least index, or those
/// of an index in use; the first of two that have as many. Numbers in use are those of a relation's
/// value too. By the least-number heuristic values are tried up to the first that isn't in use.
pub fn worked_choices()
    ensures first { chosen_by All First [] ≡ Some (f_at 0) }
    ensures most { chosen_by All MostCrossed [] ≡ Some (f_at 3) }
    ensures least { chosen_by LeastIndex MostCrossed (decided 1) ≡ Some (f_at 0) }
    ensures none_in_use { chosen_by InUse MostCrossed [] ≡ Some (f_at 0) }
    ensures in_use { chosen_by InUse MostCrossed (decided 1) ≡ Some (f_at 1) }
    ensures alike { chosen_by InUse MostCrossed (decided 2) ≡ Some (f_at 1) }
    ensures up_to { tried_by true (decided 1) ≡ 0 ∷ 1 ∷ 2 ∷ [] }
    ensures all { tried_by false (decided 1) ≡ 0 ∷ 1 ∷ 2 ∷ 3 ∷ [] }
{}

/// The scores of cells. Of `a != 0 | b != 0`, `b != c` and `d = d` with two elements: in how many
/// clauses each constant is a side, `d = d` among them while `d` has no value; and how many other
/// constants the values of each assign. Of `f(f(x)) = x`, `g(f(0)) = 1` and `g(2) != 1` with three:
/// inner occurrences are no sides, and `g(2)` is one though 1 is crossed off; the value 2 of `f(0)`
/// and of `f(2)` meets a contradiction, before which it assigned cells that don't count. All values
/// that are left are tried, also those above what a search tries first.
pub fn worked_scores()
    ensures occurrences { scores_in occurrences four ≡ 1 ∷ 2 ∷ 1 ∷ 1 ∷ [] }
    ensures assignments { scores_in assignments four ≡ 2 ∷ 3 ∷ 3 ∷ 0 ∷ [] }
    ensures contradictions { scores_in contradictions four ≡ 0 ∷ 0 ∷ 0 ∷ 0 ∷ [] }
    ensures most_occurrences { chosen_first occurrences four ≡ Some (constant_at 3) }
    ensures most_assigned { chosen_first assignments four ≡ Some (constant_at 3) }
    ensures inner { scores_in occurrences pair ≡ 0 ∷ 0 ∷ 0 ∷ 0 ∷ 0 ∷ 1 ∷ [] }
    ensures assigning { scores_in assignments pair ≡ 3 ∷ 3 ∷ 1 ∷ 0 ∷ 0 ∷ 0 ∷ [] }
    ensures contradicting { scores_in contradictions pair ≡ 1 ∷ 0 ∷ 1 ∷ 0 ∷ 0 ∷ 0 ∷ [] }
    ensures crossed { scores_in (score MostCrossed) pair ≡ 0 ∷ 0 ∷ 0 ∷ 0 ∷ 0 ∷ 1 ∷ [] }
    ensures by_occurrences { chosen_first occurrences pair ≡ Some (g_at 2) }
    ensures by_assignments { chosen_first assignments pair ≡ Some (f_at 0) }
    ensures by_contradictions { chosen_first contradictions pair ≡ Some (f_at 0) }
    ensures all_values { scores_in assignments moving ≡ 3 ∷ 3 ∷ 3 ∷ 3 ∷ [] }
{}

/// `f(f(x)) = x` has two models of two elements, where `f` leaves the elements or exchanges them,
/// and with `f(0) = 0` one; the cells are those of `p` and then those of `f`. Of three elements it
/// has four, of which the least-number heuristic finds three. Of four elements `b` is the first that
/// the clauses don't name; with one, a relation has two values still.
pub fn worked_searches()
    ensures two { found_in (world turning)
        ≡ ((1 ∷ []) ∷ (1 ∷ []) ∷ (0 ∷ []) ∷ (1 ∷ []) ∷ [])
        ∷ ((1 ∷ []) ∷ (1 ∷ []) ∷ (1 ∷ []) ∷ (0 ∷ []) ∷ []) ∷ [] }
    ensures one { found_in (world (fixing ∷ turning))
        ≡ ((1 ∷ []) ∷ (1 ∷ []) ∷ (0 ∷ []) ∷ (1 ∷ []) ∷ []) ∷ [] }
    ensures three { found_in (mapping 3 (way InUse MostCrossed true) involution)
        ≡ ((0 ∷ []) ∷ (1 ∷ []) ∷ (2 ∷ []) ∷ []) ∷ ((0 ∷ []) ∷ (2 ∷ []) ∷ (1 ∷ []) ∷ [])
        ∷ ((1 ∷ []) ∷ (0 ∷ []) ∷ (2 ∷ []) ∷ []) ∷ [] }
    ensures four { found_in (mapping 3 (way InUse MostCrossed false) involution)
        ≡ ((0 ∷ []) ∷ (1 ∷ []) ∷ (2 ∷ []) ∷ []) ∷ ((0 ∷ []) ∷ (2 ∷ []) ∷ (1 ∷ []) ∷ [])
        ∷ ((1 ∷ []) ∷ (0 ∷ []) ∷ (2 ∷ []) ∷ []) ∷ ((2 ∷ []) ∷ (1 ∷ []) ∷ (0 ∷ []) ∷ []) ∷ [] }
    ensures named { found_in (naming apart) ≡ ((2 ∷ []) ∷ []) ∷ [] }
    ensures single { found_in single
        ≡ ((0 ∷ []) ∷ (0 ∷ []) ∷ []) ∷ ((1 ∷ []) ∷ (0 ∷ []) ∷ []) ∷ [] }
{}
