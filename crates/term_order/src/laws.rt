// Laws of orders of terms, and terms compared by hand.
ghost use Rattle.std.specs.Prelude.{ℕ, Bool, List, ◌≤◌};
ghost use Rattle.fol_core.specs.SymbolTable.{Symbol};
ghost use Rattle.term_order.specs.Kbo.{kbo_greater};
ghost use Rattle.term_order.specs.Laws.{IsSymbolOrder, IsTermOrder};
ghost use Rattle.term_order.specs.Listed.{TableIsOrdered};
ghost use Rattle.term_order.specs.Lpo.{lpo_greater};
ghost use Rattle.term_order.specs.Precedences.{stands_above};
ghost use Rattle.term_order.specs.declared.precedence.SymbolRow.{SymbolRow};
ghost use Rattle.term_order.specs.Worked.{WorkedPathOrder, WorkedWeightOrder, WorkedPrecedence};

/// Whatever the order of symbols, no term is above itself by the path order, what is above a term is above all below it, and
/// instances are ordered as their terms are.
pub fn lpo_is_order()
    ensures { (above : ℕ → ℕ → Bool) → IsSymbolOrder above → IsTermOrder (lpo_greater above) }
{}

/// So it is by the Knuth-Bendix order, where each symbol weighs at least 1.
pub fn kbo_is_order()
    ensures { (above : ℕ → ℕ → Bool) (weight : ℕ → ℕ) → IsSymbolOrder above
        → ((f : ℕ) → 1 ≤ weight f) → IsTermOrder (kbo_greater above weight) }
{}

/// Rows order the symbols.
pub fn symbols_are_ordered()
    ensures { (rows : List SymbolRow) → IsSymbolOrder (stands_above rows) }
{}

/// The rows of a table order its symbols as names are listed, and then by arity and by number.
pub fn tables_are_ordered()
    ensures { (listed : List (List ℕ)) (weights : List (List ℕ × ℕ)) (table : List Symbol)
        → TableIsOrdered listed weights table }
{}

/// Terms compared, and the symbols of a table.
pub fn worked()
    ensures path_order { WorkedPathOrder }
    ensures weight_order { WorkedWeightOrder }
    ensures precedence { WorkedPrecedence }
{}
