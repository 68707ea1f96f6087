// What covering amounts to, and interpretations by names worked out.
ghost use Rattle.std.specs.Prelude.{◌≡◌, true, false, [], ◌∷◌, codes, MatchBool, map};
ghost use Rattle.fol_core.specs.Fol.{Fol};
ghost use Rattle.fol_core.specs.SymbolTable.{symbol};
ghost use Rattle.fol_core.specs.declared.symbols.Kind.TheVariants.{Function, Relation};
ghost use Rattle.ladr_commands.specs.ByName.{table, by_name};
ghost use Rattle.ladr_interpretations.specs.Covers.{Covers, covers};
ghost use Rattle.ladr_interpretations.specs.Good.{is_good, tables_for};
ghost use Rattle.ladr_interpretations.specs.Worked.{two, formulas};
ghost use Rattle.model_tables.specs.Tables.{Finite, listing};

/// Interpretations that are one or aren't, and the tables that one gives to symbols.
pub fn worked()
    ensures exchange { is_good (by_name 2 (table Function (codes "f") 1 (1 ∷ 0 ∷ []) ∷ [])) ≡ true }
    ensures empty { is_good (by_name 0 []) ≡ false }
    ensures large { is_good (by_name 201 []) ≡ false }
    ensures too_few { is_good (by_name 2 (table Function (codes "f") 1 (1 ∷ []) ∷ [])) ≡ false }
    ensures no_element { is_good (by_name 2 (table Function (codes "c") 0 (2 ∷ []) ∷ [])) ≡ false }
    ensures one_element { is_good (by_name 1 (table Relation (codes "p") 0 (1 ∷ []) ∷ [])) ≡ true }
    ensures no_truth { is_good (by_name 3 (table Relation (codes "p") 0 (2 ∷ []) ∷ [])) ≡ false }
    ensures twice { is_good (by_name 2 (table Function (codes "c") 0 (0 ∷ []) ∷ table Relation
        (codes "c") 0 (0 ∷ []) ∷ [])) ≡ false }
    ensures other_arity { is_good (by_name 2
        (table Function (codes "c") 0 (0 ∷ []) ∷ table Relation (codes "c") 1 (0 ∷ 1 ∷ []) ∷ []))
        ≡ true }
    ensures tables { tables_for (by_name 2 (table Function (codes "f") 1 (1 ∷ 0 ∷ []) ∷ []))
        (symbol (codes "p") 0 Relation ∷ symbol (codes "f") 1 Function ∷ [])
        ≡ record { top = 1; rows = listing Relation [] ∷ listing Function (1 ∷ 0 ∷ []) ∷ [] } }
{}

/// The test tells just whether each symbol has an entry and each number names an element.
pub fn covers_all()
    ensures { (t : Finite) (f : Fol) → MatchBool (covers t f) (Covers t f) (¬ Covers t f) }
{}

/// Two elements and two symbols: the third formula has a number that names no element, the fourth a symbol without an entry.
pub fn worked_covers()
    ensures covered { map (covers two) formulas ≡ true ∷ true ∷ false ∷ false ∷ [] }
{}
