// Laws of clauses, of every interpretation: the functions do nothing, and their contracts are the laws.
ghost use Rattle.std.specs.Prelude.{List, length, ◌≤◌};
ghost use Rattle.fol_core.specs.Literals.{equality};
ghost use Rattle.fol_core.specs.Meaning.{Meaning, IsLawful};
ghost use Rattle.fol_problem.specs.Stated.{Stated, IsWellFormed, AreNewTo};
ghost use Rattle.fol_core.specs.SymbolTable.{Symbol, KeepsNumbers};
ghost use Rattle.fol_core.specs.SkolemAxioms.{AreInOrder};
ghost use Rattle.clausify.specs.Behind.{SkolemsStandBehind};
ghost use Rattle.clausify.specs.Input.{axioms_in_table};
ghost use Rattle.clausify.specs.Laws.{ClausesSuffice, ClausesFollow};
ghost use Rattle.clausify.specs.Names.{HasNoSkolemRelation};
ghost use Rattle.clausify.specs.Worked.{WorkedIff, WorkedSingle, WorkedGoal, WorkedNames, WorkedNested, WorkedConstants, WorkedLimit, WorkedSymbols};

/// Where all clauses are true, each assumption is true and each goal false.
pub fn clauses_suffice()
    ensures { (m : Meaning) → IsLawful m → ClausesSuffice m }
{}

/// In an interpretation that picks witnesses the converse holds.
pub fn clauses_follow()
    ensures { (m : Meaning) → IsLawful m → ClausesFollow m }
{}

/// A table that has the problem's symbols alone is one that the Skolem symbols can be entered into.
pub fn own_table()
    ensures { (table : List Symbol) → HasNoSkolemRelation table table }
{}

/// Each Skolem symbol's body has those before it alone, and no formula has one, where there are no more of them than numbers
/// of symbols.
pub fn axioms_are_in_order()
    ensures order { (table : List Symbol) (p : Stated) → IsWellFormed p
        → length p.symbols ≤ equality → KeepsNumbers p.symbols table
        → length (axioms_in_table table p) ≤ equality → AreInOrder (axioms_in_table table p) }
    ensures new { (table : List Symbol) (p : Stated) → IsWellFormed p → length p.symbols ≤ equality
        → KeepsNumbers p.symbols table → length (axioms_in_table table p) ≤ equality
        → AreNewTo p.formulas (axioms_in_table table p) }
{}

/// The Skolem symbols stand behind all symbols of the problem, each for its witness, under names of their own.
pub fn skolems_stand_behind()
    ensures { SkolemsStandBehind }
{}

/// Some formulas worked out.
pub fn worked()
    ensures iff { WorkedIff }
    ensures single { WorkedSingle }
    ensures goal { WorkedGoal }
    ensures names { WorkedNames }
    ensures nested { WorkedNested }
    ensures constants { WorkedConstants }
    ensures limit { WorkedLimit }
    ensures symbols { WorkedSymbols }
{}
