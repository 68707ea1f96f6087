// Laws of what an input states: the functions do nothing, and their contracts are the laws.
ghost use Rattle.std.specs.Prelude.{◌≡◌, ◌<◌, ◌≤◌, ℕ, List, length};
ghost use Rattle.cell_search.specs.Finites.{AreTablesFor};
ghost use Rattle.clausify.specs.Behind.{StandBehind};
ghost use Rattle.clausify.specs.Input.{axioms_in_table};
ghost use Rattle.fol_core.specs.Literals.{equality};
ghost use Rattle.fol_core.specs.Meaning.{Meaning};
ghost use Rattle.fol_core.specs.SkolemAxioms.{AreInOrder};
ghost use Rattle.fol_problem.specs.Stated.{Stated, IsWellFormed, IsCountermodel, AreNewTo};
ghost use Rattle.ladr_cells.specs.Fitting.{FitsTable};
ghost use Rattle.ladr_cells.specs.Worlds.{CellsForAll, world_for};
ghost use Rattle.ladr_formulas.specs.declared.styles.Mode.{Mode};
ghost use Rattle.ladr_problem.specs.Growth.{Grown};
ghost use Rattle.ladr_problem.specs.Sofar.{Sofar, stated_in};
ghost use Rattle.mace_cells.specs.Solutions.{IsCarried};
ghost use Rattle.mace_cells.specs.World.{Solves, AreAlike};
ghost use Rattle.mace_cells.specs.declared.way.Way.{Way};
ghost use Rattle.mace_search.specs.Models.{IsModel};
ghost use Rattle.model_tables.specs.Expansion.{IsExpansion};
ghost use Rattle.model_tables.specs.Isomorphism.{IsIsomorphism};
ghost use Rattle.model_tables.specs.Size.{IsInterpretation};
ghost use Rattle.model_tables.specs.Tables.{Finite, meaning_of};

use clausify::{clauses_follow, clauses_suffice, skolems_stand_behind};

/// What has grown uses symbols as its table has them.
pub fn problems_fit()
    ensures { (m : Mode) (s : Sofar) → Grown m s → FitsTable (stated_in s) }
{}

/// Then each term of its clauses has cells.
pub fn cells_for_all()
    ensures { CellsForAll }
{
    skolems_stand_behind();
}

/// The solutions of the clauses in a size are what is stated, and each model of the problem's symbols with values for the Skolem
/// symbols is one.
pub fn solutions_are_models()
    ensures says { (p : Stated) (n : ℕ) (way : Way) → IsWellFormed p → length p.symbols ≤ equality
        → (m : Meaning) → Solves (world_for p n way) m → IsCountermodel m p.formulas }
    ensures each { (p : Stated) (n : ℕ) (way : Way) → IsWellFormed p → length p.symbols ≤ equality
        → AreInOrder (axioms_in_table p.symbols p)
        → AreNewTo p.formulas (axioms_in_table p.symbols p) → (t : Finite) → IsModel p n t
        → (e : Finite) × (IsExpansion t (axioms_in_table p.symbols p) e
        × Solves (world_for p n way) (meaning_of e)) }
{
    clauses_suffice();
    clauses_follow();
}

/// Tables with the values of an interpretation that is isomorphic to an expanded one are isomorphic to the tables expanded.
pub fn isomorphisms_are_carried()
    ensures { (p : Stated) (n : ℕ) (way : Way) → 0 < n → StandBehind p
        → AreNewTo p.formulas (axioms_in_table p.symbols p) → (t e u : Finite)
        → IsInterpretation n p t → IsExpansion t (axioms_in_table p.symbols p) e
        → (m : Meaning) → Solves (world_for p n way) m → (r : ℕ → ℕ) → (back : ℕ → ℕ)
        → IsCarried (world_for p n way).fixed r back (meaning_of e) m
        → AreTablesFor (world_for p n way) u → AreAlike (world_for p n way) m (meaning_of u) → IsIsomorphism n p r t u }
{}
