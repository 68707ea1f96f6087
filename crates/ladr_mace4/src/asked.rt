// A problem to search the models of.
ghost use Rattle.std.specs.Prelude.{◌≡◌, ◌-◌, ◌^◌, ◌≤◌, ◌<◌, ℕ, [], true, min, length, None, Some, Err, IfOk, OnOk};
ghost use Rattle.cell_search.specs.Courses.{beginning};
ghost use Rattle.cell_search.specs.Finites.{tables_over};
ghost use Rattle.clausify.specs.Input.{first_over};
ghost use Rattle.fol_core.specs.Literals.{equality};
ghost use Rattle.fol_core.specs.Occurs.{size_needed};
ghost use Rattle.fol_problem.specs.Stated.{stated_of, IsWellFormed};
ghost use Rattle.ladr_cells.specs.Fitting.{FitsTable};
ghost use Rattle.ladr_cells.specs.Worlds.{world_for, ground_size};
ghost use Rattle.ladr_mace4.specs.Skolems.{all_symbols, all_axioms};
ghost use Rattle.model_tables.specs.ModelText.{model_text};
ghost use Rattle.model_tables.specs.Size.{formulas_of};

use cell_search::CellSearch;
use clausify::{ClauseError, clauses_of, own_table};
use fol_core::{Clauses, Entry, Symbols};
use fol_problem::Problem;
use ladr_cells::cells_for_all;
use mace_cells::Way;
use mace_ground::count;
use model_tables::{Tables, interpretation_text};
use std::alloc::{AllocError, Global};
use std::marker::Model;

/// A problem, and the Skolem symbols of its clauses.
#[derive(Drop)]
pub struct Asked<'a> {
    pub problem: &'a Problem,
    pub symbols: Symbols,
    pub clauses: Clauses,
}

impl<'a> Model for Asked<'a> {
    ghost use Rattle.std.specs.Prelude.{◌≡◌, ◌≤◌, length, map};
    ghost use Rattle.clausify.specs.Input.{used_symbols, clauses_in_table, numeral_of};
    ghost use Rattle.fol_core.specs.Literals.{equality};
    ghost use Rattle.fol_core.specs.EntryView.{skolem_axiom_of};
    ghost use Rattle.fol_problem.specs.Stated.{Stated, stated_of, IsWellFormed};
    ghost use Rattle.fol_problem.specs.StatedCodes.{coded_stated};
    ghost use Rattle.ladr_cells.specs.Fitting.{FitsTable};
    ghost use Rattle.ladr_mace4.specs.Skolems.{all_symbols, all_axioms};

    ghost Value = { Stated };

    ghost coded = { coded_stated };

    ghost view = { λ a. stated_of a.problem.now };

    ghost invariant = { λ a. record {
      symbols : a.symbols ≡ all_symbols (stated_of a.problem.now);
      clauses : a.clauses.clauses.items
          ≡ clauses_in_table (stated_of a.problem.now).symbols (stated_of a.problem.now);
      witnesses : map skolem_axiom_of a.clauses.skolem.items ≡ all_axioms (stated_of a.problem.now);
      used : map (λ s. s.0) a.clauses.symbols.items
          ≡ used_symbols (stated_of a.problem.now).symbols (stated_of a.problem.now).formulas;
      numeral : a.clauses.numeral ≡ numeral_of (stated_of a.problem.now).formulas;
      well_formed : IsWellFormed (stated_of a.problem.now);
      fits : FitsTable (stated_of a.problem.now);
      few : length (stated_of a.problem.now).symbols ≤ equality;
      few_witnesses : length (all_axioms (stated_of a.problem.now)) ≤ equality;
    } };
}

impl<'a> Asked<'a> {
    /// Makes the clauses of a problem.
    pub fn new(alloc: Global, problem: &'a Problem) -> Result<Asked<'a>, ClauseError>
        requires well_formed { IsWellFormed (stated_of problem.now) }
        requires fits { FitsTable (stated_of problem.now) }
        ensures asked { IfOk result (λ a. a ≡ stated_of problem.now) }
        ensures limit { (n : ℕ) → result ≡ Err (ClauseError.ClauseLimit n)
            → first_over 1 (stated_of problem.now).formulas ≡ Some n }
        ensures within { OnOk result (first_over 1 (stated_of problem.now).formulas ≡ None) }
    {
        let mut symbols = problem.symbols.copy(alloc)?;
        own_table();
        let clauses = clauses_of(alloc, problem, &mut symbols)?;
        few_symbols(&problem.symbols);
        few_entries(&clauses.skolem);
        Ok(Asked {
            problem,
            symbols,
            clauses,
        })
    }

    /// How many cells and ground literals there are at a size, or the greatest number if there are more.
    pub fn ground_count(&self, size: u32) -> u128
        ensures { result ≡ min (ground_size size self.now) (2 ^ 128 - 1) }
    {
        count(&self.clauses, &self.symbols, size)
    }

    /// A search for the models of a size, which chooses cells in this way and stops at a reading of the clock from `stop` on.
    pub fn search(
        &self,
        alloc: Global,
        size: u32,
        way: Way,
        stop: Option<u128>,
    ) -> Result<CellSearch<'_>, AllocError>
        requires some { 0 < size }
        requires size { size ≤ 255 }
        requires needed { size_needed (formulas_of self.now) ≤ size }
        requires count { ground_size size self.now ≤ 50000000 }
        ensures { IfOk result (λ s. s ≡ beginning (world_for self.now size way) stop) }
    {
        cells_for_all();
        CellSearch::new(alloc, &self.clauses, &self.symbols, size, way, stop)
    }

    /// The tables of the model that a search found.
    pub fn tables(&self, alloc: Global, search: &CellSearch) -> Result<Tables, AllocError>
        ensures { IfOk result (λ t. t ≡ tables_over (all_symbols self.now) search.now.tables) }
    {
        search.tables(alloc, &self.symbols)
    }

    /// The text of a model.
    pub fn text(&self, alloc: Global, tables: &Tables, k: u64) -> Result<Vec<u8>, AllocError>
        ensures { IfOk result (λ v. v.items ≡ model_text (all_symbols self.now) k tables.now) }
    {
        interpretation_text(alloc, tables, &self.symbols, k)
    }

    /// What is asked makes sense to a search: its formulas have its symbols alone, as its table has them, which are few enough, as are
    /// those of its clauses.
    pub fn is_proper(&self)
        ensures well_formed { IsWellFormed self.now }
        ensures fits { FitsTable self.now }
        ensures few { length self.now.symbols ≤ equality }
        ensures few_witnesses { length (all_axioms self.now) ≤ equality }
    {
        let _ = &self.problem;
    }
}

// There are no more symbols of a table, nor Skolem symbols, than there are numbers.
fn few_symbols(symbols: &Symbols)
    ensures { length symbols.now ≤ equality }
{
    let _many = symbols.len();
}

fn few_entries(entries: &[Entry])
    ensures { length entries.now ≤ equality }
{
    let _many = entries.len();
}
