// What searches amount to, and searches worked out: the functions do nothing, and their contracts
// are the laws.
ghost use Rattle.std.specs.Prelude.{◌≡◌, [], ◌∷◌, true, false, map, None, Some};
ghost use Rattle.ladr_cells.specs.Worlds.{ground_size, world_for};
ghost use Rattle.ladr_formulas.specs.declared.styles.Mode.TheVariants.{Mace};
ghost use Rattle.ladr_intake.specs.Posed.{poses};
ghost use Rattle.ladr_intake.specs.Refusals.{refuses};
ghost use Rattle.ladr_mace4.specs.Done.{choices_among, leaf_models};
ghost use Rattle.ladr_mace4.specs.LeafModels.{LeavesAreModels, LeavesCoverModels};
ghost use Rattle.ladr_mace4.specs.OneEnd.{SearchEndIsOne, RunsEndAlike};
ghost use Rattle.ladr_mace4.specs.Plans.{measure_of, plan_of, way_of};
ghost use Rattle.ladr_mace4.specs.Shown.{SearchesShow};
ghost use Rattle.ladr_mace4.specs.Story.{sizes_text, readings_in_all};
ghost use Rattle.ladr_mace4.specs.Worked.{alone, bare, constants, lonely, lonely_sizes, lonely_text, thorough, unlike, usual};
ghost use Rattle.ladr_options.specs.Options.{start};
ghost use Rattle.mace_cells.specs.declared.way.Candidates.TheVariants.{All, LeastIndex};
ghost use Rattle.mace_cells.specs.declared.way.CellMeasure.TheVariants.{First, MostOccurrences, MostAssigned, MostContradicted, MostCrossed};
ghost use Rattle.model_tables.specs.Expansion.{SomeExpansion, ExpansionPicks, ExpansionSays};
ghost use Rattle.plain_search.specs.Coming.{events};

use cell_search::leaves_are_solutions;
use clausify::{axioms_are_in_order, skolems_stand_behind};
use ladr_cells::{cells_for_all, isomorphisms_are_carried, problems_fit, solutions_are_models};
use ladr_intake::files_are_a_language;
use ladr_models::texts_read_back;
use ladr_problem::problems_grow;
use model_tables::expansions;

/// The tables of the leaves that the plain search of a size finds are models of what is stated, no two
/// the same, and each model of the size is one of them, its elements renamed.
pub fn leaves_are_models()
    ensures models { LeavesAreModels }
    ensures cover { LeavesCoverModels }
{
    skolems_stand_behind();
    axioms_are_in_order();
    solutions_are_models();
    isomorphisms_are_carried();
    cells_for_all();
    leaves_are_solutions();
}

/// Where no time is over, a search for the same comes to one end, with one text, and so do runs with the same bytes and words.
pub fn one_end()
    ensures once { SearchEndIsOne }
    ensures alike { RunsEndAlike }
{
    files_are_a_language();
}

/// Where the text of a model stands in the output of a run, it makes each assumption of the input
/// true and each goal false, with its Skolem symbols the clauses too, and reads back as it is; where
/// the line of an exhausted size stands, each model of it stands before, its elements renamed. So it
/// is whatever became of the run; and where the input was read whole, all that was printed is a
/// front of a whole output. Where no time is over, runs with the same bytes and words come to the same
/// end, with the same text. All tables, those of a model too, can be given values of Skolem symbols that
/// pick witnesses, in which the formulas say what they said.
pub fn searches_show()
    ensures show { SearchesShow (poses Mace) (refuses Mace) }
    ensures once { SearchEndIsOne }
    ensures alike { RunsEndAlike }
    ensures expand { SomeExpansion }
    ensures pick { ExpansionPicks }
    ensures say { ExpansionSays }
{
    one_end();
    expansions();
    skolems_stand_behind();
    leaves_are_models();
    problems_grow();
    problems_fit();
    files_are_a_language();
    texts_read_back();
}

/// A search through two sizes, the models of sizes, and what is asked of searches.
pub fn worked()
    // What is printed of two sizes, of which the first has a model.
    ensures searched { sizes_text lonely 1 1 0 lonely_sizes ≡ lonely_text }
    ensures readings { readings_in_all lonely_sizes ≡ 2 }
    ensures counted { ground_size 2 lonely ≡ 3 }
    // What is asked where neither words nor input set anything, by an input for one size, and where a word cancels that size.
    ensures unset { plan_of bare start ≡ record
        { start = 2; end = 10; step = 1; wanted = 1; seconds = None; megs = 500; way = usual } }
    ensures one_size { plan_of bare (record start
        { domain_size = 5; increment = 3; max_seconds = 60; max_megs = 0 })
        ≡ record
        { start = 5; end = 5; step = 3; wanted = 1; seconds = Some 60; megs = 0; way = usual } }
    ensures words { plan_of (record bare { end_size = Some 4; max_seconds = Some 0 })
        (record start { domain_size = 5; max_models = 4294967295; max_seconds = 60 })
        ≡ record {
          start = 2;
          end = 4;
          step = 1;
          wanted = 4294967295;
          seconds = Some 0;
          megs = 500;
          way = usual;
        } }
    // The models of sizes, in the order in which they are found: none of two elements where all are one; the first two of
    // three constants being given values, and then the last, each from the least on.
    ensures models { (leaf_models lonely 1 usual ≡ alone ∷ []) × (leaf_models lonely 2 usual ≡ []) }
    ensures two { leaf_models unlike 2 thorough
        ≡ constants 1 (0 ∷ 1 ∷ 0 ∷ []) ∷ constants 1 (1 ∷ 0 ∷ 1 ∷ []) ∷ [] }
    ensures least_two { leaf_models unlike 2 usual ≡ constants 1 (0 ∷ 1 ∷ 0 ∷ []) ∷ [] }
    ensures least_three { leaf_models unlike 3 usual
        ≡ constants 2 (0 ∷ 1 ∷ 0 ∷ []) ∷ constants 2 (0 ∷ 1 ∷ 2 ∷ []) ∷ [] }
    // So many cells are chosen for them: one, where the others follow from its value, or each of the three.
    ensures chosen { (choices_among (events (world_for unlike 2 usual)) ≡ 1)
        × (choices_among (events (world_for unlike 3 usual)) ≡ 3) }
    // By how often cells are sides of clauses the second constant comes first, and gets the least value; not so by what the values
    // assign or contradict.
    ensures by_occurrences { leaf_models unlike 2 (record usual
        { candidates = All; measure = MostOccurrences }) ≡ constants 1 (1 ∷ 0 ∷ 1 ∷ []) ∷ [] }
    ensures by_assignments { leaf_models unlike 2 (record usual { measure = MostAssigned })
        ≡ constants 1 (0 ∷ 1 ∷ 0 ∷ []) ∷ [] }
    ensures by_contradictions { leaf_models unlike 2 (record usual { measure = MostContradicted })
        ≡ constants 1 (0 ∷ 1 ∷ 0 ∷ []) ∷ [] }
    // How cells are chosen by an input that asks for it.
    ensures first { way_of (record start
        { selection_order = 0; selection_measure = 0; lnh = false })
        ≡ record { candidates = All; measure = First; least_numbers = false } }
    ensures least { way_of (record start { selection_order = 1 })
        ≡ record { candidates = LeastIndex; measure = MostCrossed; least_numbers = true } }
    ensures measures { map measure_of (0 ∷ 1 ∷ 2 ∷ 3 ∷ 4 ∷ [])
        ≡ First ∷ MostOccurrences ∷ MostAssigned ∷ MostContradicted ∷ MostCrossed ∷ [] }
{}
