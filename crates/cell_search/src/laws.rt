// Laws of what a search knows by its cells: the functions do nothing, and their contracts are the laws.
ghost use Rattle.cell_search.specs.Choosing.{NoneIsChosen, PickedIsChosen};
ghost use Rattle.cell_search.specs.Leaves.{LeafTablesCover, LeafTablesDiffer, LeafTablesSolve};
ghost use Rattle.cell_search.specs.Telling.{ToldAsSeen};
ghost use Rattle.cell_search.specs.Viewing.{StepAssigns, StepCrosses, ViewHasValues};

/// What a look sees is what the plain search is told, by any table with the same values.
pub fn looks_are_told()
    ensures { ToldAsSeen }
{}

/// The table of a search is a partial table: its cells have the values of the steps, and each step
/// leaves one cell its value alone, or takes one from it.
pub fn tables_are_partial()
    ensures values { ViewHasValues }
    ensures assigns { StepAssigns }
    ensures crosses { StepCrosses }
{}

/// The cell that is picked is the one that the plain search chooses, and none where none is left to be picked.
pub fn picks_are_chosen()
    ensures picked { PickedIsChosen }
    ensures none { NoneIsChosen }
{}

/// The tables of the plain search's leaves are solutions, different ones, and each solution is isomorphic to one with the values of
/// such tables.
pub fn leaves_are_solutions()
    ensures solve { LeafTablesSolve }
    ensures differ { LeafTablesDiffer }
    ensures cover { LeafTablesCover }
{}
