// Banks worked out.
ghost use Rattle.std.specs.Prelude.{◌≡◌};
ghost use Rattle.fol_core.specs.Tree.{var, app, none, more};
ghost use Rattle.term_bank.specs.Bank.{tree_at};
ghost use Rattle.term_bank.specs.Worked.{three, WorkedMeasures};

/// Numbers mean terms, and sizes count each part as often as it stands in the term.
pub fn worked()
    ensures number { tree_at three 2 ≡ app 2 (more (app 1 none) (more (var 5) none)) }
    ensures measures { WorkedMeasures }
{}
