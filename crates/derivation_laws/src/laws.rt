// What derivations from a problem's clauses keep to, and what they show: the functions do nothing, and their contracts are the laws.
ghost use Rattle.fol_core.specs.Meaning.{Meaning, IsLawful};
ghost use Rattle.derivation_laws.specs.Countermodels.{RefutationsLeaveNone, RefutedHaveNone};
ghost use Rattle.derivation_laws.specs.Moved.{RefutationIsMoved};
ghost use Rattle.derivation_laws.specs.Tables.{RefutationIsRead};
ghost use Rattle.derivation_laws.specs.Elements.{ElementIsNowhere, LinesNameNoElements};
ghost use Rattle.derivation_laws.specs.Signatures.{LinesStayIn};

use clausify::clauses_follow;
use derivation::refutation_is_sound;

/// A refutation stays one when symbols exchange their numbers in it, and in what it refutes.
pub fn refutations_are_moved()
    ensures { RefutationIsMoved }
{}

/// A refutation stays one behind any table of the problem's symbols and of some of those behind them, entered in whatever
/// order.
pub fn refutations_are_read()
    ensures { RefutationIsRead }
{}

/// The clauses of a derivation's lines are in each signature that its input clauses are in, and the terms that its lines put in.
pub fn lines_stay_in()
    ensures { LinesStayIn }
{}

/// An element that no input clause names, and no term that a line puts in, is named by no line of a derivation; where none is
/// named, the lines name none.
pub fn lines_name_no_elements()
    ensures nowhere { ElementIsNowhere }
    ensures none { LinesNameNoElements }
{}

/// Where there is a refutation of a problem, no interpretation, finite or infinite, that has the elements which its lines name and
/// whose Skolem symbols pick witnesses makes each assumption true and each goal false.
pub fn no_countermodel()
    ensures { (m : Meaning) → IsLawful m → RefutationsLeaveNone m }
{
    clauses_follow();
    refutation_is_sound();
}

/// So it is of what a problem states, whose clauses these are.
pub fn refuted_have_none()
    ensures { RefutedHaveNone }
{
    no_countermodel();
}
