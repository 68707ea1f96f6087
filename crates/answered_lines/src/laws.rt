// Laws of derivations with answers: the functions do nothing, and their contracts are the laws.
ghost use Rattle.fol_core.specs.Meaning.{Meaning, IsLawful};
ghost use Rattle.answered_lines.specs.Shows.{AnswersAreSound, UnansweredClausesFollow, RowsFollow, RefutationsShowAnswers};
ghost use Rattle.answered_lines.specs.Stays.{AnsweredLinesStayIn, AnsweredLinesNameWithin, AskedTermsNameNothing};
ghost use Rattle.answered_lines.specs.Moved.{RefutationIsMovedWith, RefutationIsReadWith};
ghost use Rattle.answered_lines.specs.Worked.{WorkedTogether, WorkedUnit, WorkedRule, WorkedRows, WorkedTerms, WorkedOpened, WorkedTruth, WorkedRefutation, WorkedFaults, WorkedSilent};
ghost use Rattle.answered_lines.specs.Laws.{OneConclusionWith, OneContentWith, MatchBrings, NewAreAbove, WholesApart, InterleavedAreApart, UnifierIsFamilyWith, UnifierConcludesWith, InstancesConclude, LinesArePlain, RefutationsArePlain, NothingInferred, NothingPutIn, PlainLinesStay, PlainRefutationsStay, PlainFaultsStay, RefusedIsNoneWith, RefusedByOneRowWith, FaultIsNoneWith, FaultIsOneWith};

/// A rule has one conclusion, answers and all, and a line that is inferred has one content with one list of answers.
pub fn conclusion_is_one_with()
    ensures conclusion { OneConclusionWith }
    ensures content { OneContentWith }
{}

/// A most general unifier of clauses that are renamed apart, with their answers, makes the conclusion; they are renamed apart
/// where they are so with the terms of answers as literals, and where variables are interleaved.
pub fn unifier_concludes_with()
    ensures family { UnifierIsFamilyWith }
    ensures made { UnifierConcludesWith }
    ensures apart { WholesApart }
    ensures interleaved { InterleavedAreApart }
{}

/// A word brings what a match makes of the answers of a unit or a rule, with new variables for those that the match doesn't give;
/// these are none of the clause's.
pub fn matches_bring_answers()
    ensures brought { MatchBrings }
    ensures new { NewAreAbove }
{}

/// Of the instances that a most general family makes the same is concluded, under whatever names.
pub fn instances_conclude()
    ensures { InstancesConclude }
{}

/// Answers change nothing of what is derived: a derivation with them is one without, and so is a refutation.
pub fn lines_are_plain()
    ensures lines { LinesArePlain }
    ensures refutations { RefutationsArePlain }
{}

/// A plain derivation stays one where none of its lines asks for something or has answers, whatever the problem's goals ask for,
/// and so do a refutation and a fault.
pub fn plain_lines_stay()
    ensures lines { PlainLinesStay }
    ensures refutations { PlainRefutationsStay }
    ensures faults { PlainFaultsStay }
{}

/// A line whose parents have no answers has none, if it is inferred or is an instance.
pub fn nothing_comes_of_none()
    ensures inferred { NothingInferred }
    ensures instance { NothingPutIn }
{}

/// A line that is refused behind earlier ones is none behind them, and is refused by one row.
pub fn refused_is_none_with()
    ensures none { RefusedIsNoneWith }
    ensures one { RefusedByOneRowWith }
{}

/// Lines that have a fault are no refutation with answers, and the fault is one: a line and a row.
pub fn fault_is_one_with()
    ensures none { FaultIsNoneWith }
    ensures one { FaultIsOneWith }
{}

/// Where the input clauses hold, some answer on the last line of a refutation is true under each assignment, or some goal whose
/// line asks for nothing.
pub fn answers_are_sound()
    ensures { (m : Meaning) → IsLawful m → AnswersAreSound m }
{}

/// The clauses of a goal are true where the goal isn't with the elements of what it asks for; and the input clauses of a problem hold,
/// with the terms of their answers, where all of it but its goals is true.
pub fn input_clauses_hold()
    ensures unanswered { (m : Meaning) → IsLawful m → UnansweredClausesFollow m }
    ensures rows { RowsFollow }
{}

/// So each refutation of a problem shows answers, in every interpretation, finite or infinite, whose Skolem symbols pick witnesses
/// and that makes all of the problem but its goals true: under each assignment some answer on the last line is true, or some goal
/// whose line asks for nothing.
pub fn refutations_show_answers()
    ensures { RefutationsShowAnswers }
{
    answers_are_sound();
    input_clauses_hold();
}

/// The clauses of a derivation's lines are, with their answers, in each signature that its input clauses are in, with theirs, and
/// the terms that its lines put in; where all these name no element, lines name none that an interpretation hasn't. The terms of answers of a problem's clauses name
/// none.
pub fn answers_stay_in()
    ensures signature { AnsweredLinesStayIn }
    ensures elements { AnsweredLinesNameWithin }
    ensures terms { AskedTermsNameNothing }
{}

/// A refutation with answers stays one when symbols exchange their numbers in it, and in what it refutes; and so behind any table of
/// the problem's symbols and of some of those behind them, entered in whatever order.
pub fn refutations_are_moved_with()
    ensures moved { RefutationIsMovedWith }
    ensures read { RefutationIsReadWith }
{}

/// Answers worked out: what steps bring, the answers of input clauses, and a refutation that shows two of which one is true.
pub fn worked()
    ensures together { WorkedTogether }
    ensures unit { WorkedUnit }
    ensures rule { WorkedRule }
    ensures rows { WorkedRows }
    ensures terms { WorkedTerms }
    ensures opened { WorkedOpened }
    ensures truth { WorkedTruth }
    ensures refutation { WorkedRefutation }
    ensures faults { WorkedFaults }
    ensures silent { WorkedSilent }
{}
