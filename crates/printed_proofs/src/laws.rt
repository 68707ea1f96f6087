// What printed refutations are read as: the functions do nothing, and their contracts are the laws.
ghost use Rattle.std.specs.Prelude.{◌≡◌, ◌<◌, ◌^◌, IsTrue, List, [], ℕ, length, ◌++◌, Bool, None};
ghost use Rattle.std.specs.Global.{Vec};
ghost use Rattle.fol_core.specs.SymbolTable.{Symbol};
ghost use Rattle.ladr_formulas.specs.declared.styles.Mode.TheVariants.{Prover};
ghost use Rattle.ladr_lex.specs.Operators.{OperatorRow, are_lawful};
ghost use Rattle.ladr_problem.specs.File.{Says, problem};
ghost use Rattle.ladr_problem.specs.Growth.{Grown};
ghost use Rattle.ladr_problem.specs.Sofar.{Sofar};
ghost use Rattle.ladr_problem.specs.Whole.{IsOf};
ghost use Rattle.ladr_problem.specs.declared.read.FileRead.{FileRead};
ghost use Rattle.printed_proofs.specs.Files.{HasFewSymbols, CanPrintFile};
ghost use Rattle.printed_proofs.specs.Refutations.{ArePrintableRefutations, whole_text, ReadsRefutations};
ghost use Rattle.derivation.specs.declared.line.LineNotes.{LineNotes};
ghost use Rattle.derivation.specs.declared.words.Later.{Later};
ghost use Rattle.printed_proofs.specs.WorkedLines.{WorkedRefutation};
ghost use Rattle.printed_proofs.specs.Worked.{WorkedFrame, WorkedNoFrame, WorkedBlocks};
ghost use Rattle.printed_proofs.specs.Printed.{PrintedProof, HoldsNoProof, ArePrintableProofs, ReadsProofs};
ghost use Rattle.proof_print.specs.Names.{AreOfClauses};
ghost use Rattle.proof_print.specs.LineTexts.{frame_text};
ghost use Rattle.proof_print.specs.Reread.{CanPrint, row_tables};
ghost use Rattle.proof_text.specs.Frame.{IsFramed};
ghost use Rattle.printed_proofs.specs.ReadBehind.{TermsAreReadBehind};
ghost use Rattle.printed_proofs.specs.Accepted.{HasFewClauses, AreAccepted};

use answered_lines::plain_lines_stay;
use clausify::{axioms_are_in_order, skolems_stand_behind};
use ladr_check::offers_are_alone;
use ladr_models::formulas_state_themselves;
use ladr_problem::{problems_are_proper, problems_grow};

/// The text of refutations of a file's problem, with this problem in its frame, is read as this problem and these refutations: as
/// lines that are theirs but for the numbers of symbols, and that are refutations of the problem in these numbers too.
pub fn printed_refutations_are_read()
    ensures { (input : List ℕ) (s : Sofar) (f : FileRead) (clauses : List OperatorRow)
        (table : List Symbol) (ps : List PrintedProof) (tail : List ℕ) → length input < 2 ^ 64
        → Says Prover input (problem s) → IsOf s f
        → ArePrintableRefutations f clauses table ps → HoldsNoProof tail
        → ReadsRefutations (whole_text input f clauses table ps tail) f table ps }
{
    problems_grow();
    problems_are_proper();
}

/// Proofs of a file's problem can be printed, in its symbols and its Skolem symbols: each symbol that its clauses may have is read
/// as itself, and each of its formulas can be a line. The operators of clauses are to be those that the file's are made into.
pub fn files_can_be_printed()
    ensures { (s : Sofar) (f : FileRead) (clauses : List OperatorRow) → Grown Prover s → IsOf s f
        → IsTrue (are_lawful clauses)
        → AreOfClauses f.problem.options.prolog_style_variables f.operators clauses
        → HasFewSymbols f → CanPrintFile f clauses }
{
    formulas_state_themselves();
    problems_are_proper();
    skolems_stand_behind();
}

/// A refutation of five lines, its text, and what this is read as, worked out.
pub fn worked_refutation()
    ensures { (later : Vec Later) (notes : LineNotes) → later.items ≡ []
        → notes.asks ≡ None → notes.answers.items ≡ [] → WorkedRefutation later notes }
{}

/// A frame and three that are none, and blocks, worked out.
pub fn worked()
    ensures frame { WorkedFrame }
    ensures no_frame { WorkedNoFrame }
    ensures blocks { WorkedBlocks }
{}

/// The frame tells the problem's bytes, whatever stands behind it.
pub fn frames_are_read()
    ensures { (input rest : List ℕ) → length input < 2 ^ 64
        → IsFramed (frame_text input ++ rest) input rest }
{}

/// Printed proofs are the blocks of their text, and these have the proofs' lines, read behind the table of their symbols.
pub fn printed_proofs_are_read()
    ensures { (formulas clauses : List OperatorRow) (prolog : Bool) (problem table : List Symbol)
        (ps : List PrintedProof) (tail : List ℕ) (i : ℕ) → IsTrue (are_lawful formulas)
        → CanPrint clauses prolog table
        → ArePrintableProofs (row_tables formulas clauses) prolog problem table ps
        → HoldsNoProof tail
        → ReadsProofs (row_tables formulas clauses) prolog problem table i ps tail }
{}

/// A term that breaks no row behind the table of its symbols is read as the same formula behind any part of that table, in whatever
/// order this has its symbols, but for their numbers.
pub fn terms_are_read_behind()
    ensures { TermsAreReadBehind }
{}

/// A check of the text of refutations of a file's problem, with this problem in its frame, reads these refutations, but for the
/// numbers of symbols, and accepts all of them; the text has no other reading, and isn't refused.
pub fn printed_refutations_are_accepted()
    ensures { (input : List ℕ) (s : Sofar) (f : FileRead) (clauses : List OperatorRow)
        (table : List Symbol) (ps : List PrintedProof) (tail : List ℕ) → length input < 2 ^ 64
        → Says Prover input (problem s) → IsOf s f
        → ArePrintableRefutations f clauses table ps → HasFewClauses f table
        → HoldsNoProof tail → 0 < length ps
        → AreAccepted (whole_text input f clauses table ps tail) f table ps }
{
    plain_lines_stay();
    axioms_are_in_order();
    problems_grow();
    problems_are_proper();
    offers_are_alone();
    printed_refutations_are_read();
}
