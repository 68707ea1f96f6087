// What the texts are read as: the functions do nothing, and their contracts are the laws.
ghost use Rattle.std.specs.Prelude.{◌≡◌, ℕ, Bool, true, false, IsTrue, List, Option, Some, slice_get, [], ◌∷◌, ◌++◌, codes};
ghost use Rattle.answers.specs.AnswerTrees.{Answer};
ghost use Rattle.derivation.specs.declared.line.Content.{Content};
ghost use Rattle.derivation.specs.declared.line.Content.TheVariants as content;
ghost use Rattle.derivation.specs.declared.line.Line.{Line};
ghost use Rattle.fol_core.specs.Bound.{uses_symbol};
ghost use Rattle.fol_core.specs.Fol.{Fol};
ghost use Rattle.fol_core.specs.FormulaView.{fol_of};
ghost use Rattle.fol_core.specs.Literals.{ClauseTree, literal, equality};
ghost use Rattle.fol_core.specs.RawTree.{RawTree};
ghost use Rattle.fol_core.specs.SymbolTable.{Symbol};
ghost use Rattle.fol_core.specs.declared.formula.Formula.{Formula};
ghost use Rattle.fol_core.specs.Tree.{var, app, none, more};
ghost use Rattle.ladr_formulas.specs.Formulas.{style_of};
ghost use Rattle.ladr_formulas.specs.declared.styles.Mode.TheVariants.{Prover};
ghost use Rattle.ladr_lex.specs.Operators.{OperatorRow, are_lawful};
ghost use Rattle.ladr_print.specs.StatesAs.{KeepsFixed};
ghost use Rattle.ladr_reader.specs.Table.{table_of};
ghost use Rattle.proof_print.specs.AnswersReread.{IsPrintableWith, ReadsAnswered};
ghost use Rattle.proof_print.specs.Formulas.{IsReadFormula};
ghost use Rattle.proof_print.specs.LineTexts.{frame_text, head_text};
ghost use Rattle.proof_print.specs.Names.{AreOfClauses, IsSkolemSymbol};
ghost use Rattle.proof_print.specs.Rereadable.{IsReadableSymbol, AreReadable};
ghost use Rattle.proof_print.specs.Worked.{clause_text};
ghost use Rattle.proof_print.specs.Reread.{row_tables, IsCutInto, CanPrint, IsPrintableContent, ArePrintable, ReadsContent, ReadsLines};
ghost use Rattle.proof_words.specs.Written.{Written};
ghost use Rattle.words_print.specs.Sayable.{IsSayable};
ghost use Rattle.words_print.specs.WordTokens.{words_tokens, words_text};

/// The text of words is cut into their tokens.
pub fn words_are_cut()
    ensures { (w : Written) → IsSayable w → (i : ℕ) → IsCutInto i (words_text w) (words_tokens w) }
{}

/// A formula that some text states, as each of a problem, can be a line's content.
pub fn formulas_are_printable()
    ensures { (formulas clauses : List OperatorRow) (prolog : Bool) (problem table : List Symbol)
        (f : Formula) (label : Option RawTree) → KeepsFixed formulas
        → IsReadFormula formulas prolog table (fol_of f.shape) f.names label
        → IsPrintableContent (row_tables formulas clauses) prolog problem table
        (content.Formula f label) }
{}

/// The text of a line's formula or clause is read as this, behind the table of its symbols, whatever text made them known.
pub fn contents_read_back()
    ensures { (formulas clauses : List OperatorRow) (prolog : Bool) (problem table : List Symbol)
        (content : Content) → IsTrue (are_lawful formulas) → CanPrint clauses prolog table
        → IsPrintableContent (row_tables formulas clauses) prolog problem table content
        → ReadsContent (row_tables formulas clauses) prolog problem table content }
{}

/// Printed lines are read as the same lines in their order, and the table of symbols stays.
pub fn lines_read_back()
    ensures { (formulas clauses : List OperatorRow) (prolog : Bool) (problem table : List Symbol)
        (ls : List Line) → IsTrue (are_lawful formulas) → CanPrint clauses prolog table
        → ArePrintable (row_tables formulas clauses) prolog problem table ls
        → ReadsLines (row_tables formulas clauses) prolog problem table ls }
{}

/// Symbols of formulas that texts state, and Skolem symbols, are readable in the texts of clauses: they can have their names there,
/// which are read as these symbols.
pub fn symbols_are_readable()
    ensures formulas { (prolog : Bool) (formulas clauses : List OperatorRow) (table : List Symbol)
        (f : Fol) (names : List (List ℕ)) (label : Option RawTree)
        → AreOfClauses prolog formulas clauses
        → IsReadFormula formulas prolog table f names label
        → AreReadable (table_of clauses) (style_of Prover prolog) table (λ s. uses_symbol s f) }
    ensures skolems { (prolog : Bool) (formulas clauses : List OperatorRow) (table : List Symbol)
        (s : ℕ) (x : Symbol) → AreOfClauses prolog formulas clauses → slice_get table s ≡ Some x
        → IsSkolemSymbol x
        → IsReadableSymbol (table_of clauses) (style_of Prover prolog) table s }
{}

/// The text of a clause with its answers is read as these, behind the table of their symbols.
pub fn answered_clauses_read_back()
    ensures { (rows : List OperatorRow) (prolog : Bool) (problem table : List Symbol)
        (c : ClauseTree) (us : List Answer) → CanPrint rows prolog table
        → IsPrintableWith (table_of rows) prolog table c us
        → ReadsAnswered (table_of rows) prolog problem table c us }
{}

/// Texts of a clause, of a frame and of a head.
pub fn worked_texts()
    ensures clause { clause_text (literal false (app 0 (more (var 0) none))
        ∷ literal true (app equality (more (var 1) (more (app 1 none) none))) ∷ [])
        ≡ codes "-man(x) | y = socrates" }
    ensures none { clause_text [] ≡ codes "$F" }
    ensures frame { frame_text (codes "p(a).\n") ≡ codes "% Input 6\np(a).\n\n" }
    ensures head { head_text (record { proof = 1; length = 7; level = 2; weight = 4; given = 3 })
        ≡ codes "% Proof 1.\n% Length of proof is 7.\n% Level of proof is 2.\n"
        ++ codes "% Maximum clause weight is 4.\n% Given clauses 3.\n" }
{}
