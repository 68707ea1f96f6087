// Laws of the definitions, and texts worked out.
ghost use Rattle.std.specs.Prelude.{◌≡◌, ◌<◌, ◌≤◌, ◌^◌, length, Option, Bool, false, ℕ, List, [], ◌∷◌, IsTrue, ◌++◌, codes};
ghost use Rattle.fol_core.specs.RawTree.{RawTree};
ghost use Rattle.fol_core.specs.Fol.{Fol};
ghost use Rattle.fol_core.specs.SymbolTable.{Symbol, KeepsNumbers};
ghost use Rattle.fol_core.specs.Tree.{Tree};
ghost use Rattle.ladr_print.specs.ReadsAgain.{IsAmong, made_behind, ReadsFormula, ReadsClause, ReadsTerm};
ghost use Rattle.ladr_formulas.specs.Formulas.{Made, names_of_variables};
ghost use Rattle.ladr_lex.specs.Operators.{OperatorRow, are_lawful, standard_rows, is_unfit_symbol, declared};
ghost use Rattle.ladr_print.specs.FormulaText.{with_attribute, formula_raw};
ghost use Rattle.fol_core.specs.Literals.{ClauseTree, equality};
ghost use Rattle.fol_core.specs.Renumbered.{renumbered};
ghost use Rattle.ladr_print.specs.ClauseText.{clause_bytes, clause_raw};
ghost use Rattle.ladr_print.specs.HasText.{HasText, CanNameSymbols, IsClauseOver};
ghost use Rattle.ladr_print.specs.StatesAs.{KeepsFixed, StatesAs};
ghost use Rattle.ladr_print.specs.StatesClause.{StatesClause, FreesVariables};
ghost use Rattle.ladr_print.specs.TermText.{name_in, clause_variable, term_raw};
ghost use Rattle.ladr_print.specs.Worked.{reprinted};
ghost use Rattle.ladr_formulas.specs.declared.styles.Style.{Style};
ghost use Rattle.ladr_print.specs.Precedences.{precedence};
ghost use Rattle.ladr_print.specs.RawText.{text_of};
ghost use Rattle.ladr_print.specs.ReadsAs.{ReadsAs, ItemAs};
ghost use Rattle.ladr_reader.specs.Table.{table_of};
ghost use Rattle.ladr_reader.specs.Worked.{term, constant, unary, binary, binder, standard, with_declared};
ghost use Rattle.fol_core.specs.declared.raw.Quantifier.TheVariants.{All, Exists};

/// Where any text reads as a term, the printed one does too; with a full stop behind it, it is an item.
pub fn printed_reads_back()
    ensures term { (rows : List OperatorRow) (text : List ℕ) (t : RawTree) (p : ℕ)
        → IsTrue (are_lawful rows) → ReadsAs (table_of rows) text t p →
        ReadsAs (table_of rows) (text_of (table_of rows) t) t (precedence (table_of rows) t) }
    ensures item { (rows : List OperatorRow) (text : List ℕ) (t : RawTree) (p : ℕ)
        → IsTrue (are_lawful rows) → ReadsAs (table_of rows) text t p →
        ItemAs (table_of rows) (text_of (table_of rows) t ++ codes ".") t }
{}

/// A term as read has a text exactly where each of its names may stand so, and then the printed one is such a text.
pub fn terms_have_texts()
    ensures printed { (rows : List OperatorRow) (t : RawTree) → IsTrue (are_lawful rows)
        → HasText (table_of rows) t →
        ReadsAs (table_of rows) (text_of (table_of rows) t) t (precedence (table_of rows) t) }
    ensures read { (rows : List OperatorRow) (text : List ℕ) (t : RawTree) (p : ℕ)
        → ReadsAs (table_of rows) text t p → HasText (table_of rows) t }
{}

/// Each clause over a table whose symbols can have their names has a text, whatever text made them known.
pub fn clauses_have_texts()
    ensures { (rows : List OperatorRow) (prolog : Bool) (table : List Symbol) (c : ClauseTree)
        → KeepsFixed rows → FreesVariables prolog rows → length table ≤ equality
        → CanNameSymbols (table_of rows) table → IsClauseOver table c
        → HasText (table_of rows) (clause_raw table (clause_variable prolog) c) }
{}

/// Terms with their texts, with the operators at the start.
pub fn worked()
    ensures arrows { text_of standard (binary "->" (constant "a")
        (binary "->" (constant "b") (constant "c"))) ≡ codes "a -> (b -> c)" }
    ensures on_the_left { text_of standard (binary "|" (binary "|" (constant "a") (constant "b"))
        (constant "c")) ≡ codes "(a | b) | c" }
    ensures to_the_right { text_of standard (binary "|" (constant "a")
        (binary "|" (constant "b") (constant "c"))) ≡ codes "a | b | c" }
    ensures denied { text_of standard (binary "!=" (constant "a") (constant "b")) ≡ codes "a != b" }
    ensures twice { text_of standard (unary "-" (unary "-" (constant "p"))) ≡ codes "- -p" }
    ensures quantified { text_of standard (binder All "x"
        (binary "&" (unary "p" (constant "x")) (unary "q" (constant "x"))))
        ≡ codes "all x (p(x) & q(x))" }
    ensures denied_bound { text_of standard (unary "-"
        (binder Exists "x" (unary "p" (constant "x")))) ≡ codes "-(exists x p(x))" }
    ensures attribute { text_of standard (binary "#" (constant "p")
        (unary "label" (binary "+" (constant "a") (constant "b")))) ≡ codes "p # label(a + b)" }
    ensures apostrophes { text_of standard (unary "-" (unary "'" (unary "'" (constant "\"f\""))))
        ≡ codes "-\"f\"''" }
    ensures arguments { text_of standard (term "f"
        (constant "x" ∷ binary "v" (constant "a") (constant "b") ∷ constant "0" ∷ []))
        ≡ codes "f(x,a v b,0)" }
    ensures head { text_of standard (unary "=" (constant "a")) ≡ codes "=(a)" }
{}

/// The same once `@@` is infix_left of 750, `~` is prefix_paren of 400 and `!` is postfix of 350.
pub fn worked_declared()
    ensures to_the_left { text_of with_declared
        (binary "@@" (binary "@@" (constant "a") (constant "b")) (constant "c"))
        ≡ codes "a @@ b @@ c" }
    ensures on_the_right { text_of with_declared
        (binary "@@" (constant "a") (binary "@@" (constant "b") (constant "c")))
        ≡ codes "a @@ (b @@ c)" }
    ensures body { text_of with_declared (binder All "x"
        (binary "@@" (constant "p") (constant "q"))) ≡ codes "all x (p @@ q)" }
    ensures postfix { text_of with_declared (unary "!" (unary "-" (constant "a"))) ≡ codes "-a!" }
    ensures argument { text_of with_declared (unary "-" (unary "!" (constant "a")))
        ≡ codes "-(a!)" }
    ensures signs { text_of with_declared (unary "!" (unary "'" (constant "+"))) ≡ codes "+'!" }
    ensures below { text_of with_declared (unary "~" (unary "~" (constant "a"))) ≡ codes "~(~a)" }
    ensures beside { text_of with_declared (unary "~" (unary "-" (constant "a"))) ≡ codes "~ -a" }
{}

/// Where any text states a formula, the printed one does too; tables keep the fixed symbols.
pub fn printed_states_again()
    ensures formula { (rows : List OperatorRow) (st : Style) (before : List Symbol) (other : List ℕ)
        (label : Option RawTree) (f : Fol) (names : List (List ℕ)) (after : List Symbol) →
        IsTrue (are_lawful rows) → KeepsFixed rows
        → StatesAs (table_of rows) st before other label f names after →
        StatesAs (table_of rows) st before (text_of (table_of rows)
        (with_attribute label (formula_raw after (name_in names) f))) label f names after }
    ensures start { KeepsFixed standard_rows }
    ensures declared { (rows : List OperatorRow) (p : ℕ) (type symbol : List ℕ)
        → is_unfit_symbol symbol ≡ false → KeepsFixed rows
        → KeepsFixed (declared p type symbol rows) }
{}

/// Where any text states a clause, the printed one does too.
pub fn printed_clause_states_again()
    ensures { (rows : List OperatorRow) (st : Style) (before : List Symbol) (other : List ℕ)
        (c : ClauseTree) (after : List Symbol) →
        IsTrue (are_lawful rows) → KeepsFixed rows → FreesVariables st.prolog rows
        → (s : StatesClause (table_of rows) st before other c after) → length s.names ≤ 2 ^ 64 →
        StatesClause (table_of rows) st before (clause_bytes (table_of rows) after
        (clause_variable st.prolog) (renumbered c)) c after }
{}

/// Whatever the size, where any text is read as a formula, a clause or a term, the printed one is too: behind the same table of
/// symbols, and behind any that has all of its symbols, with more at its end. So what a file says of a formula is what its
/// printed text says behind the file's final table.
pub fn printed_reads_again()
    ensures formula { (rows : List OperatorRow) (st : Style) (before : List Symbol) (other : List ℕ)
        (label : Option RawTree) (m : Made Fol) (T : List Symbol) →
        IsTrue (are_lawful rows) → KeepsFixed rows
        → ReadsFormula (table_of rows) st before other label m →
        IsAmong m.reading T →
        let text = text_of (table_of rows) (with_attribute label
        (formula_raw T (name_in (names_of_variables m.reading.variables)) m.tree)) in
        ReadsFormula (table_of rows) st before text label m
        × ReadsFormula (table_of rows) st T text label (made_behind T m) }
    ensures clause { (rows : List OperatorRow) (st : Style) (before : List Symbol) (other : List ℕ)
        (c : ClauseTree)
        (after : List Symbol) (n : ℕ) (T : List Symbol) →
        IsTrue (are_lawful rows) → KeepsFixed rows → FreesVariables st.prolog rows →
        ReadsClause (table_of rows) st before other c after n →
        KeepsNumbers after T → length T < 2 ^ 64 → n ≤ 2 ^ 64 →
        let text = clause_bytes (table_of rows) T (clause_variable st.prolog) (renumbered c) in
        ReadsClause (table_of rows) st before text c after n
        × ReadsClause (table_of rows) st T text c T n }
    ensures term { (rows : List OperatorRow) (st : Style) (before : List Symbol) (other : List ℕ)
        (t : Tree)
        (after : List Symbol) (n : ℕ) (T : List Symbol) →
        IsTrue (are_lawful rows) → KeepsFixed rows → FreesVariables st.prolog rows →
        ReadsTerm (table_of rows) st before other t after n →
        KeepsNumbers after T → length T < 2 ^ 64 → n ≤ 2 ^ 64 →
        let text = text_of (table_of rows) (term_raw T (clause_variable st.prolog) t) in
        ReadsTerm (table_of rows) st before text t after n
        × ReadsTerm (table_of rows) st T text t T n }
{}

/// Formulas with their texts: what is printed for the formula of a term.
pub fn worked_formulas()
    ensures denied { reprinted (unary "-" (binary "=" (constant "a") (constant "b")))
        ≡ codes "a != b" }
    ensures different { reprinted (binary "!=" (constant "a") (constant "b")) ≡ codes "a != b" }
    ensures denied_twice { reprinted (unary "-" (unary "-" (constant "p"))) ≡ codes "- -p" }
    ensures turned { reprinted (binary "<-" (constant "p")
        (binary "|" (constant "q") (constant "r"))) ≡ codes "q | r -> p" }
    ensures quantified { reprinted (binder All "x"
        (binary "&" (unary "p" (constant "x")) (unary "q" (constant "y"))))
        ≡ codes "all x (p(x) & q(y))" }
    ensures hidden { reprinted (binder All "x"
        (binary "&" (unary "p" (constant "x")) (binder Exists "x" (unary "p" (constant "x")))))
        ≡ codes "all x (p(x) & exists x p(x))" }
{}
