// Laws of the definitions.
ghost use Rattle.std.specs.Prelude.{◌≡◌, ℕ, true, false, List, [], ◌∷◌, take, Some, None};
ghost use Rattle.fol_core.specs.RawTree.{no_raws, more_raws};
ghost use Rattle.fol_core.specs.SymbolTable.{Symbol};
ghost use Rattle.ladr_formulas.specs.declared.styles.Style.{Style};
ghost use Rattle.ladr_lex.specs.Lexeme.{Lexeme};
ghost use Rattle.ladr_reader.specs.Worked.{constant, unary, binary};
ghost use Rattle.ladr_lex.specs.Operators.{standard_rows};
ghost use Rattle.proof_lines.specs.AnswerMarks.{answer_marks, noted};
ghost use Rattle.proof_lines.specs.Answered.{answers_read, clause_part};
ghost use Rattle.proof_lines.specs.ContentTokens.{LineTables, content_in};
ghost use Rattle.proof_lines.specs.Faults.{IsBadOfLine, IsBadLineToken, IsLineFault};
ghost use Rattle.proof_lines.specs.Lines.{LineParts, IsProofLine, IsFirstLine};
ghost use Rattle.proof_lines.specs.WorkedLines.{IsNotedItem, answer_two, parts, words_before, worked_tables};
ghost use Rattle.proof_lines.specs.declared.fault.LineFault.{LineFault};
ghost use Rattle.proof_lines.specs.declared.fault.LineFault.TheVariants.{Memory};
ghost use Rattle.proof_words.specs.Worked.{tokens_of};
ghost use Rattle.proof_words.specs.Written.{written, as_goal, by_copy, by_xx_res};

/// Tokens begin with one line at most.
pub fn one_line()
    ensures { (g : LineTables) (ts : List Lexeme) (l m : LineParts) (i j : ℕ)
        → IsFirstLine g ts l i → IsFirstLine g ts m j → (l ≡ m) × (i ≡ j) }
{}

/// Tokens have one fault at most, whatever is said of memory.
pub fn one_fault()
    ensures { (g : LineTables) (st : Style) (problem table : List Symbol) (ts : List Lexeme)
        (a b : LineFault) → IsLineFault g st problem table ts a
        → IsLineFault g st problem table ts b → ¬ a ≡ Memory → ¬ b ≡ Memory → a ≡ b }
{}

/// No line goes on with a bad token, and none ends before it.
pub fn bad_tokens_are_bad()
    ensures { (g : LineTables) (ts : List Lexeme) (k : ℕ) → IsBadOfLine g ts k
        → IsBadLineToken g ts k }
{}

/// Lines, and tokens that are none.
pub fn worked()
    ensures clause { IsProofLine worked_tables (tokens_of "7 p(x) | -q.  [copy(5)].") (parts 7
        (binary "|" (unary "p" (constant "x")) (unary "-" (constant "q")))
        (written (by_copy 5) [])) }
    ensures formula { IsProofLine worked_tables (tokens_of "2 p & q # label(a).  [goal].") (parts 2
        (binary "#" (binary "&" (constant "p") (constant "q")) (unary "label" (constant "a")))
        (written as_goal [])) }
    ensures empty { IsProofLine worked_tables (tokens_of "9 $F.  [xx_res(8,a)].")
        (parts 9 (constant "$F") (written (by_xx_res 8 0) [])) }
    ensures no_number { IsBadOfLine worked_tables (tokens_of "p.  [goal].") 0 }
    ensures zeros { IsBadOfLine worked_tables (tokens_of "07 p.  [goal].") 0 }
    ensures content { IsBadOfLine worked_tables (tokens_of "7 p q.  [goal].") 2 }
    ensures no_clause { IsBadOfLine worked_tables (tokens_of "7 p & q.  [copy(5)].") 6 }
{}

/// A front of tokens has the front of their marks, and their content is marked as it is in them.
pub fn marks_look_back()
    ensures fronts { (k : ℕ) (ts : List Lexeme) → take k (noted ts) ≡ noted (take k ts) }
    ensures content { (ts : List Lexeme) → content_in (noted ts) ≡ noted (content_in ts) }
{}

/// Clauses with answers, as terms.
pub fn worked_answers()
    // `p(x) # answer(2,x,a)` and `p # (answer(2,x))`, also where the word or the number is an operator
    ensures marks { answer_marks (tokens_of "p # (answer(2,x)).")
        ≡ false ∷ false ∷ false ∷ true ∷ false ∷ true ∷ false ∷ false ∷ false ∷ false ∷ false ∷ [] }
    ensures one { IsNotedItem standard_rows "p # answer(2,x)."
        (binary "#" (constant "p") (answer_two (constant "x"))) }
    ensures operators { IsNotedItem words_before "p # answer(2,x)."
        (binary "#" (constant "p") (answer_two (constant "x"))) }
    ensures several { answers_read (binary "#" (constant "p") (binary "#"
        (answer_two (constant "x")) (answer_two (constant "a")))) ≡ Some (record {
          goal = 2;
          terms = more_raws (constant "x") no_raws;
        } ∷ record {
          goal = 2;
          terms = more_raws (constant "a") no_raws;
        } ∷ []) }
    ensures clause { clause_part (binary "#" (constant "p") (answer_two (constant "x")))
        ≡ constant "p" }
    // Another attribute, an answer without terms, and one without a number
    ensures label { answers_read (binary "#" (constant "p") (unary "label" (constant "a")))
        ≡ None }
    ensures no_terms { answers_read (binary "#" (constant "p") (unary "\"answer\""
        (constant "\"2\""))) ≡ None }
    ensures no_number { answers_read (binary "#" (constant "p") (binary "\"answer\""
        (constant "a") (constant "x"))) ≡ None }
{}
