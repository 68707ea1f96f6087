// Laws of the definitions, and examples worked out.
ghost use Rattle.std.specs.Prelude.{◌≡◌, ℕ, true, false, IsTrue, List, [], ◌∷◌, Some, None, codes};
ghost use Rattle.fol_core.specs.RawTree.{RawTree};
ghost use Rattle.fol_core.specs.declared.raw.Quantifier.TheVariants.{All, Exists};
ghost use Rattle.ladr_lex.specs.Cuts.{is_quoted};
ghost use Rattle.ladr_lex.specs.Lexeme.{Lexeme, quoted};
ghost use Rattle.ladr_lex.specs.Numeral.{is_numeral};
ghost use Rattle.ladr_lex.specs.Operators.{OperatorRow, are_lawful};
ghost use Rattle.ladr_reader.specs.Capped.{disjuncts};
ghost use Rattle.ladr_reader.specs.Depths.{levels_around};
ghost use Rattle.ladr_reader.specs.Reads.{Reads, Item};
ghost use Rattle.ladr_reader.specs.Table.{OperatorTable, table_of};
ghost use Rattle.ladr_reader.specs.Worked.{lexemes_of_text, constant, unary, binary, binder, IsBadAt, standard, with_declared, bar, denial};
ghost use Rattle.ladr_reader.specs.declared.stack.Frame.TheVariants.{Group, Applied};

/// Tokens are at most one term, of one precedence, and an item has one tree.
pub fn one_reading()
    ensures terms { (g : OperatorTable) (ts : List Lexeme) (t u : RawTree) (p q : ℕ) →
        Reads g ts t p → Reads g ts u q → (t ≡ u) × (p ≡ q) }
    ensures items { (g : OperatorTable) (ts : List Lexeme) (t u : RawTree) → Item g ts t
        → Item g ts u → t ≡ u }
{}

/// What a quoted symbol is whatever is declared: no operator, no word of a quantifier, no variable of one, and no numeral.
pub fn quoted_symbols()
    ensures operator { (rows : List OperatorRow) (text : List ℕ) → IsTrue (are_lawful rows)
        → is_quoted text ≡ true → (table_of rows).op text ≡ None }
    ensures word { (rows : List OperatorRow) (text : List ℕ) → is_quoted text ≡ true
        → (table_of rows).word text ≡ None }
    ensures bound { (rows : List OperatorRow) (text : List ℕ)
        → (table_of rows).variable quoted text ≡ false }
    ensures numeral { (text : List ℕ) → is_quoted text ≡ true → is_numeral text ≡ false }
{}

/// The disjuncts of terms: those of the right spine, whether it has parentheses or not.
pub fn worked_disjuncts()
    ensures spine { disjuncts (binary "|" (constant "p") (binary "|" (constant "q") (constant "r")))
        ≡ constant "p" ∷ constant "q" ∷ constant "r" ∷ [] }
    ensures left { disjuncts (binary "|" (binary "|" (constant "p") (constant "q")) (constant "r"))
        ≡ binary "|" (constant "p") (constant "q") ∷ constant "r" ∷ [] }
    ensures other { disjuncts (unary "|" (constant "p")) ≡ unary "|" (constant "p") ∷ [] }
{}

/// The levels around what stands inside of frames, here the innermost first: parentheses are none, and a disjunction is none
/// where its disjuncts alone count, as long as no other frame is outside of it.
pub fn worked_levels()
    ensures parentheses { levels_around false (Group ∷ Group ∷ []) ≡ 0 }
    ensures frames { levels_around false (Applied (codes "f") (Some []) ∷ Group ∷ denial ∷ [])
        ≡ 2 }
    ensures bar { levels_around false (bar ∷ bar ∷ []) ≡ 2 }
    ensures spine { levels_around true (bar ∷ Group ∷ bar ∷ []) ≡ 0 }
    ensures literal { levels_around true (denial ∷ bar ∷ []) ≡ 1 }
    ensures inside { levels_around true (bar ∷ denial ∷ bar ∷ []) ≡ 2 }
{}

/// Items with the operators at the start.
pub fn worked_terms()
    ensures quantified { Item standard (lexemes_of_text "all x p(x,f(y)) = a.")
        (binder All "x" (binary "=" (binary "p" (constant "x") (unary "f" (constant "y")))
        (constant "a"))) }
    ensures in_parentheses { Item standard (lexemes_of_text "(exists x p(x)).")
        (binder Exists "x" (unary "p" (constant "x"))) }
    ensures head { Item standard (lexemes_of_text "=(a,b).")
        (binary "=" (constant "a") (constant "b")) }
    ensures argument { Item standard (lexemes_of_text "p(=,\"=\").")
        (binary "p" (constant "=") (constant "\"=\"")) }
    ensures body { Item standard (lexemes_of_text "all x p(x) | q(x).")
        (binary "|" (binder All "x" (unary "p" (constant "x"))) (unary "q" (constant "x"))) }
    ensures denied { Item standard (lexemes_of_text "-(all x p(x)).")
        (unary "-" (binder All "x" (unary "p" (constant "x")))) }
    ensures twice { Item standard (lexemes_of_text "- -p.") (unary "-" (unary "-" (constant "p"))) }
    ensures dashes { Item standard (lexemes_of_text "p|--q.")
        (binary "|" (constant "p") (unary "-" (unary "-" (constant "q")))) }
    ensures arrows { Item standard (lexemes_of_text "a<->(b<-c).")
        (binary "<->" (constant "a") (binary "<-" (constant "b") (constant "c"))) }
    ensures apostrophes { Item standard (lexemes_of_text "-f''.")
        (unary "-" (unary "'" (unary "'" (constant "f")))) }
    ensures to_the_right { Item standard (lexemes_of_text "a | b | c.")
        (binary "|" (constant "a") (binary "|" (constant "b") (constant "c"))) }
{}

/// Items once `@@` is infix_left of 750, `~` is prefix_paren of 400 and `!` is postfix of 350. An argument of just an operator's
/// precedence stands on the left of `@@`; a last argument doesn't go on with `@@` or `!` of just the precedence around it.
pub fn worked_declared()
    ensures to_the_left { Item with_declared (lexemes_of_text "a @@ b @@ c.")
        (binary "@@" (binary "@@" (constant "a") (constant "b")) (constant "c")) }
    ensures body { Item with_declared (lexemes_of_text "all x p @@ q.")
        (binary "@@" (binder All "x" (constant "p")) (constant "q")) }
    ensures postfix { Item with_declared (lexemes_of_text "- a !.")
        (unary "!" (unary "-" (constant "a"))) }
    ensures below { Item with_declared (lexemes_of_text "~ - a.")
        (unary "~" (unary "-" (constant "a"))) }
    ensures not_below { IsBadAt with_declared "~ ~ a." 1 }
{}

/// Lines that are no items, each with its first bad token.
pub fn worked_faults()
    ensures chain { IsBadAt standard "a = b = c." 3 }
    ensures arrows { IsBadAt standard "a <-> b -> c." 3 }
    ensures quantified { IsBadAt standard "-all x p(x)." 1 }
    ensures word { IsBadAt standard "all exists p." 1 }
    ensures quoted_operator { IsBadAt standard "a \"+\" b." 1 }
    ensures quoted_variable { IsBadAt standard "all \"x\" p." 1 }
    ensures two_items { IsBadAt standard "a. b." 2 }
    ensures unclosed { IsBadAt standard "p(\"a)." 2 }
    ensures end { IsBadAt standard "p(a" 3 }
{}
