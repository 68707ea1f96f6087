// What items of names are, what the formula of names means, and both worked out.
ghost use Rattle.std.specs.Prelude.{◌≡◌, ℕ, List, [], ◌∷◌, codes};
ghost use Rattle.fol_core.specs.Fol.{equal, negation};
ghost use Rattle.fol_core.specs.SymbolTable.{symbol};
ghost use Rattle.fol_core.specs.Tree.{elem, app, none};
ghost use Rattle.fol_core.specs.declared.symbols.Kind.TheVariants.{Function};
ghost use Rattle.ladr_distinct.specs.Different.{term_named, AreDifferent, distinct_reading, DistinctMeansDifferent};
ghost use Rattle.ladr_distinct.specs.Formula.{alone, differ, distinct_formula};
ghost use Rattle.ladr_distinct.specs.Names.{NamesItem, IsNamesFault};
ghost use Rattle.ladr_distinct.specs.Symbols.{symbols_of_names};
ghost use Rattle.ladr_distinct.specs.Worked.{three_names, four_names, both, mixed_names, a_and_two};
ghost use Rattle.ladr_formulas.specs.Counting.{all_entered};
ghost use Rattle.ladr_formulas.specs.WorkedFormulas.{for_tester, for_prover, in_prolog};
ghost use Rattle.ladr_lex.specs.Lexeme.{Lexeme};
ghost use Rattle.ladr_reader.specs.Table.{OperatorTable};
ghost use Rattle.ladr_reader.specs.Worked.{lexemes_of_text, standard};
ghost use Rattle.ladr_reader.specs.declared.fault.TermFault.TheVariants.{Bad};

use ladr_formulas::readings_mean;

/// The formula of names holds exactly where their values differ pairwise.
pub fn distinct_means_different()
    ensures { DistinctMeansDifferent }
{
    readings_mean();
}

/// The formulas of none, of one, of three and of four names, and of one name twice.
pub fn worked()
    ensures none { distinct_formula [] ≡ alone (codes "$T") }
    ensures single { distinct_formula (codes "a" ∷ []) ≡ alone (codes "$T") }
    ensures twice { distinct_formula (codes "a" ∷ codes "a" ∷ [])
        ≡ differ (codes "a") (codes "a") }
    // a != b & (a != c & b != c)
    ensures three { distinct_formula three_names
        ≡ both (differ (codes "a") (codes "b"))
        (both (differ (codes "a") (codes "c")) (differ (codes "b") (codes "c"))) }
    // (a != b & (a != c & a != d)) & (b != c & (b != d & c != d))
    ensures four { distinct_formula four_names
        ≡ both
        (both (differ (codes "a") (codes "b"))
        (both (differ (codes "a") (codes "c")) (differ (codes "a") (codes "d"))))
        (both (differ (codes "b") (codes "c"))
        (both (differ (codes "b") (codes "d")) (differ (codes "c") (codes "d")))) }
{}

/// What names stand for: `x` is a variable, `X` is one in the style of Prolog, and a numeral is an element for programs that
/// search or test interpretations, and else a constant. A name that is listed twice is entered once.
pub fn worked_terms()
    ensures prover { symbols_of_names for_prover mixed_names
        ≡ symbol (codes "a") 0 Function ∷ symbol (codes "X") 0 Function
        ∷ symbol (codes "2") 0 Function ∷ symbol (codes "a") 0 Function ∷ [] }
    ensures tester { symbols_of_names for_tester mixed_names
        ≡ symbol (codes "a") 0 Function ∷ symbol (codes "X") 0 Function
        ∷ symbol (codes "a") 0 Function ∷ [] }
    ensures prolog { symbols_of_names in_prolog mixed_names
        ≡ symbol (codes "a") 0 Function ∷ symbol (codes "x") 0 Function
        ∷ symbol (codes "2") 0 Function ∷ symbol (codes "a") 0 Function ∷ [] }
    ensures entered { all_entered [] (symbols_of_names for_prover mixed_names)
        ≡ symbol (codes "a") 0 Function ∷ symbol (codes "X") 0 Function
        ∷ symbol (codes "2") 0 Function ∷ [] }
    ensures constant { term_named for_prover
        (symbol (codes "a") 0 Function ∷ symbol (codes "2") 0 Function ∷ []) (codes "2")
        ≡ app 1 none }
    ensures element { term_named for_tester (symbol (codes "a") 0 Function ∷ []) (codes "2")
        ≡ elem 2 }
    // a != 2
    ensures constants { (distinct_reading for_prover [] a_and_two).tree
        ≡ negation (equal (app 0 none) (app 1 none)) }
    ensures elements { (distinct_reading for_tester [] a_and_two).tree
        ≡ negation (equal (app 0 none) (elem 2)) }
{}

/// Values that differ pairwise, and values of which the first and the last are the same.
pub fn worked_values()
    ensures none { AreDifferent [] }
    ensures single { AreDifferent (4 ∷ []) }
    ensures three { AreDifferent (2 ∷ 0 ∷ 1 ∷ []) }
    ensures ends { ¬ AreDifferent (1 ∷ 0 ∷ 1 ∷ []) }
{}

/// Tokens are an item of some names at most.
pub fn one_list_of_names()
    ensures { (g : OperatorTable) (ts : List Lexeme) (ns ms : List (List ℕ)) → NamesItem g ts ns
        → NamesItem g ts ms → ns ≡ ms }
{}

/// Items of names, and tokens that are none, each with its first bad one: a name is one symbol, and neither the word of a
/// quantifier nor an operator that stands before its argument.
pub fn worked_names()
    ensures none { NamesItem standard (lexemes_of_text "[].") [] }
    ensures names { NamesItem standard (lexemes_of_text "[a,\"b c\",+].")
        (codes "a" ∷ codes "\"b c\"" ∷ codes "+" ∷ []) }
    ensures prefix { IsNamesFault standard (lexemes_of_text "[-,a].") (Bad 1) }
    ensures word { IsNamesFault standard (lexemes_of_text "[a,all].") (Bad 3) }
    ensures attributes { IsNamesFault standard (lexemes_of_text "[#].") (Bad 1) }
    ensures before_comma { IsNamesFault standard (lexemes_of_text "[,a].") (Bad 1) }
    ensures behind_comma { IsNamesFault standard (lexemes_of_text "[a,].") (Bad 3) }
    ensures no_comma { IsNamesFault standard (lexemes_of_text "[a b].") (Bad 2) }
    ensures arguments { IsNamesFault standard (lexemes_of_text "[f(a)].") (Bad 2) }
    ensures term { IsNamesFault standard (lexemes_of_text "a.") (Bad 0) }
    ensures further { IsNamesFault standard (lexemes_of_text "[a]b.") (Bad 3) }
    ensures end { IsNamesFault standard (lexemes_of_text "[a") (Bad 2) }
{}
