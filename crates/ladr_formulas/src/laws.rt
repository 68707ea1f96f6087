// Laws of the definitions.
ghost use Rattle.std.specs.Prelude.{◌≡◌, ℕ, Bool, Some, None, true, false, List, [], ◌++◌};
ghost use Rattle.std.specs.List.{list_any};
ghost use Rattle.fol_core.specs.Fol.{Fol};
ghost use Rattle.fol_core.specs.Literals.{ClauseTree};
ghost use Rattle.fol_core.specs.Occurs.{names, names_in, names_in_any};
ghost use Rattle.fol_core.specs.RawTree.{RawTree, RawTrees};
ghost use Rattle.fol_core.specs.SymbolTable.{Symbol, KeepsNumbers};
ghost use Rattle.fol_core.specs.Tree.{Trees};
ghost use Rattle.ladr_lex.specs.Cuts.{is_quoted};
ghost use Rattle.ladr_formulas.specs.Broken.{broken, broken_outside, least_of};
ghost use Rattle.ladr_formulas.specs.ClauseIn.{clause_in};
ghost use Rattle.ladr_formulas.specs.Formulas.{Style, is_free_name, formula_reading, terms_of, unread, style_of};
ghost use Rattle.ladr_formulas.specs.Means.{IsMeaning, MeanTerms};
ghost use Rattle.ladr_formulas.specs.Occurring.{symbols_of_terms, occurring, new_symbols, has_many_arguments};
ghost use Rattle.ladr_formulas.specs.VariablesMet.{variables_of_terms, numbered, variables_in};

use crate::styles::Mode;

/// A quoted symbol is no free variable.
pub fn quoted_names()
    ensures { (st : Style) (text : List ℕ) → is_quoted text ≡ true → is_free_name st text ≡ false }
{}

/// What a term is read as behind a table it is read as behind a larger one, which then stays as it is: behind one that has all
/// that was entered, with more symbols at its end.
pub fn larger_tables()
    ensures { (st : Style) (table larger : List Symbol) (t : RawTree) →
        KeepsNumbers (formula_reading st table t).reading.symbols larger →
        formula_reading st larger t ≡ record {
          tree = (formula_reading st table t).tree;
          reading = record (formula_reading st table t).reading { symbols = larger };
        } }
{}

/// Behind a reading the table is the one before it and then what is new, in the order in which it occurs, and an arity is too
/// large where one of these is; the variables are in their order too. The row of misuse that is told is the least of those that
/// the term breaks; there is none exactly where the term means a formula by these symbols and variables, and the formula is that
/// one.
pub fn readings_mean()
    ensures ordered { (st : Style) (table : List Symbol) (t : RawTree) →
        (formula_reading st table t).reading.symbols
        ≡ table ++ new_symbols table (occurring st [] t) }
    ensures numbered { (st : Style) (table : List Symbol) (t : RawTree) →
        (formula_reading st table t).reading.variables ≡ variables_in st t }
    ensures arity { (st : Style) (table : List Symbol) (t : RawTree) →
        (formula_reading st table t).reading.large ≡ has_many_arguments (occurring st [] t) }
    ensures least { (st : Style) (table : List Symbol) (t : RawTree) →
        (formula_reading st table t).reading.least
        ≡ least_of (broken st (formula_reading st table t).reading.symbols t) }
    ensures means { (st : Style) (table : List Symbol) (t : RawTree) →
        (formula_reading st table t).reading.least ≡ None →
        IsMeaning st (formula_reading st table t).reading.symbols t
        (formula_reading st table t).tree }
    ensures unmet { (st : Style) (table : List Symbol) (t : RawTree) (f : Fol) →
        IsMeaning st (formula_reading st table t).reading.symbols t f →
        (formula_reading st table t).reading.least ≡ None }
{}

/// So it is of terms that stand in no formula.
pub fn terms_mean()
    ensures ordered { (st : Style) (table : List Symbol) (ts : RawTrees) →
        (terms_of st [] (unread table) ts).reading.symbols
        ≡ table ++ new_symbols table (symbols_of_terms st [] ts) }
    ensures numbered { (st : Style) (table : List Symbol) (ts : RawTrees) →
        (terms_of st [] (unread table) ts).reading.variables
        ≡ numbered (variables_of_terms st [] ts) }
    ensures arity { (st : Style) (table : List Symbol) (ts : RawTrees) →
        (terms_of st [] (unread table) ts).reading.large
        ≡ has_many_arguments (symbols_of_terms st [] ts) }
    ensures least { (st : Style) (table : List Symbol) (ts : RawTrees) →
        (terms_of st [] (unread table) ts).reading.least
        ≡ least_of (broken_outside st (terms_of st [] (unread table) ts).reading.symbols ts) }
    ensures means { (st : Style) (table : List Symbol) (ts : RawTrees) →
        (terms_of st [] (unread table) ts).reading.least ≡ None →
        MeanTerms st (terms_of st [] (unread table) ts).reading.symbols
        (numbered (variables_of_terms st [] ts)) [] ts
        (terms_of st [] (unread table) ts).tree }
    ensures unmet { (st : Style) (table : List Symbol) (ts : RawTrees) (us : Trees) →
        MeanTerms st (terms_of st [] (unread table) ts).reading.symbols
        (numbered (variables_of_terms st [] ts)) [] ts us →
        (terms_of st [] (unread table) ts).reading.least ≡ None }
{}

/// By a table of symbols a term as read means one formula at most.
pub fn one_meaning()
    ensures { (st : Style) (table : List Symbol) (t : RawTree) (f g : Fol) →
        IsMeaning st table t f → IsMeaning st table t g → f ≡ g }
{}

/// What is read for the prover names no element.
pub fn prover_names_no_element()
    ensures formulas { (prolog : Bool) (table : List Symbol) (t : RawTree) (k : ℕ) →
        names k (formula_reading (style_of Mode.Prover prolog) table t).tree ≡ false }
    ensures terms { (prolog : Bool) (table : List Symbol) (ts : RawTrees) (k : ℕ) →
        names_in_any k (terms_of (style_of Mode.Prover prolog) [] (unread table) ts).tree ≡ false }
    ensures clauses { (prolog : Bool) (table : List Symbol) (t : RawTree) (c : ClauseTree) →
        clause_in (formula_reading (style_of Mode.Prover prolog) table t).tree ≡ Some c →
        (k : ℕ) → list_any (λ l. names_in k l.atom) c ≡ false }
{}
