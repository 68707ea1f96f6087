// Readings of terms, worked out.
ghost use Rattle.std.specs.Prelude.{◌≡◌, suc, [], ◌∷◌, codes, None, Some, true, false, replicate};
ghost use Rattle.fol_core.specs.RawTree.{named, raws_of};
ghost use Rattle.fol_core.specs.Fol.{verum, falsum, equal, atom, negation, conjunction, disjunction, implication, equivalence, forall};
ghost use Rattle.fol_core.specs.SymbolTable.{symbol};
ghost use Rattle.fol_core.specs.Tree.{var, elem, app, none, more};
ghost use Rattle.fol_core.specs.declared.symbols.Kind.TheVariants.{Function, Relation};
ghost use Rattle.ladr_lex.specs.declared.limits.TheConstants.{MOST_ARGUMENTS, MOST_SYMBOLS};
ghost use Rattle.ladr_lex.specs.declared.misuse.Misuse.TheVariants.{TwoKinds, VariableAsFormula, QuantifierInTerm, UnfitAttribute, UnfitNumeral};
ghost use Rattle.ladr_formulas.specs.Broken.{least_of};
ghost use Rattle.ladr_formulas.specs.Counting.{is_wide, IsCounted};
ghost use Rattle.ladr_formulas.specs.Formulas.{formula_reading, names_of_variables};
ghost use Rattle.ladr_formulas.specs.Means.{Means};
ghost use Rattle.ladr_formulas.specs.Occurring.{occurring, new_symbols};
ghost use Rattle.ladr_formulas.specs.VariablesMet.{variables_in};
ghost use Rattle.ladr_formulas.specs.WorkedFormulas.{for_tester, for_prover, in_prolog, misuse_of, rows_of, leaf, one_part, function, bound_variable, free_variable, bound_and_free, involution, one_name_twice, misuses, numeral, three_arities, constant_bound, denial_of_two, connectives, great_numeral, great_function};

/// Terms and their formulas.
pub fn worked_formulas()
    // all x p(x,f(y)): the bound variable is number 0, the free one number 1; p comes before f.
    ensures bound_and_free { (formula_reading for_tester [] bound_and_free).tree
        ≡ forall 0 (atom 0 (more (var 0) (more (function 1 (var 1)) none))) }
    ensures names { names_of_variables
        (formula_reading for_tester [] bound_and_free).reading.variables
        ≡ codes "x" ∷ codes "y" ∷ [] }
    ensures symbols { (formula_reading for_tester [] bound_and_free).reading.symbols
        ≡ symbol (codes "p") 2 Relation ∷ symbol (codes "f") 1 Function ∷ [] }
    // f(f(x)) = x
    ensures involution { (formula_reading for_tester [] involution).tree
        ≡ equal (function 0 (function 0 (var 0))) (var 0) }
    // p(x) <- (all x q(x)): the premise is read first, and the free x is another variable than the bound one.
    ensures one_name_twice { (formula_reading for_tester [] one_name_twice).tree
        ≡ implication (forall 0 (atom 0 (more (var 0) none))) (atom 1 (more (var 1) none)) }
    // p(f,f(x),f(x,x)): three symbols have the name f.
    ensures three_arities { (formula_reading for_tester [] three_arities).tree
        ≡ atom 0 (more (app 1 none)
        (more (function 2 (var 0)) (more (app 3 (more (var 0) (more (var 0) none))) none))) }
    // $T <-> ($F & (t | u(x)))
    ensures connectives { (formula_reading for_tester [] connectives).tree
        ≡ equivalence verum
        (conjunction falsum (disjunction (atom 0 none) (atom 1 (more (var 0) none)))) }
    // all $T p($T): what is quantified is a variable whatever its name.
    ensures constant_bound { (formula_reading for_tester [] constant_bound).tree
        ≡ forall 0 (atom 0 (more (var 0) none)) }
    // -(p,q): `-` denies one formula, and of two terms it is a relation.
    ensures denial_of_two { (formula_reading for_tester [] denial_of_two).tree
        ≡ atom 0 (more (app 1 none) (more (app 2 none) none)) }
    // a != 2: for the prover 2 is a constant.
    ensures element { (formula_reading for_tester [] numeral).tree
        ≡ negation (equal (app 0 none) (elem 2)) }
    ensures constant { (formula_reading for_prover [] numeral).tree
        ≡ negation (equal (app 0 none) (app 1 none)) }
{}

/// Terms that are misused as formulas.
pub fn worked_refusals()
    // f is a relation and a function, x a variable where a formula is wanted, and a numeral too great: the first counts.
    ensures misuses { misuse_of for_tester misuses ≡ Some TwoKinds }
    ensures rows { rows_of for_tester misuses
        ≡ VariableAsFormula ∷ UnfitNumeral ∷ TwoKinds ∷ [] }
    ensures least { least_of (VariableAsFormula ∷ UnfitNumeral ∷ TwoKinds ∷ []) ≡ Some TwoKinds }
    // x and, with the variables of Prolog, X
    ensures variable { misuse_of for_tester (leaf (codes "x")) ≡ Some VariableAsFormula }
    ensures prolog { misuse_of in_prolog (leaf (codes "X")) ≡ Some VariableAsFormula }
    ensures no_variable { misuse_of in_prolog (leaf (codes "x")) ≡ None }
    // p(all x p(x)): a quantifier below a relation
    ensures quantifier { misuse_of for_tester (one_part (codes "p") bound_and_free)
        ≡ Some QuantifierInTerm }
    // p(#)
    ensures hash { misuse_of for_tester (one_part (codes "p") (leaf (codes "#")))
        ≡ Some UnfitAttribute }
    // 3(a)
    ensures numeral { misuse_of for_tester (one_part (codes "3") (leaf (codes "a")))
        ≡ Some UnfitNumeral }
    // p(1000000000) and p(1000000000(a)): for the prover these are symbols.
    ensures great { misuse_of for_tester great_numeral ≡ Some UnfitNumeral }
    ensures great_function { misuse_of for_tester great_function ≡ Some UnfitNumeral }
    ensures symbols { misuse_of for_prover great_function ≡ None }
{}

/// The symbols of terms, in their order.
pub fn worked_symbols()
    // p(f,f(x),f(x,x))
    ensures three_arities { occurring for_tester [] three_arities
        ≡ symbol (codes "p") 3 Relation ∷ symbol (codes "f") 0 Function ∷
        symbol (codes "f") 1 Function ∷ symbol (codes "f") 2 Function ∷ [] }
    // p(x) <- (all x q(x)): the premise is read first.
    ensures premise_first { occurring for_tester [] one_name_twice
        ≡ symbol (codes "q") 1 Relation ∷ symbol (codes "p") 1 Relation ∷ [] }
    // $T <-> ($F & (t | u(x)))
    ensures connectives { occurring for_tester [] connectives
        ≡ symbol (codes "t") 0 Relation ∷ symbol (codes "u") 1 Relation ∷ [] }
    // all $T p($T)
    ensures constant_bound { occurring for_tester [] constant_bound
        ≡ symbol (codes "p") 1 Relation ∷ [] }
    // a != 2: for the prover 2 is a constant.
    ensures element { occurring for_tester [] numeral ≡ symbol (codes "a") 0 Function ∷ [] }
    ensures constant { occurring for_prover [] numeral
        ≡ symbol (codes "a") 0 Function ∷ symbol (codes "2") 0 Function ∷ [] }
    // f(f(x)) = x: f occurs twice, and is one new symbol, or none where it stands in the table.
    ensures involution { occurring for_tester [] involution
        ≡ symbol (codes "f") 1 Function ∷ symbol (codes "f") 1 Function ∷ [] }
    ensures once { new_symbols [] (occurring for_tester [] involution)
        ≡ symbol (codes "f") 1 Function ∷ [] }
    ensures known { new_symbols (symbol (codes "f") 1 Function ∷ [])
        (occurring for_tester [] involution) ≡ [] }
{}

/// What is counted: symbols that are entered, and arguments.
pub fn worked_counts()
    // f(f(x)) = x behind no symbol, and behind f
    ensures entered { IsCounted [] (occurring for_tester [] involution)
        (symbol (codes "f") 1 Function ∷ []) true }
    ensures known { IsCounted (symbol (codes "f") 1 Function ∷ [])
        (occurring for_tester [] involution) (symbol (codes "f") 1 Function ∷ []) true }
    // p(f,f(x),f(x,x)): three arities, four symbols
    ensures arities { IsCounted [] (occurring for_tester [] three_arities)
        (symbol (codes "p") 3 Relation ∷ symbol (codes "f") 0 Function ∷
        symbol (codes "f") 1 Function ∷ symbol (codes "f") 2 Function ∷ []) true }
    // A list of one symbol more than a problem may have is too long; what is entered then is not said.
    ensures over { IsCounted (replicate (suc MOST_SYMBOLS) (symbol (codes "f") 1 Function)) [] []
        false }
    // p with as many arguments as there may be, and with one more
    ensures most { is_wide (named (codes "p")
        (raws_of (replicate MOST_ARGUMENTS (leaf (codes "a"))))) ≡ false }
    ensures wide { is_wide (named (codes "p")
        (raws_of (replicate (suc MOST_ARGUMENTS) (leaf (codes "a"))))) ≡ true }
{}

/// The variables of terms, by number.
pub fn worked_variables()
    // all x p(x,f(y))
    ensures bound_and_free { variables_in for_tester bound_and_free
        ≡ bound_variable (codes "x") ∷ free_variable (codes "y") ∷ [] }
    // p(x) <- (all x q(x)): the bound x is read first.
    ensures one_name_twice { variables_in for_tester one_name_twice
        ≡ bound_variable (codes "x") ∷ free_variable (codes "x") ∷ [] }
    // p(f,f(x),f(x,x))
    ensures three_arities { variables_in for_tester three_arities
        ≡ free_variable (codes "x") ∷ [] }
    // all $T p($T)
    ensures constant_bound { variables_in for_tester constant_bound
        ≡ bound_variable (codes "$T") ∷ [] }
    // p(f,f(x),f(x,x)) with the variables of Prolog
    ensures prolog { variables_in in_prolog three_arities ≡ [] }
{}

/// What terms mean.
pub fn worked_meanings()
    // all x p(x,f(y)), where p is symbol 0 and f symbol 1, x variable 0 and y variable 1
    ensures bound_and_free { Means for_tester
        (symbol (codes "p") 2 Relation ∷ symbol (codes "f") 1 Function ∷ [])
        (bound_variable (codes "x") ∷ free_variable (codes "y") ∷ []) [] bound_and_free
        (forall 0 (atom 0 (more (var 0) (more (function 1 (var 1)) none)))) }
    // p(x) <- (all x q(x)), where p is symbol 1 and q symbol 0, and the free x is variable 1
    ensures one_name_twice { Means for_tester
        (symbol (codes "q") 1 Relation ∷ symbol (codes "p") 1 Relation ∷ [])
        (bound_variable (codes "x") ∷ free_variable (codes "x") ∷ []) [] one_name_twice
        (implication (forall 0 (atom 0 (more (var 0) none))) (atom 1 (more (var 1) none))) }
    // a != 2: no variables
    ensures element { Means for_tester (symbol (codes "a") 0 Function ∷ []) [] [] numeral
        (negation (equal (app 0 none) (elem 2))) }
    ensures constant { Means for_prover
        (symbol (codes "2") 0 Function ∷ symbol (codes "a") 0 Function ∷ []) [] [] numeral
        (negation (equal (app 1 none) (app 0 none))) }
{}
