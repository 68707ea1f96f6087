// Attributes, hints, demodulators and rules of weights, worked out.
ghost use Rattle.std.specs.Prelude.{◌≡◌, true, false, [], ◌∷◌, Some, None, codes};
ghost use Rattle.fol_core.specs.SymbolTable.{symbol};
ghost use Rattle.fol_core.specs.Tree.{var, app, none, more};
ghost use Rattle.fol_core.specs.Weights.{number, of_variable, plus, times};
ghost use Rattle.fol_core.specs.declared.symbols.Kind.TheVariants.{Function};
ghost use Rattle.ladr_lex.specs.declared.misuse.Misuse.TheVariants.{UnfitNumeral};
ghost use Rattle.ladr_reader.specs.Reads.{Item};
ghost use Rattle.ladr_reader.specs.Worked.{lexemes_of_text, constant, unary, binary, standard};
ghost use Rattle.ladr_formulas.specs.WorkedFormulas.{for_tester, for_prover, in_prolog};
ghost use Rattle.ladr_rules.specs.Asked.{asked, line_asks};
ghost use Rattle.ladr_rules.specs.Attributes.{attributed, label_of, has_unfit_weight, hint_weight_of};
ghost use Rattle.ladr_rules.specs.Rules.{kbo_rule};
ghost use Rattle.ladr_rules.specs.Shapes.{is_hint, is_demodulator};
ghost use Rattle.ladr_rules.specs.Worked.{p, q, a, b, x, y, f, weighing, weight, weight_is, one_and_twice, formula, two_in_front, one_twice, weight_rule_in, misuse_of, symbols_of};

/// What attributes say, and which formulas hints and demodulators may be.
pub fn worked()
    // p # a # b
    ensures text { Item standard (lexemes_of_text "p # a # b.") (binary "#" p (binary "#" a b)) }
    ensures attributes { attributed (binary "#" p (binary "#" a b))
        ≡ record { formula = p; attributes = a ∷ b ∷ [] } }
    // (p # a) # b: the inner `#` stays in the formula.
    ensures inner { attributed (binary "#" (binary "#" p a) b)
        ≡ record { formula = binary "#" p a; attributes = b ∷ [] } }
    // The first label is kept; label(b,b) is none.
    ensures label { label_of (binary "label" b b ∷ unary "label" a ∷ unary "label" b ∷ [])
        ≡ Some (unary "label" a) }
    // The first weight counts, and each has to be right.
    ensures hint_weight { hint_weight_of (weighing "5" ∷ weighing "6" ∷ []) ≡ Some 5 }
    ensures greatest { has_unfit_weight (weighing "2147483647" ∷ []) ≡ false }
    ensures too_great { has_unfit_weight (weighing "2147483648" ∷ []) ≡ true }
    ensures no_number { has_unfit_weight (weighing "5" ∷ weighing "x" ∷ []) ≡ true }
    ensures alone { has_unfit_weight (constant "bsub_hint_wt" ∷ []) ≡ true }
    // p | -q, -(-p) and p & q
    ensures hint { is_hint (formula (binary "|" p (unary "-" q))) ≡ true }
    ensures denied_twice { is_hint (formula (unary "-" (unary "-" p))) ≡ false }
    ensures both { is_hint (formula (binary "&" p q)) ≡ false }
    // f(x) = x, x = f(x) and f(x) = y
    ensures demodulator { is_demodulator (formula (binary "=" (f x) x)) ≡ true }
    ensures variable_on_the_left { is_demodulator (formula (binary "=" x (f x))) ≡ false }
    ensures other_variable { is_demodulator (formula (binary "=" (f x) y)) ≡ false }
{}

/// What formulas ask for by their attributes. Here p stands under two quantifiers `exists`, or under the same one twice.
pub fn worked_asked()
    // exists x exists y p # answer(y), and # answer(x,y)
    ensures one { asked (binary "#" two_in_front (unary "answer" y)) ≡ 1 ∷ [] }
    ensures both { asked (binary "#" two_in_front (binary "answer" y x)) ≡ 1 ∷ 0 ∷ [] }
    // The first that may be asked counts, whatever stands before it.
    ensures first { asked (binary "#" two_in_front (binary "#" (unary "answer" a)
        (binary "#" (unary "answer" x) (unary "answer" y)))) ≡ 0 ∷ [] }
    // answer alone, a variable twice, and a term that is no variable
    ensures alone { asked (binary "#" two_in_front (constant "answer")) ≡ [] }
    ensures twice { asked (binary "#" two_in_front (binary "answer" x x)) ≡ [] }
    ensures other { asked (binary "#" two_in_front (unary "answer" (f x))) ≡ [] }
    // exists x exists x p # answer(x)
    ensures same { asked (binary "#" one_twice (unary "answer" x)) ≡ [] }
    ensures without { asked two_in_front ≡ [] }
{}

/// What lines ask for by their attributes, over the same formulas.
pub fn worked_line_asks()
    // exists x exists y p # label(a) # answer(y)
    ensures one { line_asks (binary "#" two_in_front (binary "#" (unary "label" a)
        (unary "answer" y))) ≡ Some (1 ∷ []) }
    // The first counts, though it asks for nothing that stands in front.
    ensures first { line_asks (binary "#" two_in_front (binary "#" (unary "answer" a)
        (unary "answer" y))) ≡ Some [] }
    // answer alone is no such attribute.
    ensures alone { line_asks (binary "#" two_in_front (constant "answer")) ≡ None }
    ensures without { line_asks two_in_front ≡ None }
    // exists x exists x p # answer(x)
    ensures same { line_asks (binary "#" one_twice (unary "answer" x)) ≡ Some [] }
{}

/// Rules of weights.
pub fn worked_rules()
    // weight(g(y,x)) = 1 + (2 * weight(x)), where y is variable 0 and x is variable 1
    ensures text { Item standard (lexemes_of_text "weight(g(y,x)) = 1 + (2 * weight(x)).")
        one_and_twice }
    ensures rule { weight_rule_in for_prover one_and_twice
        ≡ Some (record {
          head = codes "g";
          arguments = more (var 0)
              (more (var 1) none);
          weight = plus (number 1) (times (number 2) (of_variable 1));
        }) }
    // weight(g(x,X)) = weight(X) and weight(f(x)) = weight(x), with the variables of Prolog
    ensures prolog { weight_rule_in in_prolog (weight_is (binary "g" x (constant "X"))
        (weight (constant "X")))
        ≡ Some (record {
          head = codes "g";
          arguments = more (app 0 none)
              (more (var 0) none);
          weight = of_variable 0;
        }) }
    ensures no_variable { weight_rule_in in_prolog (weight_is (f x) (weight x)) ≡ None }
    // weight(x) = 1, weight(f(x)) = weight(y) and weight(f(x)) = 2147483648
    ensures variable_pattern { weight_rule_in for_prover (weight_is x (constant "1")) ≡ None }
    ensures other_variable { weight_rule_in for_prover (weight_is (f x) (weight y)) ≡ None }
    ensures great_value { weight_rule_in for_prover (weight_is (f x) (constant "2147483648"))
        ≡ None }
    // weight(f(1000000000)) = 1: for the prover the numeral is a constant. The head of the pattern isn't entered.
    ensures numeral { misuse_of for_tester (weight_is (f (constant "1000000000")) (constant "1"))
        ≡ Some UnfitNumeral }
    ensures symbols { symbols_of for_prover (weight_is (f (constant "1000000000")) (constant "1"))
        ≡ Some (symbol (codes "1000000000") 0 Function ∷ []) }
    // KBO: f = 65535, f = 0, f = 65536 and f(x) = 3
    ensures kbo { kbo_rule (binary "=" (constant "f") (constant "65535"))
        ≡ Some (codes "f", 65535) }
    ensures kbo_zero { kbo_rule (binary "=" (constant "f") (constant "0")) ≡ None }
    ensures kbo_too_great { kbo_rule (binary "=" (constant "f") (constant "65536")) ≡ None }
    ensures kbo_of_term { kbo_rule (binary "=" (f x) (constant "3")) ≡ None }
{}
