// What the definition of a file amounts to, and files worked out.
ghost use Rattle.std.specs.Prelude.{◌≡◌, ℕ, List, [], codes};
ghost use Rattle.ladr_lex.specs.declared.misuse.Misuse.TheVariants.{UnknownFlag, TwoKinds, UnfitHint, UnfitDemodulator, UnfitRule, Uncovered};
ghost use Rattle.ladr_problem.specs.File.{Outcome, Says, problem, unreadable, misused};
ghost use Rattle.ladr_problem.specs.Growth.{Grown};
ghost use Rattle.ladr_problem.specs.Proper.{IsProper};
ghost use Rattle.ladr_problem.specs.Sofar.{Sofar, stated_in, nothing_read};
ghost use Rattle.ladr_problem.specs.Worked.{labelled_and_goal, one_equation, weighed};
ghost use Rattle.ladr_formulas.specs.declared.styles.Mode.{Mode};
ghost use Rattle.ladr_formulas.specs.declared.styles.Mode.TheVariants.{Prover, Mace, Tester};

/// A file says one thing at most to a program.
pub fn one_outcome()
    ensures { (m : Mode) (bytes : List ℕ) (o p : Outcome) → Says m bytes o → Says m bytes p
        → o ≡ p }
{}

/// What a file says to a program has grown of its settings, its formulas and its rules.
pub fn problems_grow()
    ensures { (m : Mode) (bytes : List ℕ) (s : Sofar) → Says m bytes (problem s) → Grown m s }
{}

/// What has grown is a proper problem.
pub fn problems_are_proper()
    ensures { (m : Mode) (s : Sofar) → Grown m s → IsProper (stated_in s) s.settings.options }
{}

/// Files worked out.
pub fn worked()
    ensures nothing { Says Prover [] (problem nothing_read) }
    // A program that tests interpretations is to have one.
    ensures untested { Says Tester [] (misused 0 Uncovered) }
    ensures unknown_flag { Says Prover (codes "% a\nset(b).\n") (misused 4 UnknownFlag) }
    ensures for_another { Says Mace (codes "if(Prover9).\nset(b).\nend_if.\n")
        (problem nothing_read) }
    ensures not_for_another { Says Prover (codes "if(Prover9).\nset(b).\nend_if.\n")
        (misused 13 UnknownFlag) }
    ensures open_list { Says Mace (codes "formulas(goals).\n") (unreadable 17) }
{}

/// Files with formulas, worked out. What is refused has the first byte of its item as place, or that of its first bad token.
pub fn worked_formulas()
    // The symbols are numbered as they come, and the label is kept.
    ensures listed { Says Prover (codes
        "formulas(sos).\np(a) # label(b).\nend_of_list.\nformulas(goals).\nq(x).\nend_of_list.\n")
        (problem labelled_and_goal) }
    // f stands for a relation, and then for a function.
    ensures clash { Says Prover (codes "formulas(sos).\nf(a).\nf(a) = b.\nend_of_list.\n")
        (misused 21 TwoKinds) }
    // A formula for another program enters no symbol.
    ensures for_another { Says Prover (codes
        "if(Mace4). formulas(sos). f(a). end_of_list. end_if. formulas(sos). f(a)=b. end_of_list.")
        (problem one_equation) }
    // p & q is no clause, and x = f(x) no demodulator.
    ensures hint { Says Prover (codes "formulas(hints).\np | -q.\np & q.\nend_of_list.\n")
        (misused 25 UnfitHint) }
    ensures demodulator { Says Prover (codes
        "formulas(demodulators).\nf(x) = x.\nx = f(x).\nend_of_list.\n")
        (misused 34 UnfitDemodulator) }
    // Each name has one weight for KBO.
    ensures weights { Says Prover (codes "list(kbo_weights).\nf = 2.\ng = 3.\nend_of_list.\n")
        (problem weighed) }
    ensures weighed_twice { Says Prover (codes "list(kbo_weights).\nf = 2.\nf = 3.\nend_of_list.\n")
        (misused 26 UnfitRule) }
    // The interpretation lacks p.
    ensures lacking { Says Tester (codes
        "interpretation(2,[],[]).\nformulas(sos).\np.\nend_of_list.\n")
        (misused 40 Uncovered) }
    // q can't stand behind p(a).
    ensures not_read { Says Mace (codes "formulas(sos).\np(a) q.\nend_of_list.\n") (unreadable 20) }
{}
