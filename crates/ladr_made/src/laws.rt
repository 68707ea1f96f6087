// A generated problem worked out, and its summary: the function does nothing, and its contract is the law.
ghost use Rattle.std.specs.Prelude.{◌≡◌, Some, codes};
ghost use Rattle.ladr_check.specs.declared.ends.CheckEnd.TheVariants.{Accepted};
ghost use Rattle.ladr_made.specs.Chain.{assumptions_text, made_text};
ghost use Rattle.ladr_made.specs.Summary.{summary_text};

/// The problems of one step and of two, and what is printed of a problem.
pub fn worked()
    ensures one { assumptions_text 1
        ≡ codes "formulas(assumptions).\np(a0).\ng(a0) = a1.\n-p(a0) | p(g(a0)).\nend_of_list.\n" }
    ensures two { made_text 2
        ≡ codes "formulas(assumptions).\np(a0).\ng(a0) = a1.\n-p(a0) | p(g(a0)).\ng(a1) = a2.\n-p(a1) | p(g(a1)).\nend_of_list.\nformulas(goals).\np(a2).\nend_of_list.\n" }
    ensures printed { summary_text 2
        (record { status = 0; given = 0; kept = 5; length = 15; level = 4; checked = Some (record { end = Accepted 1 }) })
        (record { status = 0; size = 2 })
        ≡ codes "% Made 2.\n% Prover9 status 0. Given=0. Kept=5. Length=15. Level=4.\n% Check accepted.\n% Mace4 status 0. Size=2.\n% Exit made.\n" }
{}
