// Options worked out.
ghost use Rattle.std.specs.Prelude.{◌≡◌, ℕ, Bool, List, true, false, Ok, Err, codes};
ghost use Rattle.ladr_options.specs.Options.{start, flagged, numbered, symbolized};
ghost use Rattle.ladr_options.specs.Ranges.{AreInRange};
ghost use Rattle.ladr_options.specs.declared.options.Options.{Options};
ghost use Rattle.ladr_options.specs.declared.options.OptionError.TheVariants.{Unknown, NotAValue};
ghost use Rattle.ladr_options.specs.declared.options.Order.TheVariants.{Kbo};

/// Flags and parameters that are changed, and such as can't be.
pub fn worked()
    ensures cleared { flagged (codes "auto") false start ≡ Ok (record start { auto = false }) }
    ensures idle { flagged (codes "quiet") true start ≡ Ok start }
    ensures unknown_flag { flagged (codes "nosuchflag") true start ≡ Err Unknown }
    ensures unlimited { numbered (codes "max_weight") true 1 start
        ≡ Ok (record start { max_weight = 4294967295 }) }
    ensures greatest { numbered (codes "max_weight") false 2147483648 start ≡ Err NotAValue }
    ensures ratio { numbered (codes "pick_given_ratio") false 3 start
        ≡ Ok (record start { age_part = 1; weight_part = 3; false_part = 0; true_part = 0 }) }
    ensures no_size { numbered (codes "start_size") false 0 start ≡ Err NotAValue }
    ensures no_measure { numbered (codes "selection_measure") false 5 start ≡ Err NotAValue }
    ensures format { numbered (codes "proof_format") false 2 start
        ≡ Ok (record start { proof_format = 2 }) }
    ensures no_format { numbered (codes "proof_format") false 3 start ≡ Err NotAValue }
    ensures no_eval_limit { numbered (codes "eval_limit") true 1 start ≡ Err NotAValue }
    ensures unknown_parameter { numbered (codes "max_depth") false 3 start ≡ Err Unknown }
    ensures order { symbolized (codes "order") (codes "kbo") start
        ≡ Ok (record start { order = Kbo }) }
    ensures pass { symbolized (codes "eq_defs") (codes "pass") start ≡ Ok start }
    ensures fold { symbolized (codes "eq_defs") (codes "fold") start ≡ Err NotAValue }
    ensures zeros { symbolized (codes "max_weight") (codes "07") start ≡ Err NotAValue }
{}

/// Sizes and numbers of models are in range at the start, and whatever changes the options keeps them so.
pub fn options_stay_in_range()
    ensures start { AreInRange start }
    ensures flags { (name : List ℕ) (on : Bool) (s t : Options) → flagged name on s ≡ Ok t
        → AreInRange s → AreInRange t }
    ensures numbers { (name : List ℕ) (negative : Bool) (n : ℕ) (s t : Options)
        → numbered name negative n s ≡ Ok t → AreInRange s → AreInRange t }
    ensures symbols { (name text : List ℕ) (s t : Options) → symbolized name text s ≡ Ok t
        → AreInRange s → AreInRange t }
{}
