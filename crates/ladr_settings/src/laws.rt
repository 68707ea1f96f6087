// Commands and what they make of settings, worked out.
ghost use Rattle.std.specs.Prelude.{◌≡◌, false, true, [], ◌∷◌, Ok, Err, Some, codes};
ghost use Rattle.ladr_lex.specs.declared.misuse.Misuse.TheVariants.{UnknownFlag, UnknownParameter, UnfitValue, UnknownList, UnfitOperator, UnfitSymbol, TooLate, UnmatchedIf, UnfitRule, UnfitInterpretation};
ghost use Rattle.ladr_commands.specs.ByName.{by_name};
ghost use Rattle.ladr_commands.specs.declared.command.Command.{Command};
ghost use Rattle.ladr_commands.specs.declared.command.Command.TheVariants as command;
ghost use Rattle.ladr_commands.specs.declared.command.Value.TheVariants as value;
ghost use Rattle.ladr_options.specs.Ranges.{AreInRange};
ghost use Rattle.ladr_formulas.specs.declared.styles.Mode.{Mode};
ghost use Rattle.ladr_formulas.specs.declared.styles.Mode.TheVariants.{Prover, Mace, Tester};
ghost use Rattle.ladr_settings.specs.Settings.{settings_after, at_start};
ghost use Rattle.ladr_settings.specs.declared.lists.FormulaList.TheVariants.{Assumptions};
ghost use Rattle.ladr_settings.specs.declared.lists.OpenList.TheVariants as list;
ghost use Rattle.ladr_settings.specs.declared.settings.Settings.{Settings};

/// Each misuse of a command, and what is none.
pub fn worked()
    ensures unknown_flag { settings_after Prover (command.Flag true (codes "nosuchflag")) at_start
        ≡ Err UnknownFlag }
    ensures unknown_parameter { settings_after Prover
        (command.Assign (codes "max_depth") (value.Number true 1)) at_start ≡ Err UnknownParameter }
    // Some parameters are no file's yet.
    ensures kept_back { settings_after Prover
        (command.Assign (codes "proof_format") (value.Number false 2)) at_start
        ≡ Err UnknownParameter }
    ensures kept_back_symbol { settings_after Prover
        (command.Assign (codes "eval_limit") (value.Symbol (codes "none"))) at_start
        ≡ Err UnknownParameter }
    ensures unfit_value { settings_after Prover (command.Assign (codes "order")
        (value.Symbol (codes "rpo"))) at_start ≡ Err UnfitValue }
    ensures unknown_list { settings_after Prover (command.Formulas (codes "theorems")) at_start
        ≡ Err UnknownList }
    ensures operator { settings_after Prover (command.Op 999 (codes "infix") (codes "&" ∷ []))
        at_start ≡ Err UnfitOperator }
    ensures symbol { settings_after Prover (command.Op 998 (codes "infix")
        (codes "@@" ∷ codes "&" ∷ [])) at_start ≡ Err UnfitSymbol }
    ensures too_late { settings_after Prover (command.Op 998 (codes "infix") (codes "@@" ∷ []))
        (record at_start { listed = true }) ≡ Err TooLate }
    ensures late_style { settings_after Mace (command.Flag true (codes "prolog_style_variables"))
        (record at_start { listed = true }) ≡ Err TooLate }
    ensures nested_if { settings_after Prover (command.If (codes "Mace4"))
        (record at_start { block = Some (codes "Prover9") }) ≡ Err UnmatchedIf }
    ensures unmatched_end { settings_after Tester command.EndIf at_start ≡ Err UnmatchedIf }
    ensures unfit_order { settings_after Prover (command.FunctionOrder
        (codes "f" ∷ codes "e" ∷ codes "f" ∷ [])) at_start ≡ Err UnfitRule }
    ensures unfit_interpretation { settings_after Tester (command.Interpretation (by_name 0 []))
        at_start ≡ Err UnfitInterpretation }
    ensures second_interpretation { settings_after Tester (command.Interpretation (by_name 1 []))
        (record at_start { interpretations = by_name 2 [] ∷ [] })
        ≡ Ok (record at_start { interpretations = by_name 2 [] ∷ by_name 1 [] ∷ [] }) }
    ensures assumptions { settings_after Prover (command.Formulas (codes "sos")) at_start
        ≡ Ok (record at_start { list = Some (list.Formulas Assumptions); listed = true }) }
    // Names that are to differ are no formulas.
    ensures names { settings_after Mace (command.List (codes "distinct")) at_start
        ≡ Ok (record at_start { list = Some list.Distinct; listed = true }) }
    ensures names_as_formulas { settings_after Mace (command.Formulas (codes "distinct")) at_start
        ≡ Err UnknownList }
    ensures predicates { settings_after Prover
        (command.PredicateOrder (codes "p" ∷ codes "p" ∷ [])) at_start ≡ Ok at_start }
    ensures other_if { settings_after Prover (command.If (codes "Prover9"))
        (record at_start { block = Some (codes "Mace4") })
        ≡ Ok (record at_start { block = Some (codes "Mace4") }) }
    ensures other_list { settings_after Prover (command.Formulas (codes "theorems"))
        (record at_start { block = Some (codes "Mace4") })
        ≡ Ok (record at_start { block = Some (codes "Mace4"); list = Some list.OtherFormulas }) }
    ensures other_flag { settings_after Tester (command.Flag true (codes "nosuchflag"))
        (record at_start { block = Some (codes "Prover9") })
        ≡ Ok (record at_start { block = Some (codes "Prover9") }) }
{}

/// The options are in range at the start, and a command keeps them so.
pub fn options_stay_in_range()
    ensures start { AreInRange at_start.options }
    ensures after { (p : Mode) (c : Command) (s t : Settings) → settings_after p c s ≡ Ok t
        → AreInRange s.options → AreInRange t.options }
{}
