// What the definitions of commands amount to.
ghost use Rattle.std.specs.Prelude.{◌≡◌, ◌↔◌, Bool, true, false, List, [], ◌∷◌, codes};
ghost use Rattle.ladr_lex.specs.Lexeme.{Lexeme};
ghost use Rattle.fol_core.specs.declared.symbols.Kind.TheVariants.{Function};
ghost use Rattle.ladr_commands.specs.ByName.{ByName, table, by_name};
ghost use Rattle.ladr_commands.specs.Commands.{commands, tester_commands, commands_of, interpretation_item};
ghost use Rattle.ladr_commands.specs.Faults.{IsBadCommandToken};
ghost use Rattle.ladr_commands.specs.Form.{Form, SaysCommand};
ghost use Rattle.ladr_commands.specs.Spelled.{Spells, SpellsInterpretation};
ghost use Rattle.ladr_commands.specs.Worked.{flag, negative, sign, zeros, operators, empty_list, unknown, cut_off, exchange, order, no_entries};
ghost use Rattle.ladr_commands.specs.declared.command.Command.{Command};
ghost use Rattle.ladr_commands.specs.declared.command.Command.TheVariants.{Flag, Assign, Op, FunctionOrder, Interpretation};
ghost use Rattle.ladr_commands.specs.declared.command.Value.TheVariants as value;

/// Tokens are one command at most.
pub fn one_command()
    ensures { (f : Form) (ts : List Lexeme) (c d : Command) → SaysCommand f ts c
        → SaysCommand f ts d → c ≡ d }
{}

/// The forms of commands go through the tokens that spell a command, and no others.
pub fn commands_are_spelled()
    ensures commands { (tester : Bool) (ts : List Lexeme) (c : Command)
        → SaysCommand (commands_of tester) ts c ↔ Spells tester ts c }
    ensures interpretations { (ts : List Lexeme) (it : ByName)
        → SaysCommand interpretation_item ts (Interpretation it) ↔ SpellsInterpretation ts it }
{}

/// Commands, and tokens that are none.
pub fn worked()
    ensures flag { SaysCommand commands flag (Flag true (codes "auto")) }
    ensures negative { SaysCommand commands negative
        (Assign (codes "max_weight") (value.Number true 1)) }
    ensures sign { SaysCommand commands sign
        (Assign (codes "order") (value.Symbol (codes "-"))) }
    ensures operators { SaysCommand commands operators
        (Op 700 (codes "infix_left") (codes "\"@@\"" ∷ codes "f" ∷ [])) }
    ensures zeros { IsBadCommandToken commands zeros 5 }
    ensures empty_list { IsBadCommandToken commands empty_list 3 }
    ensures unknown { IsBadCommandToken commands unknown 0 }
    ensures entries { SaysCommand tester_commands exchange
        (Interpretation (by_name 2 (table Function (codes "f") 1 (1 ∷ 0 ∷ []) ∷ []))) }
    ensures other_program { IsBadCommandToken commands exchange 0 }
    ensures cut_off { IsBadCommandToken commands cut_off 1 }
{}

/// What tokens spell, and tokens that spell nothing.
pub fn worked_spellings()
    ensures flag { Spells false flag (Flag true (codes "auto")) }
    ensures negative { Spells false negative
        (Assign (codes "max_weight") (value.Number true 1)) }
    ensures sign { Spells false sign (Assign (codes "order") (value.Symbol (codes "-"))) }
    ensures operators { Spells false operators
        (Op 700 (codes "infix_left") (codes "\"@@\"" ∷ codes "f" ∷ [])) }
    ensures order { Spells false order (FunctionOrder (codes "c" ∷ codes "\"g\"" ∷ [])) }
    ensures entries { Spells true exchange
        (Interpretation (by_name 2 (table Function (codes "f") 1 (1 ∷ 0 ∷ []) ∷ []))) }
    ensures no_entries { SpellsInterpretation no_entries (by_name 1 []) }
    ensures zeros { (c : Command) → ¬ Spells false zeros c }
    ensures empty_list { (c : Command) → ¬ Spells true empty_list c }
    ensures cut_off { (c : Command) → ¬ Spells false cut_off c }
    ensures other_program { (c : Command) → ¬ Spells false exchange c }
{}
