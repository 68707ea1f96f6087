// Laws of the texts of interpretations and formulas: the functions do nothing, and their contracts are the laws.
ghost use Rattle.std.specs.Prelude.{◌≡◌, ◌<◌, ◌^◌, ℕ, List, [], ◌∷◌, IsTrue, codes};
ghost use Rattle.std.specs.List.{AllByRecursion};
ghost use Rattle.fol_core.specs.SymbolTable.{Symbol};
ghost use Rattle.ladr_commands.specs.ByName.{by_name};
ghost use Rattle.ladr_commands.specs.Commands.{interpretation_item};
ghost use Rattle.ladr_commands.specs.Form.{SaysCommand};
ghost use Rattle.ladr_commands.specs.declared.command.Command.TheVariants.{Interpretation};
ghost use Rattle.ladr_lex.specs.Cuts.{pieces_of, Cuts};
ghost use Rattle.ladr_lex.specs.Lexeme.{lexemes_of};
ghost use Rattle.ladr_lex.specs.declared.token.Token.{Token};
ghost use Rattle.ladr_formulas.specs.declared.styles.Mode.{Mode};
ghost use Rattle.ladr_lex.specs.Operators.{are_lawful};
ghost use Rattle.ladr_models.specs.Printed.{formula_texts, StateThemselves};
ghost use Rattle.ladr_models.specs.ReadsBack.{IsPrintable, ReadsAs, ReadsBack, SayTables};
ghost use Rattle.ladr_models.specs.Worked.{pair, pair_tables, pair_text, pair_tokens, pair_entries};
ghost use Rattle.ladr_interpretations.specs.Good.{is_good, tables_for};
ghost use Rattle.ladr_interpretations.specs.NamedText.{named_text};
ghost use Rattle.ladr_print.specs.StatesAs.{KeepsFixed};
ghost use Rattle.ladr_problem.specs.File.{Says, problem};
ghost use Rattle.ladr_problem.specs.Growth.{Grown};
ghost use Rattle.ladr_problem.specs.Sofar.{Sofar};
ghost use Rattle.ladr_problem.specs.Worked.{labelled_and_goal};
ghost use Rattle.ladr_reader.specs.Worked.{lexemes_in};
ghost use Rattle.model_tables.specs.ModelText.{model_text};
ghost use Rattle.model_tables.specs.Tables.{Finite};

/// What is printed of tables for any symbols reads back as these tables.
pub fn texts_read_back()
    ensures text { (n k : ℕ) (symbols : List Symbol) (t : Finite) → IsPrintable n k symbols t
        → ReadsBack (model_text symbols k t) symbols t }
    // So do tokens with their places, such as the code makes of the text.
    ensures tokens { (n k : ℕ) (symbols : List Symbol) (t : Finite) (ts : List Token)
        → IsPrintable n k symbols t → Cuts 0 (model_text symbols k t) (pieces_of ts)
        → SayTables (lexemes_of ts) symbols t }
{}

/// What is written of an interpretation of a file, by any number that the code can print, reads back as this interpretation:
/// with the names and the entries that were read.
pub fn interpretations_read_back()
    ensures { (m : Mode) (bytes : List ℕ) (s : Sofar) → Says m bytes (problem s)
        → AllByRecursion (λ it. (k : ℕ) → k < 2 ^ 64 → ReadsAs (named_text it k) it)
        s.settings.interpretations }
{}

/// Each formula of what has grown is what its printed text says behind the symbols at the end, with the operators and the style
/// there. These operators are such as the laws of printed texts ask.
pub fn formulas_state_themselves()
    ensures formulas { (m : Mode) (s : Sofar) → Grown m s → StateThemselves m s }
    ensures operators { (m : Mode) (s : Sofar) → Grown m s
        → IsTrue (are_lawful s.settings.operators) × KeepsFixed s.settings.operators }
    // p(a) # label(b), and q(x) with its variable.
    ensures worked { formula_texts labelled_and_goal
        ≡ codes "p(a) # label(b)" ∷ codes "q(x)" ∷ [] }
{}

/// Tables of two elements for a symbol in quotes, one without an entry, `-` and a relation: their text, its tokens, what these
/// say, and the tables that come of it.
pub fn worked()
    ensures printable { IsPrintable 2 1 pair pair_tables }
    ensures text { model_text pair 1 pair_tables ≡ pair_text }
    ensures tokens { Cuts 0 pair_text pair_tokens }
    ensures says { SaysCommand interpretation_item (lexemes_in pair_tokens)
        (Interpretation (by_name 2 pair_entries)) }
    ensures good { IsTrue (is_good (by_name 2 pair_entries)) }
    ensures tables { tables_for (by_name 2 pair_entries) pair ≡ pair_tables }
{}
