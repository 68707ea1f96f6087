// Formulas tested by hand, and what a filter's output says: the functions do nothing, and their contracts are the laws.
ghost use Rattle.std.specs.Prelude.{◌≡◌, ◌<◌, ◌^◌, ℕ, List, true, false, [], ◌∷◌, codes};
ghost use Rattle.std.specs.List.{AllByRecursion};
ghost use Rattle.ladr_clausetester.specs.Filtering.{filter_report};
ghost use Rattle.ladr_clausetester.specs.Report.{report};
ghost use Rattle.ladr_clausetester.specs.Verdicts.{AreTrueAsTold, meaning_in};
ghost use Rattle.ladr_clausetester.specs.Worked.{involution, exchange, collapse, constant, constant_tables};
ghost use Rattle.ladr_intake.specs.Posed.{Interpreted, interprets};
ghost use Rattle.ladr_interpretations.specs.NamedText.{named_text};
ghost use Rattle.ladr_models.specs.ReadsBack.{ReadsAs};

use ladr_models::interpretations_read_back;

/// A function that is its own inverse, and whether it leaves an element where it is. Where a variable is free the formula is
/// asked for each of its elements, so the second of the other formulas is false.
pub fn worked()
    ensures told { AreTrueAsTold (meaning_in involution exchange) involution.formulas (true ∷ false
        ∷ []) }
    ensures free { AreTrueAsTold (meaning_in constant constant_tables) constant.formulas
        (true ∷ false ∷ []) }
    ensures printed { report ((true ∷ false ∷ []) ∷ [])
        ≡ codes "formula 1 true\nformula 2 false\n% True=1. False=1.\n% Exit tested.\n" }
    ensures several { report ((true ∷ []) ∷ (false ∷ []) ∷ [])
        ≡ codes "% Interpretation 1.\nformula 1 true\n% Interpretation 2.\nformula 1 false\n% True=1. False=1.\n% Exit tested.\n" }
    // The number that is written is that of the input.
    ensures filtered { filter_report (collapse ∷ exchange ∷ []) (false ∷ true ∷ [])
        ≡ codes "interpretation(2, [number = 2,seconds = 0], [\n    function(f(_), [1,0])\n]).\n% Kept=1. Dropped=1.\n% Exit filtered.\n" }
{}

/// What is written of an interpretation of an input, whatever its number, reads back as this interpretation.
pub fn filters_read_back()
    ensures { (bytes : List ℕ) (x : Interpreted) → interprets bytes x
        → AllByRecursion (λ it. (j : ℕ) → j < 2 ^ 64 → ReadsAs (named_text it j) it)
        x.interpretations }
{
    interpretations_read_back();
}
