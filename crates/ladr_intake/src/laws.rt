// What the bytes of an input pose: the function does nothing, and its contract is the law.
ghost use Rattle.ladr_intake.specs.Language.{IsLanguage};
ghost use Rattle.ladr_intake.specs.Posed.{poses};
ghost use Rattle.ladr_intake.specs.Refusals.{refuses};
ghost use Rattle.ladr_formulas.specs.declared.styles.Mode.{Mode};

use ladr_problem::{one_outcome, problems_are_proper, problems_grow};

/// Files are a language of problems, whichever program reads them.
pub fn files_are_a_language()
    ensures { (m : Mode) → IsLanguage (poses m) (refuses m) }
{
    problems_grow();
    problems_are_proper();
    one_outcome();
}
