// The interpretation with one element.
ghost use Rattle.fol_core.specs.Meaning.{Meaning, IsLawful};
ghost use Rattle.ladr.specs.One.{one, one_is_lawful};

use fol_core::Interpretation;

/// The interpretation with one element, on which no relation holds.
pub struct OneElement;

impl Interpretation for OneElement {
    ghost meaning = { λ _. one };

    ghost lawful = { λ _. one_is_lawful };
}
