// Interpretations, as contracts see them.
ghost use Rattle.fol_core.specs.Meaning.{Meaning, IsLawful};

/// An interpretation. It has a meaning that contracts speak of, and no call that a program could make: so what is said of
/// any implementation is said of every interpretation, infinite ones too.
pub trait Interpretation {
    ghost meaning: { Self → Meaning };

    ghost lawful: { (it : Self) → IsLawful (meaning it) };
}
