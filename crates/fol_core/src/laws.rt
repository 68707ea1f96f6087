// Laws of truth, of every interpretation: the functions do nothing, and their contracts are the laws.
ghost use Rattle.fol_core.specs.Laws.{TruthIsStable, FreeVariablesDecide, ClosureIsGeneral, ValuesAreWithin};
ghost use Rattle.fol_core.specs.Meaning.{Meaning, IsLawful};

/// What isn't false is true.
pub fn truth_is_stable()
    ensures { (m : Meaning) → TruthIsStable m }
{}

/// A formula's truth depends on its free variables alone.
pub fn free_variables_decide()
    ensures { (m : Meaning) → FreeVariablesDecide m }
{}

/// A formula's closure says that it is true of all elements.
pub fn closure_is_general()
    ensures { (m : Meaning) → IsLawful m → ClosureIsGeneral m }
{}

/// Terms denote elements.
pub fn values_are_within()
    ensures { (m : Meaning) → IsLawful m → ValuesAreWithin m }
{}
