// The lists that a file may open.
ghost use Rattle.std.specs.Prelude.{◌≡◌};
ghost use Rattle.ladr_settings.specs.Settings.{formulas_named, formulas_opened, rules_opened, is_other};

/// The lists of formulas.
#[derive(Clone, Copy)]
pub enum FormulaList {
    Assumptions,
    Usable,
    Demodulators,
    Goals,
    Hints,
}

/// A list that is open; the last two are a list of formulas and one of rules that have no known name, in a block for another
/// program.
#[derive(Clone, Copy)]
pub enum OpenList {
    Formulas(FormulaList),
    Weights,
    KboWeights,
    Distinct,
    OtherFormulas,
    OtherRules,
}

impl OpenList {
    /// The list that `formulas(name)` opens.
    pub fn formulas(name: &[u8]) -> OpenList
        ensures { result ≡ formulas_opened name.now }
    {
        match formulas_named(name) {
            Some(list) => OpenList::Formulas(list),
            None => OpenList::OtherFormulas,
        }
    }

    /// The list that `list(name)` opens.
    pub fn rules(name: &[u8]) -> OpenList
        ensures { result ≡ rules_opened name.now }
    {
        if name == b"weights".as_slice() {
            OpenList::Weights
        } else if name == b"kbo_weights".as_slice() {
            OpenList::KboWeights
        } else if name == b"distinct".as_slice() {
            OpenList::Distinct
        } else {
            OpenList::OtherRules
        }
    }

    /// Whether its name is unknown.
    pub fn is_other(self) -> bool
        ensures { result ≡ is_other self }
    {
        match self {
            OpenList::Formulas(_) | OpenList::Weights | OpenList::KboWeights | OpenList::Distinct =>
                false,
            OpenList::OtherFormulas | OpenList::OtherRules => true,
        }
    }
}

fn formulas_named(name: &[u8]) -> Option<FormulaList>
    ensures { result ≡ formulas_named name.now }
{
    if name == b"assumptions".as_slice() {
        Some(FormulaList::Assumptions)
    } else if name == b"sos".as_slice() {
        Some(FormulaList::Assumptions)
    } else if name == b"usable".as_slice() {
        Some(FormulaList::Usable)
    } else if name == b"demodulators".as_slice() {
        Some(FormulaList::Demodulators)
    } else if name == b"goals".as_slice() {
        Some(FormulaList::Goals)
    } else if name == b"hints".as_slice() {
        Some(FormulaList::Hints)
    } else {
        None
    }
}
