// The connectives of two formulas.
ghost use Rattle.std.specs.Prelude.{◌≡◌};
ghost use Rattle.ladr_formulas.specs.Formulas.{is_denial, connective_of};

/// A connective of two formulas; `ThenIf` is `<-`, which has its conclusion first.
#[derive(Clone, Copy)]
pub enum Connective {
    And,
    Or,
    IfThen,
    ThenIf,
    IfAndOnlyIf,
}

/// Whether a name with one argument denies it.
pub fn is_denial(name: &[u8]) -> bool
    ensures { result ≡ is_denial name.now }
{
    name == b"-".as_slice()
}

/// The connective of a name with two arguments.
pub fn connective_of(name: &[u8]) -> Option<Connective>
    ensures { result ≡ connective_of name.now }
{
    if name == b"&".as_slice() {
        Some(Connective::And)
    } else if name == b"|".as_slice() {
        Some(Connective::Or)
    } else if name == b"->".as_slice() {
        Some(Connective::IfThen)
    } else if name == b"<-".as_slice() {
        Some(Connective::ThenIf)
    } else if name == b"<->".as_slice() {
        Some(Connective::IfAndOnlyIf)
    } else {
        None
    }
}
