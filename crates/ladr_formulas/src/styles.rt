// How terms are read as formulas.
ghost use Rattle.std.specs.Prelude.{◌≡◌};
ghost use Rattle.ladr_formulas.specs.Formulas.{style_of};

/// For whom formulas are read: for the prover numerals are constants, for the model finder and the tester they name elements.
#[derive(Clone, Copy)]
pub enum Mode {
    Prover,
    Mace,
    Tester,
}

/// How names are read: whether numerals name elements, and whether variables begin with `A` to `Z` or `_`.
#[derive(Clone, Copy)]
pub struct Style {
    pub elements: bool,
    pub prolog: bool,
}

/// The style of a mode, with or without the variables of Prolog.
pub fn style_of(mode: Mode, prolog: bool) -> Style
    ensures { result ≡ style_of mode prolog }
{
    Style {
        elements: mode != Mode::Prover,
        prolog,
    }
}
