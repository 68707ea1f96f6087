// How a readable item may be misused.
ghost use Rattle.std.specs.Prelude.{◌≡◌};
ghost use Rattle.ladr_lex.specs.Misuses.{misuse_row, earlier};

/// How a readable item is misused: a variant for each row of misuse, in the order of the rows.
#[derive(Clone, Copy)]
pub enum Misuse {
    /// An unknown flag is set or cleared.
    UnknownFlag,
    /// An unknown parameter is assigned.
    UnknownParameter,
    /// A parameter is assigned another value than those that it takes.
    UnfitValue,
    /// A list of an unknown name is opened.
    UnknownList,
    /// `op` with a precedence outside 1 to 998, or with an unknown type.
    UnfitOperator,
    /// `op` on a fixed symbol, or on quotes round what is no one symbol.
    UnfitSymbol,
    /// `op` or `prolog_style_variables` once a list was opened.
    TooLate,
    /// `if` inside `if`, or `end_if` without `if`.
    UnmatchedIf,
    /// A name and arity as function and as relation.
    TwoKinds,
    /// A variable where a formula is wanted.
    VariableAsFormula,
    /// A quantifier below a relation.
    QuantifierInTerm,
    /// `#` in a formula elsewhere than at its top, or `bsub_hint_wt` without one whole number up to 2,147,483,647.
    UnfitAttribute,
    /// A hint that isn't literals joined by `|`.
    UnfitHint,
    /// A demodulator that isn't an equation whose left side is no variable and has each variable of the right.
    UnfitDemodulator,
    /// A rule of weights or an order of another shape, or with a symbol twice.
    UnfitRule,
    /// A numeral that is too great for an element, or a numeral as relation.
    UnfitNumeral,
    /// A bad or second interpretation.
    UnfitInterpretation,
    /// A formula that the interpretation doesn't cover, or no interpretation.
    Uncovered,
    /// A variable among names that are to differ.
    VariableAmongNames,
}

impl Misuse {
    /// The number of the row.
    pub fn row(self) -> u8
        ensures { result ≡ misuse_row self }
    {
        match self {
            Misuse::UnknownFlag => 1,
            Misuse::UnknownParameter => 2,
            Misuse::UnfitValue => 3,
            Misuse::UnknownList => 4,
            Misuse::UnfitOperator => 5,
            Misuse::UnfitSymbol => 6,
            Misuse::TooLate => 7,
            Misuse::UnmatchedIf => 8,
            Misuse::TwoKinds => 9,
            Misuse::VariableAsFormula => 10,
            Misuse::QuantifierInTerm => 11,
            Misuse::UnfitAttribute => 12,
            Misuse::UnfitHint => 13,
            Misuse::UnfitDemodulator => 14,
            Misuse::UnfitRule => 15,
            Misuse::UnfitNumeral => 16,
            Misuse::UnfitInterpretation => 17,
            Misuse::Uncovered => 18,
            Misuse::VariableAmongNames => 19,
        }
    }

    /// The one of the lesser row, of this one and another, if there is another.
    pub fn earlier(self, other: Option<Misuse>) -> Misuse
        ensures { result ≡ earlier self other }
    {
        match other {
            Some(other) if other.row() < self.row() => other,
            _ => self,
        }
    }
}
