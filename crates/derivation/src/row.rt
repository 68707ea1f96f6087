// Why lines are no refutation: the rows.
ghost use Rattle.std.specs.Prelude.{◌≡◌};
ghost use Rattle.derivation.specs.RowNumbers.{row_number};

/// Why lines are no refutation, in the order of the rows.
#[derive(Clone, Copy, Debug)]
pub enum Row {
    /// There is no proof, or it has no lines.
    NoLines,
    /// A line's number isn't above the one before.
    NotAbove,
    /// A line that is named isn't an earlier one, or isn't of the kind.
    NoParent,
    /// The formula is none of the problem's.
    NoFormula,
    /// The clause is none of the formula's.
    NoClause,
    /// A literal, path or side isn't there or isn't taken.
    Misplaced,
    /// There is no unifier or no match.
    Differs,
    /// The line's clause isn't what the words lead to.
    OtherClause,
    /// The last line isn't the empty clause.
    NotEmpty,
}

impl Row {
    /// The number that is told.
    pub fn number(self) -> u64
        ensures { result ≡ row_number self }
    {
        match self {
            Row::NoLines => 1,
            Row::NotAbove => 2,
            Row::NoParent => 3,
            Row::NoFormula => 4,
            Row::NoClause => 5,
            Row::Misplaced => 6,
            Row::Differs => 7,
            Row::OtherClause => 8,
            Row::NotEmpty => 9,
        }
    }
}
