// What the arguments of an operator may be.
ghost use Rattle.std.specs.Prelude.{◌≡◌};
ghost use Rattle.ladr_reader.specs.Table.{left, right, takes, grows, ends};

use ladr_lex::OperatorKind;

/// The precedence of a quantified term, and the greatest of its body.
pub const QUANTIFIED: u16 = 750;

/// A side of an operator of precedence p: there is no argument, or one below p, or one up to p.
#[derive(Clone, Copy)]
pub enum Side {
    Nothing,
    Below,
    UpTo,
}

/// The left side of an operator.
pub fn left(kind: OperatorKind) -> Side
    ensures { result ≡ left kind }
{
    match kind {
        OperatorKind::InfixLeft | OperatorKind::Postfix => Side::UpTo,
        OperatorKind::Infix | OperatorKind::InfixRight | OperatorKind::PostfixParen => Side::Below,
        OperatorKind::Prefix | OperatorKind::PrefixParen => Side::Nothing,
    }
}

/// The right side of an operator.
pub fn right(kind: OperatorKind) -> Side
    ensures { result ≡ right kind }
{
    match kind {
        OperatorKind::InfixRight | OperatorKind::Prefix => Side::UpTo,
        OperatorKind::Infix | OperatorKind::InfixLeft | OperatorKind::PrefixParen => Side::Below,
        OperatorKind::Postfix | OperatorKind::PostfixParen => Side::Nothing,
    }
}

/// Whether the operator's terms go on to the left with others of their precedence.
pub fn grows(kind: OperatorKind) -> bool
    ensures { result ≡ grows kind }
{
    matches!(kind, OperatorKind::InfixLeft | OperatorKind::Postfix)
}

impl Side {
    /// Whether this side of an operator of precedence `own` takes a term of precedence `other`.
    pub fn takes(self, own: u16, other: u16) -> bool
        ensures { result ≡ takes self own other }
    {
        match self {
            Side::Nothing => false,
            Side::Below => other < own,
            Side::UpTo => other <= own,
        }
    }

    /// Whether a term of precedence `other` may be the last argument on this side of a term of precedence `own`.
    pub fn ends(self, own: u16, other: u16, growing: bool) -> bool
        ensures { result ≡ ends self own other growing }
    {
        self.takes(own, other) && !(other == own && growing)
    }
}
