// The precedence of a term as it is printed, and which arguments need parentheses.
ghost use Rattle.std.specs.Prelude.{◌≡◌};
ghost use Rattle.fol_core.specs.RawView.{raw_of};
ghost use Rattle.ladr_lex.specs.Operators.{operator_of};
ghost use Rattle.ladr_print.specs.Precedences.{is_infix, arity, own_precedence, precedence};
ghost use Rattle.ladr_reader.specs.Table.{left, right, takes, ends, table_of, tree_grows, operator_grows};
ghost use Rattle.ladr_reader.specs.declared.sides.Side.TheVariants.{UpTo};

use fol_core::Raw;
use ladr_lex::{Operator, OperatorKind, Ops};

/// The precedence of a quantified term, and the greatest of its body.
const QUANTIFIED: u16 = 750;

/// The operator of a name.
pub fn operator_of(ops: &Ops, name: &[u8]) -> Option<Operator>
    ensures { result ≡ operator_of ops.now name.now }
{
    match ops.prefix_of(name) {
        Some(operator) => Some(operator),
        None => ops.after_of(name),
    }
}

/// How many arguments an operator has.
pub fn arity(kind: OperatorKind) -> usize
    ensures { result ≡ arity kind }
{
    if is_infix(kind) { 2 } else { 1 }
}

fn own_precedence(operator: Option<Operator>, count: usize) -> u16
    ensures { result ≡ own_precedence operator count }
{
    match operator {
        Some(operator) if count == arity(operator.kind) => operator.precedence,
        _ => 0,
    }
}

// The precedence of a term as it is printed.
#[tactic(auto, using(crate::proofs::Ends::count_raws))]
fn precedence(ops: &Ops, raw: &Raw) -> u16
    ensures { result ≡ precedence (table_of ops.now) (raw_of raw.now) }
{
    match raw {
        Raw::App(name, args) => own_precedence(operator_of(ops, name.bytes()), args.len()),
        Raw::Quant(_, _, _) => QUANTIFIED,
    }
}

// Whether a term's operator is infix_left or postfix.
fn grows(ops: &Ops, raw: &Raw) -> bool
    ensures { result ≡ tree_grows (table_of ops.now) (raw_of raw.now) }
{
    match raw {
        Raw::App(name, _) => match ops.after_of(name.bytes()) {
            Some(operator) => {
                matches!(
                    operator.kind,
                    OperatorKind::InfixLeft | OperatorKind::Postfix
                )
            }
            None => false,
        },
        Raw::Quant(_, _, _) => false,
    }
}

/// Whether a term may be an operator's left argument as it stands.
pub fn fits_left(ops: &Ops, operator: Operator, raw: &Raw) -> bool
    ensures { result ≡ takes (left operator.kind) operator.precedence
        (precedence (table_of ops.now) (raw_of raw.now)) }
{
    let other = precedence(ops, raw);
    match operator.kind {
        OperatorKind::InfixLeft | OperatorKind::Postfix => other <= operator.precedence,
        OperatorKind::Infix | OperatorKind::InfixRight | OperatorKind::PostfixParen => {
            other < operator.precedence
        }
        OperatorKind::Prefix | OperatorKind::PrefixParen => false,
    }
}

/// Whether a term may be an operator's right argument as it stands.
pub fn fits_right(ops: &Ops, operator: Operator, raw: &Raw) -> bool
    ensures { result ≡ ends (right operator.kind) operator.precedence
        (precedence (table_of ops.now) (raw_of raw.now))
        (tree_grows (table_of ops.now) (raw_of raw.now)) }
{
    let other = precedence(ops, raw);
    match operator.kind {
        OperatorKind::InfixRight | OperatorKind::Prefix => {
            other < operator.precedence || other == operator.precedence && !grows(ops, raw)
        }
        OperatorKind::Infix | OperatorKind::InfixLeft | OperatorKind::PrefixParen => {
            other < operator.precedence
        }
        OperatorKind::Postfix | OperatorKind::PostfixParen => false,
    }
}

/// Whether a term may be a quantifier's body as it stands.
pub fn fits_body(ops: &Ops, raw: &Raw) -> bool
    ensures { result ≡ ends UpTo 750 (precedence (table_of ops.now) (raw_of raw.now))
        (tree_grows (table_of ops.now) (raw_of raw.now)) }
{
    let other = precedence(ops, raw);
    other < QUANTIFIED || other == QUANTIFIED && !grows(ops, raw)
}

/// Whether an operator stands between two arguments.
pub fn is_infix(kind: OperatorKind) -> bool
    ensures { result ≡ is_infix kind }
{
    matches!(
        kind,
        OperatorKind::Infix | OperatorKind::InfixLeft | OperatorKind::InfixRight
    )
}
