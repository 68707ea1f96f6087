// The names that clauses use for themselves.
ghost use Rattle.std.specs.Prelude.{◌≡◌};
ghost use Rattle.ladr_lex.specs.ClauseNames.{letters, further_letter, is_numbered, is_further, is_letter, is_clause_variable, is_clause_name, clause_operator};

use crate::numeral::{is_numeral, value};
use crate::operators::Operator;

/// A name's operator in the texts of clauses: none where it stands before its argument and the name is that of a clause's
/// variable, or `c` or `f` with a number.
pub fn clause_operator(prolog: bool, name: &[u8], operator: Option<Operator>) -> Option<Operator>
    ensures { result ≡ clause_operator prolog name.now operator }
{
    match operator {
        Some(operator) if operator.kind.is_prefix() && is_clause_name(prolog, name) => None,
        operator => operator,
    }
}

fn is_clause_name(prolog: bool, name: &[u8]) -> bool
    ensures { result ≡ is_clause_name prolog name.now }
{
    is_clause_variable(prolog, name) || is_numbered(b'c', name) || is_numbered(b'f', name)
}

fn is_clause_variable(prolog: bool, name: &[u8]) -> bool
    ensures { result ≡ is_clause_variable prolog name.now }
{
    if prolog {
        is_letter(b"ABCDE", name) || is_further(b"V", name)
    } else {
        is_letter(b"xyzuw", name) || is_further(b"v", name)
    }
}

fn is_letter(letters: &[u8], name: &[u8]) -> bool
    ensures { result ≡ is_letter letters.now name.now }
{
    match name {
        [letter] => letters.contains(letter),
        _ => false,
    }
}

fn is_further(letter: &[u8], name: &[u8]) -> bool
    ensures { result ≡ is_further letter.now name.now }
{
    match name {
        [] => false,
        [first, number @ ..] => {
            letter.contains(first) && is_numeral(number) && value(number).is_none_or(|n| n >= 5)
        }
    }
}

fn is_numbered(letter: u8, name: &[u8]) -> bool
    ensures { result ≡ is_numbered letter name.now }
{
    match name {
        [] => false,
        [first, number @ ..] => *first == letter && is_numeral(number),
    }
}
