// What a token may be where the reader stands.
ghost use Rattle.std.specs.Prelude.{◌≡◌, IfOk};
ghost use Rattle.std.specs.Option.{is_some};
ghost use Rattle.ladr_lex.specs.Lexeme.{lexeme_of, ordinary};
ghost use Rattle.ladr_lex.specs.Operators.{operator_of, if_prefix, if_after};
ghost use Rattle.ladr_reader.specs.Machine.{start_of, start_of_symbol, follow_of, follow_of_symbol, variable_of, closes};
ghost use Rattle.ladr_reader.specs.Table.{table_of, quantifier_of, may_be_bound};

use crate::sides::left;
use fol_core::{Name, Quantifier};
use ladr_lex::{Operator, Ops, Token, TokenKind, is_numeral};
use std::alloc::{AllocError, Global};

/// What a token is before an operand: an open parenthesis, a quantifier's word, a prefix operator, another symbol, or
/// nothing that may stand there.
#[derive(Drop)]
pub enum TermStart {
    Opens,
    Quantifies(Quantifier),
    Precedes(Name, Operator),
    Names(Name),
    StartsNot,
}

/// What a token is behind a term: an open parenthesis (which only a symbol may have behind it), a closing one, a comma,
/// a full stop, an infix or postfix operator, or nothing that may stand there.
#[derive(Drop)]
pub enum Follow {
    Applies,
    Closes,
    Separates,
    Stops,
    Operates(Name, Operator),
    FollowsNot,
}

impl TermStart {
    /// What the token is before an operand.
    #[inline(always)]
    pub fn of(alloc: Global, ops: &Ops, token: &Token) -> Result<TermStart, AllocError>
        ensures { IfOk result (λ start. start ≡ start_of (table_of ops.now) (lexeme_of token.now)) }
    {
        match token.kind() {
            TokenKind::Open => Ok(TermStart::Opens),
            TokenKind::Ordinary | TokenKind::Quoted | TokenKind::Special => TermStart::of_symbol(
                alloc,
                ops,
                token.text(),
            ),
            _ => Ok(TermStart::StartsNot),
        }
    }

    fn of_symbol(alloc: Global, ops: &Ops, text: &[u8]) -> Result<TermStart, AllocError>
        ensures { IfOk result (λ start.
            start ≡ start_of_symbol (quantifier_of text.now)
            (if_prefix (operator_of ops.now text.now)) text.now) }
    {
        if let Some(quantifier) = quantifier_of(text) {
            return Ok(TermStart::Quantifies(quantifier));
        }
        let name = Name::from_slice(alloc, text)?;
        match ops.prefix_of(text) {
            Some(operator) => Ok(TermStart::Precedes(name, operator)),
            None => Ok(TermStart::Names(name)),
        }
    }
}

impl Follow {
    /// What the token is behind a term.
    #[inline(always)]
    pub fn of(alloc: Global, ops: &Ops, token: &Token) -> Result<Follow, AllocError>
        ensures { IfOk result (λ follow. follow ≡ follow_of (table_of ops.now)
            (lexeme_of token.now)) }
    {
        match token.kind() {
            TokenKind::Open => Ok(Follow::Applies),
            TokenKind::Close => Ok(Follow::Closes),
            TokenKind::Comma => Ok(Follow::Separates),
            TokenKind::Stop => Ok(Follow::Stops),
            TokenKind::Ordinary | TokenKind::Quoted | TokenKind::Special => Follow::of_symbol(
                alloc,
                ops,
                token.text(),
            ),
            _ => Ok(Follow::FollowsNot),
        }
    }

    fn of_symbol(alloc: Global, ops: &Ops, text: &[u8]) -> Result<Follow, AllocError>
        ensures { IfOk result (λ follow. follow ≡ follow_of_symbol
            (if_after (operator_of ops.now text.now)) text.now) }
    {
        match ops.after_of(text) {
            Some(operator) => Ok(Follow::Operates(Name::from_slice(alloc, text)?, operator)),
            None => Ok(Follow::FollowsNot),
        }
    }

    /// Whether the token ends the last argument of what waits to be a term of precedence `own`.
    pub fn closes(&self, own: u16) -> bool
        ensures { result ≡ closes self.now own }
    {
        match self {
            Follow::Applies | Follow::FollowsNot => false,
            Follow::Closes | Follow::Separates | Follow::Stops => true,
            Follow::Operates(_, operator) => left(operator.kind).takes(operator.precedence, own),
        }
    }
}

/// The variable that the token is behind a quantifier's word.
pub fn variable_of(alloc: Global, token: &Token) -> Result<Option<Name>, AllocError>
    ensures { IfOk result (λ variable. variable ≡ variable_of may_be_bound (lexeme_of token.now)) }
{
    match token.kind() {
        TokenKind::Ordinary if may_be_bound(token.text()) => Ok(Some(Name::from_slice(
            alloc,
            token.text(),
        )?)),
        _ => Ok(None),
    }
}

/// Whether the token is a variable behind a quantifier's word.
pub fn is_variable(token: &Token) -> bool
    ensures { result ≡ is_some (variable_of may_be_bound (lexeme_of token.now)) }
{
    match token.kind() {
        TokenKind::Ordinary => may_be_bound(token.text()),
        _ => false,
    }
}

fn may_be_bound(text: &[u8]) -> bool
    ensures { result ≡ may_be_bound ordinary text.now }
{
    !is_numeral(text) && quantifier_of(text).is_none()
}

/// The quantifier of a word.
pub fn quantifier_of(text: &[u8]) -> Option<Quantifier>
    ensures { result ≡ quantifier_of text.now }
{
    match text {
        b"all" => Some(Quantifier::All),
        b"exists" => Some(Quantifier::Exists),
        _ => None,
    }
}
