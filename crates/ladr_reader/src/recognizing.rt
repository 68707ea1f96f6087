// Whether tokens are an item, in little memory: one pass that keeps no names and builds no trees.
ghost use Rattle.std.specs.Prelude.{◌≡◌, ℕ, ◌<◌, false, length, get_or, IfOk, IfErr, MatchOption};
ghost use Rattle.fol_core.specs.RawTree.{RawTree};
ghost use Rattle.ladr_lex.specs.Lexeme.{lexeme_of, lexemes_of, quoted, symbol};
ghost use Rattle.ladr_lex.specs.Operators.{operator_of, if_prefix, if_after};
ghost use Rattle.ladr_reader.specs.Control.{at, turn_of, ends_terms, start, bind_variable, turn_behind_name, turn_behind, turn_act, turn_operator, turn_close, turn_comma, turn_stop, control_step};
ghost use Rattle.ladr_reader.specs.Faults.{IsFaultWhere};
ghost use Rattle.ladr_reader.specs.Machine.{start_of, start_of_symbol, follow_of, follow_of_symbol, variable_of};
ghost use Rattle.ladr_reader.specs.Marks.{as_name, if_marked, in_quotes, marked};
ghost use Rattle.ladr_reader.specs.Reads.{Item};
ghost use Rattle.ladr_reader.specs.Table.{table_of, quantifier_of, may_be_bound, right};

use crate::fault::TermFault;
use crate::roles::{is_variable, quantifier_of};
use crate::sides::{QUANTIFIED, Side, grows, left, right};
use crate::waits::{Wait, Waits};
use ladr_lex::{Operator, Ops, Token, TokenKind};
use std::alloc::{AllocError, Global};

/// Where the reader stands, as far as it decides which tokens may come: before an operand, behind a symbol that may get
/// arguments, behind a quantifier's word, behind a term of this precedence, or behind an item.
#[derive(Clone, Copy)]
pub enum Place {
    BeforeOperand,
    BehindName,
    BehindWord,
    BehindTerm(u16),
    BehindItem,
}

/// What a token is behind a term, without its name.
#[derive(Clone, Copy)]
pub enum Turn {
    Opening,
    Closing,
    Separating,
    Stopping,
    Operating(Operator),
    Unfit,
}

/// Whether the tokens are an item, where marks tell which of them are names; where they are none, the first of them that goes
/// on with no readable item is the fault.
pub fn recognize(
    alloc: Global,
    ops: &Ops,
    tokens: &[Token],
    names: &[bool],
) -> Result<(), TermFault>
    ensures item { IfOk result (λ _. (t : RawTree) × Item (table_of ops.now)
        (marked names.now (lexemes_of tokens.now)) t) }
    ensures fault { IfErr result (IsFaultWhere (λ _. ⊥) (table_of ops.now)
        (marked names.now (lexemes_of tokens.now))) }
{
    ops.rows_are_lawful();
    let mut waits = Waits::new(alloc);
    let mut place = Place::BeforeOperand;
    for (i, token) in tokens.iter().enumerate() {
        match control_marked(ops, &mut waits, place, token, is_marked(names, i))? {
            Some(next) => place = next,
            None => return Err(TermFault::Bad(i)),
        }
    }
    match place {
        Place::BehindItem => Ok(()),
        _ => Err(TermFault::Bad(tokens.len())),
    }
}

/// The mark of a token; one behind the last mark has none.
#[inline(always)]
pub fn is_marked(names: &[bool], i: usize) -> bool
    ensures { result ≡ get_or names.now i false }
{
    match names.get(i) {
        Some(mark) => *mark,
        None => false,
    }
}

// One token more, which may be marked as a name.
fn control_marked(
    ops: &Ops,
    waits: &mut Waits,
    place: Place,
    token: &Token,
    is_name: bool,
) -> Result<Option<Place>, AllocError>
    ensures { IfOk result (λ next. at next waits.new
        ≡ control_step (table_of ops.now) place waits.old
        (if_marked is_name (lexeme_of token.now))) }
{
    if is_name {
        control_name(ops, waits, place, token)
    } else {
        control_step(ops, waits, place, token)
    }
}

// One that is read as a name, whatever operator or word it is.
fn control_name(
    ops: &Ops,
    waits: &mut Waits,
    place: Place,
    token: &Token,
) -> Result<Option<Place>, AllocError>
    ensures { IfOk result (λ next. at next waits.new
        ≡ control_step (table_of ops.now) place waits.old (as_name (lexeme_of token.now))) }
{
    match token.kind() {
        TokenKind::Ordinary | TokenKind::Quoted | TokenKind::Special => {
            control_quoted(ops, waits, place, token.text())
        }
        _ => control_step(ops, waits, place, token),
    }
}

// A symbol in quotes, which has no operator and is no word.
#[tactic(auto, using(crate::proofs::Names::name_starts, crate::proofs::Names::name_follows))]
fn control_quoted(
    ops: &Ops,
    waits: &mut Waits,
    place: Place,
    text: &[u8],
) -> Result<Option<Place>, AllocError>
    ensures { IfOk result (λ next. at next waits.new
        ≡ control_step (table_of ops.now) place waits.old
        (symbol quoted (in_quotes text.now))) }
{
    ops.rows_are_lawful();
    let _ = text;
    match place {
        Place::BeforeOperand => Ok(Some(Place::BehindName)),
        Place::BehindName => turn_behind_name(waits, Turn::Unfit),
        Place::BehindWord => bind_variable(waits, false),
        Place::BehindTerm(precedence) => turn_behind(waits, Turn::Unfit, precedence),
        Place::BehindItem => Ok(None),
    }
}

// One token more.
fn control_step(
    ops: &Ops,
    waits: &mut Waits,
    place: Place,
    token: &Token,
) -> Result<Option<Place>, AllocError>
    ensures { IfOk result (λ next. at next waits.new
        ≡ control_step (table_of ops.now) place waits.old (lexeme_of token.now)) }
{
    match place {
        Place::BeforeOperand => start(ops, waits, token),
        Place::BehindName => turn_behind_name(waits, Turn::of(ops, token)),
        Place::BehindWord => bind_variable(waits, is_variable(token)),
        Place::BehindTerm(precedence) => turn_behind(waits, Turn::of(ops, token), precedence),
        Place::BehindItem => Ok(None),
    }
}

// Before an operand.
fn start(ops: &Ops, waits: &mut Waits, token: &Token) -> Result<Option<Place>, AllocError>
    ensures { IfOk result (λ next. at next waits.new
        ≡ start (start_of (table_of ops.now) (lexeme_of token.now)) waits.old) }
{
    match token.kind() {
        TokenKind::Open => {
            waits.push(Wait::Parenthesis)?;
            Ok(Some(Place::BeforeOperand))
        }
        TokenKind::Ordinary | TokenKind::Quoted | TokenKind::Special => {
            start_symbol(ops, waits, token.text())
        }
        _ => Ok(None),
    }
}

// A symbol before an operand.
fn start_symbol(ops: &Ops, waits: &mut Waits, text: &[u8]) -> Result<Option<Place>, AllocError>
    ensures { IfOk result (λ next. at next waits.new
        ≡ start (start_of_symbol (quantifier_of text.now)
        (if_prefix (operator_of ops.now text.now)) text.now) waits.old) }
{
    if let Some(_) = quantifier_of(text) {
        if waits.allow(QUANTIFIED, false) {
            return Ok(Some(Place::BehindWord));
        }
        return Ok(None);
    }
    match ops.prefix_of(text) {
        None => Ok(Some(Place::BehindName)),
        Some(operator) => {
            if waits.allow(operator.precedence, false) {
                waits.push(Wait::Last(right(operator.kind), operator.precedence))?;
                Ok(Some(Place::BeforeOperand))
            } else {
                Ok(None)
            }
        }
    }
}

// Behind a quantifier's word.
fn bind_variable(waits: &mut Waits, is_variable: bool) -> Result<Option<Place>, AllocError>
    ensures { IfOk result (λ next. at next waits.new ≡ bind_variable is_variable waits.old) }
{
    if is_variable {
        waits.push(Wait::Last(Side::UpTo, QUANTIFIED))?;
        Ok(Some(Place::BeforeOperand))
    } else {
        Ok(None)
    }
}

// Behind a symbol.
fn turn_behind_name(waits: &mut Waits, turn: Turn) -> Result<Option<Place>, AllocError>
    ensures { IfOk result (λ next. at next waits.new ≡ turn_behind_name turn waits.old) }
{
    match turn {
        Turn::Opening => {
            waits.push(Wait::Arguments)?;
            Ok(Some(Place::BeforeOperand))
        }
        turn => turn_behind(waits, turn, 0),
    }
}

// Behind a term: the token ends what waits as far as it may, and acts then.
fn turn_behind(
    waits: &mut Waits,
    turn: Turn,
    mut precedence: u16,
) -> Result<Option<Place>, AllocError>
    ensures { IfOk result (λ next. at next waits.new ≡ turn_behind turn precedence waits.old) }
{
    while let Some(own) = take_ended(waits, turn) {
        precedence = own;
    }
    turn_act(waits, turn, precedence)
}

// Takes off what is innermost, if the token ends its last argument.
fn take_ended(waits: &mut Waits, turn: Turn) -> Option<u16>
    ensures shorter { (own : ℕ) → result ≡ Some own → length waits.new < length waits.old }
    ensures same { MatchOption result
        ((q : ℕ) → turn_behind turn q waits.old ≡ turn_act turn q waits.new)
        (λ own. (q : ℕ) → turn_behind turn q waits.old ≡ turn_behind turn own waits.new) }
{
    match waits.innermost() {
        Some(Wait::Last(_, own)) if turn.ends_terms(own) => {
            waits.pop();
            Some(own)
        }
        _ => None,
    }
}

// What the token does behind a term, once it has ended what it may.
fn turn_act(waits: &mut Waits, turn: Turn, precedence: u16) -> Result<Option<Place>, AllocError>
    ensures { IfOk result (λ next. at next waits.new ≡ turn_act turn precedence waits.old) }
{
    match turn {
        Turn::Closing => Ok(turn_close(waits)),
        Turn::Separating => Ok(turn_comma(waits)),
        Turn::Stopping => Ok(turn_stop(waits)),
        Turn::Operating(operator) => {
            if left(operator.kind).takes(operator.precedence, precedence)
                && waits.allow(operator.precedence, grows(operator.kind))
            {
                turn_operator(waits, operator)
            } else {
                Ok(None)
            }
        }
        Turn::Opening | Turn::Unfit => Ok(None),
    }
}

// Behind a term and an operator.
fn turn_operator(waits: &mut Waits, operator: Operator) -> Result<Option<Place>, AllocError>
    ensures { IfOk result (λ next. at next waits.new
        ≡ turn_operator (right operator.kind) operator.precedence waits.old) }
{
    match right(operator.kind) {
        Side::Nothing => Ok(Some(Place::BehindTerm(operator.precedence))),
        side => {
            waits.push(Wait::Last(side, operator.precedence))?;
            Ok(Some(Place::BeforeOperand))
        }
    }
}

// Behind a term and a closing parenthesis.
fn turn_close(waits: &mut Waits) -> Option<Place>
    ensures { at result waits.new ≡ turn_close waits.old }
{
    match waits.pop() {
        Some(Wait::Parenthesis | Wait::Arguments) => Some(Place::BehindTerm(0)),
        _ => None,
    }
}

// Behind a term and a comma.
fn turn_comma(waits: &mut Waits) -> Option<Place>
    ensures { at result waits.new ≡ turn_comma waits.old }
{
    match waits.innermost() {
        Some(Wait::Arguments) => Some(Place::BeforeOperand),
        _ => None,
    }
}

// Behind a term and a full stop.
fn turn_stop(waits: &mut Waits) -> Option<Place>
    ensures { at result waits.new ≡ turn_stop waits.old }
{
    match waits.innermost() {
        None => Some(Place::BehindItem),
        _ => None,
    }
}

impl Turn {
    /// What the token is behind a term.
    fn of(ops: &Ops, token: &Token) -> Turn
        ensures { result ≡ turn_of (follow_of (table_of ops.now) (lexeme_of token.now)) }
    {
        match token.kind() {
            TokenKind::Open => Turn::Opening,
            TokenKind::Close => Turn::Closing,
            TokenKind::Comma => Turn::Separating,
            TokenKind::Stop => Turn::Stopping,
            TokenKind::Ordinary | TokenKind::Quoted | TokenKind::Special => {
                Turn::of_symbol(ops, token.text())
            }
            _ => Turn::Unfit,
        }
    }

    fn of_symbol(ops: &Ops, text: &[u8]) -> Turn
        ensures { result ≡ turn_of (follow_of_symbol (if_after (operator_of ops.now text.now))
            text.now) }
    {
        match ops.after_of(text) {
            Some(operator) => Turn::Operating(operator),
            None => Turn::Unfit,
        }
    }

    /// Whether the token ends the last argument of what waits to be a term of precedence `own`.
    fn ends_terms(self, own: u16) -> bool
        ensures { result ≡ ends_terms self own }
    {
        match self {
            Turn::Opening | Turn::Unfit => false,
            Turn::Closing | Turn::Separating | Turn::Stopping => true,
            Turn::Operating(operator) => left(operator.kind).takes(operator.precedence, own),
        }
    }
}
