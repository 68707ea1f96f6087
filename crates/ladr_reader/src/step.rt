// One token more, and all that it ends.
ghost use Rattle.std.specs.Prelude.{◌≡◌, ◌<◌, length, true, OnOk, IfOk};
ghost use Rattle.ladr_lex.specs.Lexeme.{full_stop, lexeme_of, quoted, symbol};
ghost use Rattle.ladr_reader.specs.Machine.{step, begin, bind, behind_symbol_name, behind_term, last_is_closed, act, whole, behind_operator, behind_close, behind_comma, behind_stop};
ghost use Rattle.ladr_reader.specs.Marks.{as_name, if_marked, in_quotes};
ghost use Rattle.ladr_reader.specs.ReadingView.{standing_of, goes_on};
ghost use Rattle.ladr_reader.specs.Table.{OperatorTable, table_of, right};
ghost use Rattle.ladr_reader.specs.declared.roles.TermStart.TheVariants.{Precedes};

use crate::capped::{Arguments, Build};
use crate::disjuncts::Disjuncts;
use crate::place::{Reading, Spot};
use crate::roles::{Follow, TermStart, variable_of};
use crate::sides::{QUANTIFIED, Side, grows, left, right};
use crate::stack::{Frame, Part, Stack};
use fol_core::{Name, Quantifier};
use ladr_lex::{Operator, Ops, Token, TokenKind};
use std::alloc::{AllocError, Global};
use std::mem;

/// Goes on behind the token; answers whether a term may begin so.
pub fn step(
    build: Build,
    ops: &Ops,
    stack: &mut Stack,
    reading: &mut Reading,
    token: &Token,
) -> Result<bool, AllocError>
    ensures { IfOk result (λ goes.
        goes_on goes reading.new stack.new ≡ step build.most (table_of ops.now)
        (standing_of reading.old) stack.old (lexeme_of token.now)) }
{
    let alloc = build.alloc;
    match reading.spot {
        Spot::AtOperand => begin(stack, reading, TermStart::of(alloc, ops, token)?),
        Spot::AtSymbol => behind_name(build, stack, reading, Follow::of(alloc, ops, token)?),
        Spot::AtWord(quantifier) => bind(stack, reading, quantifier, variable_of(alloc, token)?),
        Spot::AtTerm(precedence) => {
            after(
                build,
                stack,
                reading,
                Follow::of(alloc, ops, token)?,
                precedence,
            )
        }
        Spot::AtStop(_) => Ok(false),
    }
}

/// Goes on behind the token, which may be marked as a name.
#[inline(always)]
pub fn step_marked(
    build: Build,
    ops: &Ops,
    stack: &mut Stack,
    reading: &mut Reading,
    token: &Token,
    is_name: bool,
) -> Result<bool, AllocError>
    ensures { IfOk result (λ goes.
        goes_on goes reading.new stack.new ≡ step build.most (table_of ops.now)
        (standing_of reading.old) stack.old (if_marked is_name (lexeme_of token.now))) }
{
    if is_name {
        step_name(build, ops, stack, reading, token)
    } else {
        step(build, ops, stack, reading, token)
    }
}

// Goes on behind a token that is read as a name, whatever operator or word it is.
#[inline(never)]
fn step_name(
    build: Build,
    ops: &Ops,
    stack: &mut Stack,
    reading: &mut Reading,
    token: &Token,
) -> Result<bool, AllocError>
    ensures { IfOk result (λ goes.
        goes_on goes reading.new stack.new ≡ step build.most (table_of ops.now)
        (standing_of reading.old) stack.old (as_name (lexeme_of token.now))) }
{
    match token.kind() {
        TokenKind::Ordinary | TokenKind::Quoted | TokenKind::Special => {
            step_quoted(build, ops, stack, reading, token.text())
        }
        _ => step(build, ops, stack, reading, token),
    }
}

// Goes on behind a symbol in quotes, which has no operator and is no word.
#[tactic(auto, using(crate::proofs::Names::name_starts, crate::proofs::Names::name_follows))]
fn step_quoted(
    build: Build,
    ops: &Ops,
    stack: &mut Stack,
    reading: &mut Reading,
    text: &[u8],
) -> Result<bool, AllocError>
    ensures { IfOk result (λ goes.
        goes_on goes reading.new stack.new ≡ step build.most (table_of ops.now)
        (standing_of reading.old) stack.old (symbol quoted (in_quotes text.now))) }
{
    ops.rows_are_lawful();
    match reading.spot {
        Spot::AtOperand => begin(
            stack,
            reading,
            TermStart::Names(in_quotes(build.alloc, text)?),
        ),
        Spot::AtSymbol => behind_name(build, stack, reading, Follow::FollowsNot),
        Spot::AtWord(quantifier) => bind(stack, reading, quantifier, None),
        Spot::AtTerm(precedence) => after(build, stack, reading, Follow::FollowsNot, precedence),
        Spot::AtStop(_) => Ok(false),
    }
}

// The name in quotes.
fn in_quotes(alloc: Global, text: &[u8]) -> Result<Name, AllocError>
    ensures { IfOk result (λ name. name ≡ in_quotes text.now) }
{
    let mut bytes = Vec::new(alloc);
    bytes.push(b'"')?;
    bytes.extend_from_slice(text)?;
    bytes.push(b'"')?;
    Ok(Name::new(bytes))
}

/// Goes on behind a full stop.
pub fn step_stop(build: Build, stack: &mut Stack, reading: &mut Reading) -> Result<bool, AllocError>
    ensures { (g : OperatorTable) → IfOk result (λ goes.
        goes_on goes reading.new stack.new ≡ step build.most g (standing_of reading.old) stack.old
        full_stop) }
{
    match reading.spot {
        Spot::AtOperand | Spot::AtWord(_) | Spot::AtStop(_) => Ok(false),
        Spot::AtSymbol => behind_name(build, stack, reading, Follow::Stops),
        Spot::AtTerm(precedence) => after(build, stack, reading, Follow::Stops, precedence),
    }
}

// Before an operand.
fn begin(stack: &mut Stack, reading: &mut Reading, start: TermStart) -> Result<bool, AllocError>
    ensures { IfOk result (λ goes. goes_on goes reading.new stack.new ≡ begin start stack.old) }
{
    match start {
        TermStart::Opens => {
            stack.push(Frame::Group)?;
            reading.spot = Spot::AtOperand;
            Ok(true)
        }
        TermStart::Quantifies(quantifier) => {
            reading.spot = Spot::AtWord(quantifier);
            Ok(stack.allows(QUANTIFIED, false))
        }
        TermStart::Precedes(name, operator) => begin_prefix(stack, reading, name, operator),
        TermStart::Names(name) => {
            reading.name = name;
            reading.spot = Spot::AtSymbol;
            Ok(true)
        }
        TermStart::StartsNot => Ok(false),
    }
}

// A prefix operator before an operand.
#[inline(never)]
fn begin_prefix(
    stack: &mut Stack,
    reading: &mut Reading,
    name: Name,
    operator: Operator,
) -> Result<bool, AllocError>
    ensures { IfOk result (λ goes. goes_on goes reading.new stack.new
        ≡ begin (Precedes name operator) stack.old) }
{
    if !stack.allows(operator.precedence, false) {
        return Ok(false);
    }
    stack.push(Frame::Waiting(
        Part::Prefix(name),
        right(operator.kind),
        operator.precedence,
    ))?;
    reading.spot = Spot::AtOperand;
    Ok(true)
}

// Behind a quantifier's word.
#[inline(never)]
fn bind(
    stack: &mut Stack,
    reading: &mut Reading,
    quantifier: Quantifier,
    variable: Option<Name>,
) -> Result<bool, AllocError>
    ensures { IfOk result (λ goes. goes_on goes reading.new stack.new
        ≡ bind quantifier variable stack.old) }
{
    match variable {
        Some(variable) => {
            stack.push(Frame::Waiting(
                Part::Quantified(quantifier, variable),
                Side::UpTo,
                QUANTIFIED,
            ))?;
            reading.spot = Spot::AtOperand;
            Ok(true)
        }
        None => Ok(false),
    }
}

// Behind a symbol: its arguments begin, or it is an atom.
fn behind_name(
    build: Build,
    stack: &mut Stack,
    reading: &mut Reading,
    follow: Follow,
) -> Result<bool, AllocError>
    ensures { IfOk result (λ goes. goes_on goes reading.new stack.new
        ≡ behind_symbol_name build.most follow reading.old.name stack.old) }
{
    let name = mem::replace(&mut reading.name, Name::new(Vec::new(build.alloc)));
    match follow {
        Follow::Applies => {
            stack.push(Frame::Applied(name, Arguments::new(build.alloc)))?;
            reading.spot = Spot::AtOperand;
            Ok(true)
        }
        follow => {
            reading.term.set_atom(build, name);
            after(build, stack, reading, follow, 0)
        }
    }
}

// Behind a term: the token ends what waits as far as it may, and acts then.
fn after(
    build: Build,
    stack: &mut Stack,
    reading: &mut Reading,
    follow: Follow,
    mut precedence: u16,
) -> Result<bool, AllocError>
    ensures { IfOk result (λ goes. goes_on goes reading.new stack.new
        ≡ behind_term build.most follow reading.old.term precedence stack.old) }
{
    while stack.is_closed_by(&follow) {
        precedence = end_innermost(build, stack, &mut reading.term, &follow, precedence)?;
    }
    act(build, stack, reading, follow, precedence)
}

// Ends what is innermost, whose last argument the token ends, and answers the precedence of the term that it becomes.
#[inline(never)]
fn end_innermost(
    build: Build,
    stack: &mut Stack,
    term: &mut Disjuncts,
    follow: &Follow,
    precedence: u16,
) -> Result<u16, AllocError>
    requires { last_is_closed follow.now stack.old ≡ true }
    ensures shorter { OnOk result (length stack.new < length stack.old) }
    ensures same { IfOk result (λ own.
        behind_term build.most follow.now term.old precedence stack.old
        ≡ behind_term build.most follow.now term.new own stack.new) }
{
    match stack.pop() {
        Some(Frame::Waiting(part, _, own)) => {
            end(build, part, term)?;
            Ok(own)
        }
        // Nothing else waits for a last argument.
        Some(Frame::Group) => Ok(precedence),
        Some(Frame::Applied(_, _)) => Ok(precedence),
        None => Ok(precedence),
    }
}

// What the token does behind a term, once it has ended what it may.
fn act(
    build: Build,
    stack: &mut Stack,
    reading: &mut Reading,
    follow: Follow,
    precedence: u16,
) -> Result<bool, AllocError>
    ensures { IfOk result (λ goes. goes_on goes reading.new stack.new
        ≡ act build.most follow reading.old.term precedence stack.old) }
{
    match follow {
        Follow::Closes => behind_close(build, stack, reading),
        Follow::Separates => behind_comma(build, stack, reading),
        Follow::Stops => Ok(behind_stop(stack, reading, precedence)),
        Follow::Operates(name, operator) => {
            if left(operator.kind).takes(operator.precedence, precedence)
                && stack.allows(operator.precedence, grows(operator.kind))
            {
                behind_operator(build, stack, reading, name, operator)
            } else {
                Ok(false)
            }
        }
        Follow::Applies | Follow::FollowsNot => Ok(false),
    }
}

// Behind a term and an operator.
#[inline(never)]
fn behind_operator(
    build: Build,
    stack: &mut Stack,
    reading: &mut Reading,
    name: Name,
    operator: Operator,
) -> Result<bool, AllocError>
    ensures { IfOk result (λ goes. goes_on goes reading.new stack.new
        ≡ behind_operator build.most (right operator.kind) name operator
        reading.old.term stack.old) }
{
    match right(operator.kind) {
        Side::Nothing => {
            reading
                .term
                .finish(build, name, Arguments::new(build.alloc))?;
            reading.spot = Spot::AtTerm(operator.precedence);
            Ok(true)
        }
        side => {
            let left = reading.term.take_whole(build)?;
            stack.push(Frame::Waiting(Part::Infix(name, left), side, operator.precedence))?;
            reading.spot = Spot::AtOperand;
            Ok(true)
        }
    }
}

// Behind a term and a closing parenthesis.
#[inline(never)]
fn behind_close(build: Build, stack: &mut Stack, reading: &mut Reading) -> Result<bool, AllocError>
    ensures { IfOk result (λ goes. goes_on goes reading.new stack.new
        ≡ behind_close build.most reading.old.term stack.old) }
{
    match stack.pop() {
        Some(Frame::Group) => {
            reading.spot = Spot::AtTerm(0);
            Ok(true)
        }
        Some(Frame::Applied(name, arguments)) => {
            reading.term.finish(build, name, arguments)?;
            reading.spot = Spot::AtTerm(0);
            Ok(true)
        }
        Some(Frame::Waiting(_, _, _)) => Ok(false),
        None => Ok(false),
    }
}

// Behind a term and a comma.
#[inline(never)]
fn behind_comma(build: Build, stack: &mut Stack, reading: &mut Reading) -> Result<bool, AllocError>
    ensures { IfOk result (λ goes. goes_on goes reading.new stack.new
        ≡ behind_comma build.most reading.old.term stack.old) }
{
    match stack.pop() {
        Some(Frame::Applied(name, mut arguments)) => {
            reading.term.move_behind(build, &mut arguments)?;
            stack.push(Frame::Applied(name, arguments))?;
            reading.spot = Spot::AtOperand;
            Ok(true)
        }
        Some(Frame::Group) => Ok(false),
        Some(Frame::Waiting(_, _, _)) => Ok(false),
        None => Ok(false),
    }
}

// Behind a term and a full stop.
fn behind_stop(stack: &mut Stack, reading: &mut Reading, precedence: u16) -> bool
    ensures { goes_on result reading.new stack.new ≡ behind_stop reading.old.term precedence stack.old }
{
    match stack.pop() {
        None => {
            reading.spot = Spot::AtStop(precedence);
            true
        }
        Some(_) => false,
    }
}

// The term becomes that of a part whose last argument it is.
fn end(build: Build, part: Part, term: &mut Disjuncts) -> Result<(), AllocError>
    ensures { IfOk result (λ _. term.new ≡ whole build.most part term.old) }
{
    let mut arguments = Arguments::new(build.alloc);
    match part {
        Part::Prefix(name) => term.finish(build, name, arguments),
        Part::Infix(name, first) => {
            arguments.push(first)?;
            term.finish(build, name, arguments)
        }
        Part::Quantified(quantifier, variable) => term.quantify(build, quantifier, variable),
    }
}
