// A term at the front of tokens.
ghost use Rattle.std.specs.Prelude.{◌≡◌, ◌≤◌, ◌<◌, ◌+◌, ◌^◌, ◌++◌, ◌∷◌, [], length, IfOk, IfErr, OnOk};
ghost use Rattle.fol_core.specs.RawTree.{depth};
ghost use Rattle.fol_core.specs.RawView.{raw_of};
ghost use Rattle.ladr_lex.specs.Lexeme.{full_stop, lexeme_of, lexemes_of};
ghost use Rattle.ladr_reader.specs.Faults.{IsFaultWhere};
ghost use Rattle.ladr_reader.specs.Fronts.{open_behind, term_run, stopped, IsFront, IsTermOf};
ghost use Rattle.ladr_reader.specs.Table.{table_of};
ghost use Rattle.ladr_reader.specs.declared.place.Spot.TheVariants.{AtOperand};

use crate::capped::Build;
use crate::fault::TermFault;
use crate::place::Reading;
use crate::stack::Stack;
use crate::step::{step, step_stop};
use fol_core::Raw;
use ladr_lex::{Ops, Token, TokenKind};
use std::alloc::Global;

/// The term at the front of the tokens, up to a delimiter, with how many tokens it is, unless it has more levels than this.
/// Where the tokens before the delimiter only begin a term, the delimiter is the bad token.
pub fn read_front(
    alloc: Global,
    ops: &Ops,
    tokens: &[Token],
    most: u16,
) -> Result<(Raw, usize), TermFault>
    ensures read { IfOk result (λ r. IsFront (table_of ops.now) (lexemes_of tokens.now)
        (raw_of r.0) r.1) }
    ensures shallow { IfOk result (λ r. depth (raw_of r.0) ≤ most) }
    ensures fault { IfErr result (IsFaultWhere (λ t. most < depth t) (table_of ops.now)
        (stopped (lexemes_of tokens.now))) }
{
    let build = Build { alloc, most };
    let len = run_len(tokens);
    let mut reading = Reading::new(build);
    read_run(build, ops, &tokens[..len], &mut reading)?;
    match reading.term.take_whole(build)?.into_tree() {
        Some(raw) => Ok((raw, len)),
        None => Err(TermFault::Deep),
    }
}

// Reads the term that the tokens are, as if a full stop stood behind them. The term is left where it was built.
fn read_run(
    build: Build,
    ops: &Ops,
    tokens: &[Token],
    reading: &mut Reading,
) -> Result<(), TermFault>
    requires { reading.old.spot ≡ AtOperand }
    ensures read { OnOk result (IsTermOf build.most (table_of ops.now)
        (lexemes_of tokens.now ++ full_stop ∷ []) reading.new.term) }
    ensures fault { IfErr result (IsFaultWhere (λ _. ⊥) (table_of ops.now)
        (lexemes_of tokens.now ++ full_stop ∷ [])) }
{
    ops.rows_are_lawful();
    let mut stack = Stack::new(build.alloc);
    for (i, token) in tokens.iter().enumerate() {
        if !step(build, ops, &mut stack, reading, token)? {
            return Err(TermFault::Bad(i));
        }
    }
    if !step_stop(build, &mut stack, reading)? {
        return Err(TermFault::Bad(tokens.len()));
    }
    Ok(())
}

// How many tokens stand before the first delimiter.
#[tactic(auto, using(crate::proofs::Stopping::run_goes, crate::proofs::Stopping::run_ends, crate::proofs::Stopping::run_over))]
fn run_len(tokens: &[Token]) -> usize
    ensures { result ≡ length (term_run 0 (lexemes_of tokens.now)) }
{
    let mut unclosed = 0;
    for (i, token) in tokens.iter().enumerate() {
        match open_behind(token, unclosed) {
            Some(more) => unclosed = more,
            None => return i,
        }
    }
    tokens.len()
}

// How many parentheses are open behind a token, unless it delimits a term.
fn open_behind(token: &Token, unclosed: usize) -> Option<usize>
    requires { unclosed + 1 < 2 ^ 64 }
    ensures { result ≡ open_behind (lexeme_of token.now) unclosed }
{
    match token.kind() {
        TokenKind::Open => Some(unclosed + 1),
        TokenKind::Close => unclosed.checked_sub(1),
        TokenKind::Comma if unclosed == 0 => None,
        TokenKind::Stop | TokenKind::RightSquare => None,
        _ => Some(unclosed),
    }
}
