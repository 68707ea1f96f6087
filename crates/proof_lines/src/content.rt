// The content of a line: a formula, a clause, or what may be either.
ghost use Rattle.std.specs.Prelude.{◌≡◌, ◌⊎◌, ◌≤◌, true, false, List, [], IfOk, IfErr, IfSome, IfNone, length, take, drop};
ghost use Rattle.fol_core.specs.RawTree.{RawTree};
ghost use Rattle.fol_core.specs.RawView.{raw_list};
ghost use Rattle.ladr_lex.specs.Lexeme.{Lexeme, lexeme_of, lexemes_of};
ghost use Rattle.ladr_commands.specs.Wanted.{is_stop};
ghost use Rattle.ladr_reader.specs.Capped.{disjuncts};
ghost use Rattle.ladr_reader.specs.Reads.{Item};
ghost use Rattle.ladr_reader.specs.Table.{table_of};
ghost use Rattle.proof_lines.specs.Answered.{ReadAnswer};
ghost use Rattle.proof_lines.specs.AnswerMarks.{begins_answer};
ghost use Rattle.proof_lines.specs.ContentTokens.{LineTables, IsPlainItem, IsFarItem, IsClauseWith, tables_of, content_in, behind_content_in};
ghost use Rattle.proof_lines.specs.Faults.{IsNoItem, IsNoPlain, IsNoClause, IsNoContent};
ghost use Rattle.proof_lines.specs.Parsed.{HasTermRead, AreLiteralsRead, IsContentSeen, kind_seen, AreTermsSeen, IsPartFault};
ghost use Rattle.proof_lines.specs.Literals.{read_as_clause};

use crate::answered::{AnsweredRaw, answered_clause};
use crate::fault::PartFault;
use crate::literals::{MOST_LITERAL_LEVELS, are_shallow, read_as_clause};
use crate::marks::begins_answer;
use crate::operators::LineOperators;
use fol_core::Raw;
use ladr_lex::{MOST_LEVELS, Ops, Token, TokenKind};
use ladr_reader::{TermFault, read_literals, read_tree};
use proof_words::ContentKind;
use std::alloc::Global;

/// Content as it is read: of a formula that is no clause, of a clause that is no formula, or of what may be either. The term of
/// the formula isn't kept, since it and the clause may take much memory; there is no clause where it is nested too deep.
#[derive(Drop)]
pub enum ContentRead {
    Formula,
    Clause(Option<AnsweredRaw>),
    Either(Option<AnsweredRaw>),
}

/// The term of a formula, or a clause with its answers, unless they are nested too deep.
#[derive(Drop)]
pub enum Terms {
    Formula(Option<Raw>),
    Clause(Option<AnsweredRaw>),
}

impl ContentRead {
    /// What words may stand behind it.
    pub fn kind(&self) -> ContentKind
        ensures { result ≡ kind_seen self.now }
    {
        match self {
            ContentRead::Formula => ContentKind::Formula,
            ContentRead::Clause(_) => ContentKind::Clause,
            ContentRead::Either(_) => ContentKind::Either,
        }
    }

    /// The clause, or else nothing.
    pub fn into_clause(self, of_formula: bool) -> Option<Terms>
        requires { (kind_seen self ≡ ContentKind.Formula → of_formula ≡ true)
            × (kind_seen self ≡ ContentKind.Clause → of_formula ≡ false) }
        ensures clause { IfSome result (λ terms. (g : LineTables) (ts : List Lexeme)
            → IsContentSeen g ts self → AreTermsSeen g of_formula ts terms) }
        ensures formula { IfNone result (of_formula ≡ true) }
    {
        match self {
            ContentRead::Formula => None,
            ContentRead::Clause(clause) => Some(Terms::Clause(clause)),
            ContentRead::Either(clause) => {
                if of_formula {
                    None
                } else {
                    Some(Terms::Clause(clause))
                }
            }
        }
    }
}

/// The content of a formula, or else of a clause; the tokens of a formula are gone over once more, when the clause is gone.
pub fn terms_seen(
    alloc: Global,
    operators: &LineOperators,
    tokens: &[Token],
    content: ContentRead,
    of_formula: bool,
) -> Result<Terms, PartFault>
    requires kind { (kind_seen content ≡ ContentKind.Formula → of_formula ≡ true)
        × (kind_seen content ≡ ContentKind.Clause → of_formula ≡ false) }
    requires seen { IsContentSeen (tables_of operators.now) (lexemes_of tokens.now) content }
    ensures terms { IfOk result (AreTermsSeen (tables_of operators.now) of_formula
        (lexemes_of tokens.now)) }
    ensures fault { IfErr result (λ fault. fault ≡ PartFault.Memory) }
{
    match content.into_clause(of_formula) {
        Some(terms) => Ok(terms),
        None => match formula_seen(alloc, &operators.formulas, tokens) {
            Ok(formula) => Ok(Terms::Formula(formula)),
            Err(_) => Err(PartFault::Memory),
        },
    }
}

// Whether a token is a full stop.
fn is_stop(token: &Token) -> bool
    ensures { result ≡ is_stop (lexeme_of token.now) }
{
    token.kind() == TokenKind::Stop
}

/// Where the content that tokens begin with ends: behind the first full stop, or with them.
pub fn content_end(tokens: &[Token]) -> usize
    ensures content { lexemes_of (take result tokens.now) ≡ content_in (lexemes_of tokens.now) }
    ensures behind { lexemes_of (drop result tokens.now)
        ≡ behind_content_in (lexemes_of tokens.now) }
    ensures within { result ≤ length tokens.now }
{
    for (i, token) in tokens.iter().enumerate() {
        if is_stop(token) {
            return i + 1;
        }
    }
    tokens.len()
}

// The term of a formula that the tokens are.
fn formula_seen(alloc: Global, ops: &Ops, tokens: &[Token]) -> Result<Option<Raw>, PartFault>
    ensures read { IfOk result (λ o. (t : RawTree) × Item (table_of ops.now)
        (lexemes_of tokens.now) t × HasTermRead t o) }
    ensures fault { IfErr result (IsPartFault (IsNoItem (table_of ops.now)
        (lexemes_of tokens.now))) }
{
    match read_tree(alloc, ops, tokens, MOST_LEVELS) {
        Ok(raw) => Ok(Some(raw)),
        Err(TermFault::Deep) => Ok(None),
        Err(TermFault::Bad(k)) => Err(PartFault::Bad(k)),
        Err(TermFault::Memory) => Err(PartFault::Memory),
    }
}

// The clause without answers that tokens are, read for that; it isn't there where it is too deep.
fn plain_clause(
    alloc: Global,
    ops: &Ops,
    tokens: &[Token],
) -> Result<Option<AnsweredRaw>, PartFault>
    ensures read { IfOk result (λ o. (t : RawTree)
        × (IsPlainItem (table_of ops.now) (lexemes_of tokens.now) t
        ⊎ IsFarItem (table_of ops.now) (lexemes_of tokens.now) t) × AreLiteralsRead t [] o) }
    ensures fault { IfErr result (IsPartFault (IsNoPlain (table_of ops.now)
        (lexemes_of tokens.now))) }
{
    match read_literals(alloc, ops, tokens, MOST_LITERAL_LEVELS) {
        Ok(literals) => {
            if read_as_clause(&literals) {
                Ok(without_answers(alloc, literals))
            } else {
                Err(PartFault::Bad(tokens.len() - 1))
            }
        }
        Err(TermFault::Deep) => Ok(None),
        Err(TermFault::Bad(k)) => Err(PartFault::Bad(k)),
        Err(TermFault::Memory) => Err(PartFault::Memory),
    }
}

// The clause with answers, or else without, that tokens are in which an answer begins.
#[tactic(auto, using(crate::proofs::AnsweredClauses::neither))]
fn either_clause(
    alloc: Global,
    ops: &Ops,
    tokens: &[Token],
) -> Result<Option<AnsweredRaw>, PartFault>
    requires { begins_answer (lexemes_of tokens.now) ≡ true }
    ensures read { IfOk result (λ o. (t : RawTree) × (us : List ReadAnswer)
        × IsClauseWith (table_of ops.now) (lexemes_of tokens.now) t us
        × AreLiteralsRead t us o) }
    ensures fault { IfErr result (IsPartFault (IsNoClause (table_of ops.now)
        (lexemes_of tokens.now))) }
{
    match answered_clause(alloc, ops, tokens) {
        Ok(clause) => Ok(clause),
        Err(PartFault::Bad(k)) => match plain_clause(alloc, ops, tokens) {
            Ok(clause) => Ok(clause),
            Err(PartFault::Bad(j)) => Err(PartFault::Bad(j.max(k))),
            Err(PartFault::Memory) => Err(PartFault::Memory),
        },
        Err(PartFault::Memory) => Err(PartFault::Memory),
    }
}

/// The clause that the tokens are, with its answers. Tokens in which an answer begins are looked at as a clause with answers
/// first.
#[tactic(auto, using(crate::proofs::AnsweredClauses::never_begun))]
pub fn clause_seen(
    alloc: Global,
    ops: &Ops,
    tokens: &[Token],
) -> Result<Option<AnsweredRaw>, PartFault>
    ensures read { IfOk result (λ o. (t : RawTree) × (us : List ReadAnswer)
        × IsClauseWith (table_of ops.now) (lexemes_of tokens.now) t us
        × AreLiteralsRead t us o) }
    ensures fault { IfErr result (IsPartFault (IsNoClause (table_of ops.now)
        (lexemes_of tokens.now))) }
{
    if begins_answer(tokens) {
        return either_clause(alloc, ops, tokens);
    }
    match plain_clause(alloc, ops, tokens) {
        Ok(clause) => Ok(clause),
        Err(PartFault::Bad(k)) => Err(PartFault::Bad(k)),
        Err(PartFault::Memory) => Err(PartFault::Memory),
    }
}

// A clause without answers, unless it is too deep.
fn without_answers(alloc: Global, literals: Vec<Raw>) -> Option<AnsweredRaw>
    ensures { (t : RawTree) → raw_list literals.items ≡ disjuncts t
        → read_as_clause (disjuncts t) ≡ true → AreLiteralsRead t [] result }
{
    if are_shallow(&literals) {
        Some(AnsweredRaw {
            literals,
            answers: Vec::new(alloc),
        })
    } else {
        None
    }
}

// Whether the tokens are those of a formula.
fn formula_found(alloc: Global, ops: &Ops, tokens: &[Token]) -> Result<(), PartFault>
    ensures item { IfOk result (λ _. (t : RawTree) × Item (table_of ops.now)
        (lexemes_of tokens.now) t) }
    ensures fault { IfErr result (IsPartFault (IsNoItem (table_of ops.now)
        (lexemes_of tokens.now))) }
{
    formula_seen(alloc, ops, tokens)?;
    Ok(())
}

/// What the tokens of content are.
#[tactic(auto, using(crate::proofs::Clauses::no_item_within, crate::proofs::AnsweredClauses::no_clause_within, crate::proofs::Contents::lexemes_long))]
pub fn read_content(
    alloc: Global,
    operators: &LineOperators,
    tokens: &[Token],
) -> Result<ContentRead, PartFault>
    ensures read { IfOk result (IsContentSeen (tables_of operators.now) (lexemes_of tokens.now)) }
    ensures fault { IfErr result (IsPartFault (IsNoContent (tables_of operators.now)
        (lexemes_of tokens.now))) }
    ensures within { IfErr result (IsPartFault (λ k. k ≤ length tokens.now)) }
{
    match formula_found(alloc, &operators.formulas, tokens) {
        Ok(()) => match clause_seen(alloc, &operators.clauses, tokens) {
            Ok(clause) => Ok(ContentRead::Either(clause)),
            Err(PartFault::Bad(_)) => Ok(ContentRead::Formula),
            Err(PartFault::Memory) => Err(PartFault::Memory),
        },
        Err(PartFault::Bad(k)) => match clause_seen(alloc, &operators.clauses, tokens) {
            Ok(clause) => Ok(ContentRead::Clause(clause)),
            Err(PartFault::Bad(j)) => Err(PartFault::Bad(k.max(j))),
            Err(PartFault::Memory) => Err(PartFault::Memory),
        },
        Err(PartFault::Memory) => Err(PartFault::Memory),
    }
}
