// The parts of a line: its number, and the content and words behind it.
ghost use Rattle.std.specs.Prelude.{◌≡◌, ◌<◌, ◌≤◌, true, IfOk, IfErr, IfSome, length};
ghost use Rattle.ladr_lex.specs.Lexeme.{lexeme_of, lexemes_of};
ghost use Rattle.ladr_lex.specs.Numeral.{whole_number};
ghost use Rattle.proof_lines.specs.ContentTokens.{tables_of};
ghost use Rattle.proof_lines.specs.Faults.{IsBadBehindNumber, IsBadOfLine};
ghost use Rattle.proof_lines.specs.Parsed.{first_number, IsBehindRead, IsPartsRead, IsPartFault};
ghost use Rattle.proof_words.specs.Classes.{word_text};
ghost use Rattle.proof_words.specs.Faults.{AreFirstWords, IsBadWordToken};
ghost use Rattle.proof_words.specs.Spelling.{line_words};
ghost use Rattle.proof_words.specs.Written.{written_of, written_first, states_formula, suits};

use crate::content::{Terms, clause_seen, content_end, read_content, terms_seen};
use crate::fault::PartFault;
use crate::operators::LineOperators;
use derivation::{First, Just};
use ladr_lex::{Token, TokenKind, whole_number};
use proof_words::{ContentKind, WordsFault, read_words};
use std::alloc::Global;

// The number that a token is.
fn number_of(token: &Token) -> Option<u64>
    ensures { result ≡ whole_number (word_text (lexeme_of token.now)) }
{
    match token.kind() {
        TokenKind::Ordinary => whole_number(token.text()),
        _ => None,
    }
}

// The number that tokens begin with.
fn first_number(tokens: &[Token]) -> Option<u64>
    ensures number { result ≡ first_number (lexemes_of tokens.now) }
    ensures some { IfSome result (λ _. 0 < length tokens.now) }
{
    match tokens {
        [] => None,
        [first, ..] => number_of(first),
    }
}

/// The content and the words of a line, and how many tokens they are.
#[derive(Drop)]
pub struct Behind {
    pub terms: Terms,
    pub just: Just,
    pub len: usize,
}

// Whether a first word stands behind a formula.
fn states_formula(first: &First) -> bool
    ensures { result ≡ states_formula (written_first first.now) }
{
    matches!(first, First::Assumption | First::Goal)
}

// The words behind content of a kind.
#[tactic(auto, using(crate::proofs::Contents::lexemes_long))]
fn words_behind(
    alloc: Global,
    kind: ContentKind,
    tokens: &[Token],
) -> Result<(Just, usize), PartFault>
    ensures read { IfOk result (λ r. AreFirstWords (line_words kind) (lexemes_of tokens.now)
        (written_of r.0) r.1) }
    ensures suits { IfOk result (λ r. suits kind (written_first r.0.first) ≡ true) }
    ensures len { IfOk result (λ r. r.1 ≤ length tokens.now) }
    ensures fault { IfErr result (IsPartFault (IsBadWordToken (line_words kind)
        (lexemes_of tokens.now))) }
    ensures within { IfErr result (IsPartFault (λ k. k ≤ length tokens.now)) }
{
    match read_words(alloc, kind, tokens) {
        Ok((just, len)) => Ok((just, len)),
        Err(WordsFault::Bad(k)) => Err(PartFault::Bad(k)),
        Err(WordsFault::Memory) => Err(PartFault::Memory),
    }
}

// What stands behind a line's number, whether the content is a formula, a clause, or may be either.
fn read_any(alloc: Global, operators: &LineOperators, tokens: &[Token]) -> Result<Behind, PartFault>
    ensures read { IfOk result (λ b. IsBehindRead (tables_of operators.now)
        (lexemes_of tokens.now) b) }
    ensures within { IfErr result (IsPartFault (λ k. k ≤ length tokens.now)) }
    ensures len { IfOk result (λ b. b.len ≤ length tokens.now) }
    ensures fault { IfErr result (IsPartFault (IsBadBehindNumber (tables_of operators.now)
        (lexemes_of tokens.now))) }
{
    let end = content_end(tokens);
    let content = read_content(alloc, operators, &tokens[..end])?;
    let (just, len) = match words_behind(alloc, content.kind(), &tokens[end..]) {
        Ok(read) => read,
        Err(PartFault::Bad(k)) => return Err(PartFault::Bad(end + k)),
        Err(PartFault::Memory) => return Err(PartFault::Memory),
    };
    let by_formula = states_formula(&just.first);
    let terms = terms_seen(alloc, operators, &tokens[..end], content, by_formula)?;
    Ok(Behind {
        terms,
        just,
        len: end + len,
    })
}

/// What stands behind a line's number. Where the words are those of a clause and the content is one, it is read once, and whether
/// it is a formula too isn't asked.
pub fn read_behind(
    alloc: Global,
    operators: &LineOperators,
    tokens: &[Token],
) -> Result<Behind, PartFault>
    ensures read { IfOk result (λ b. IsBehindRead (tables_of operators.now)
        (lexemes_of tokens.now) b) }
    ensures within { IfErr result (IsPartFault (λ k. k ≤ length tokens.now)) }
    ensures len { IfOk result (λ b. b.len ≤ length tokens.now) }
    ensures fault { IfErr result (IsPartFault (IsBadBehindNumber (tables_of operators.now)
        (lexemes_of tokens.now))) }
{
    let end = content_end(tokens);
    if let Ok((just, len)) = words_behind(alloc, ContentKind::Clause, &tokens[end..]) {
        if let Ok(clause) = clause_seen(alloc, &operators.clauses, &tokens[..end]) {
            return Ok(Behind {
                terms: Terms::Clause(clause),
                just,
                len: end + len,
            });
        }
    }
    read_any(alloc, operators, tokens)
}

/// The number of a line, and what stands behind it.
#[derive(Drop)]
pub struct Parts {
    pub number: u64,
    pub behind: Behind,
}

/// The parts of the line that tokens begin with.
#[tactic(auto, using(crate::proofs::PartLemmas::none_first))]
pub fn read_parts(
    alloc: Global,
    operators: &LineOperators,
    tokens: &[Token],
) -> Result<Parts, PartFault>
    ensures read { IfOk result (IsPartsRead (tables_of operators.now) (lexemes_of tokens.now)) }
    ensures within { IfOk result (λ p. p.behind.len < length tokens.now) }
    ensures fault { IfErr result (IsPartFault (IsBadOfLine (tables_of operators.now)
        (lexemes_of tokens.now))) }
{
    let Some(number) = first_number(tokens) else {
        return Err(PartFault::Bad(0));
    };
    match read_behind(alloc, operators, &tokens[1..]) {
        Ok(behind) => Ok(Parts { number, behind }),
        Err(PartFault::Bad(k)) => Err(PartFault::Bad(k + 1)),
        Err(PartFault::Memory) => Err(PartFault::Memory),
    }
}
