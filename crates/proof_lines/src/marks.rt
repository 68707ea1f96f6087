// Which tokens of a clause are names because an answer begins there.
ghost use Rattle.std.specs.Prelude.{◌≡◌, IfOk};
ghost use Rattle.ladr_lex.specs.Lexeme.{lexeme_of, lexemes_of};
ghost use Rattle.proof_lines.specs.AnswerMarks.{answer_marks, begins_answer, is_answer_word, is_goal_number, is_hash, is_name_at, is_open, spot_behind};

use ladr_lex::{Token, TokenKind, whole_number};
use std::alloc::{AllocError, Global};

/// Where a token stands: behind a `#`, behind the word of an answer there, behind the parenthesis of that, or elsewhere.
/// Further parentheses may stand before the word, and before the number behind its parenthesis.
#[derive(Clone, Copy)]
pub enum Spot {
    Elsewhere,
    BehindHash,
    BehindWord,
    BehindOpen,
}

// Whether a token is `#`.
fn is_hash(token: &Token) -> bool
    ensures { result ≡ is_hash (lexeme_of token.now) }
{
    match token.kind() {
        TokenKind::Ordinary | TokenKind::Quoted | TokenKind::Special => {
            token.text() == b"#".as_slice()
        }
        _ => false,
    }
}

// Whether it is `(`.
fn is_open(token: &Token) -> bool
    ensures { result ≡ is_open (lexeme_of token.now) }
{
    matches!(token.kind(), TokenKind::Open)
}

// Whether it is `answer`, or in quotes.
fn is_answer_word(token: &Token) -> bool
    ensures { result ≡ is_answer_word (lexeme_of token.now) }
{
    match token.kind() {
        TokenKind::Ordinary => token.text() == b"answer".as_slice(),
        TokenKind::Quoted => true,
        _ => false,
    }
}

// Whether it is the number of a line, or in quotes.
fn is_goal_number(token: &Token) -> bool
    ensures { result ≡ is_goal_number (lexeme_of token.now) }
{
    match token.kind() {
        TokenKind::Ordinary => whole_number(token.text()).is_some(),
        TokenKind::Quoted => true,
        _ => false,
    }
}

// Whether a token that stands there is a name.
fn is_name_at(spot: Spot, token: &Token) -> bool
    ensures { result ≡ is_name_at spot (lexeme_of token.now) }
{
    match spot {
        Spot::BehindHash => is_answer_word(token),
        Spot::BehindOpen => is_goal_number(token),
        Spot::Elsewhere | Spot::BehindWord => false,
    }
}

// Where the token behind it stands.
fn spot_behind(spot: Spot, token: &Token) -> Spot
    ensures { result ≡ spot_behind spot (lexeme_of token.now) }
{
    if is_hash(token) {
        return Spot::BehindHash;
    }
    match spot {
        Spot::BehindHash => {
            if is_open(token) {
                return Spot::BehindHash;
            }
            if is_answer_word(token) {
                Spot::BehindWord
            } else {
                Spot::Elsewhere
            }
        }
        Spot::BehindWord | Spot::BehindOpen => {
            if is_open(token) {
                Spot::BehindOpen
            } else {
                Spot::Elsewhere
            }
        }
        Spot::Elsewhere => Spot::Elsewhere,
    }
}

/// Whether an answer begins somewhere.
#[tactic(auto, using(crate::proofs::Noting::begins_here, crate::proofs::Noting::begins_later, crate::proofs::Noting::begins_nowhere))]
pub fn begins_answer(tokens: &[Token]) -> bool
    ensures { result ≡ begins_answer (lexemes_of tokens.now) }
{
    let mut spot = Spot::Elsewhere;
    for token in tokens {
        if is_name_at(spot, token) {
            return true;
        }
        spot = spot_behind(spot, token);
    }
    false
}

/// Of each token, whether it is a name since an answer begins there: `answer` behind a `#`, and the number behind `# answer (`.
#[tactic(auto, using(crate::proofs::Noting::marks_next, crate::proofs::Noting::marks_end))]
pub fn answer_marks(alloc: Global, tokens: &[Token]) -> Result<Vec<bool>, AllocError>
    ensures { IfOk result (λ marks. marks.items ≡ answer_marks (lexemes_of tokens.now)) }
{
    let mut marks = Vec::with_capacity(alloc, tokens.len())?;
    let mut spot = Spot::Elsewhere;
    for token in tokens {
        marks.push(is_name_at(spot, token))?;
        spot = spot_behind(spot, token);
    }
    Ok(marks)
}
