// A clause that is read with answers behind it, taken apart.
ghost use Rattle.std.specs.Prelude.{◌≡◌, ◌≤◌, nat_le, length, drop, true, List, [], ◌∷◌, ◌++◌, if◌then◌else◌, IfOk, IfErr, OnOk, Some, None};
ghost use Rattle.std.specs.Option.{option_map};
ghost use Rattle.fol_core.specs.RawTree.{RawTree, depth_of, raws_of};
ghost use Rattle.fol_core.specs.RawView.{raw_of, raw_list};
ghost use Rattle.ladr_lex.specs.Lexeme.{lexemes_of};
ghost use Rattle.ladr_reader.specs.Capped.{disjuncts};
ghost use Rattle.ladr_reader.specs.Reads.{Item};
ghost use Rattle.ladr_reader.specs.Table.{table_of};
ghost use Rattle.ladr_rules.specs.Attributes.{attributes_in};
ghost use Rattle.proof_lines.specs.AnswerMarks.{begins_answer, noted};
ghost use Rattle.proof_lines.specs.ContentTokens.{IsAnsweredItem};
ghost use Rattle.proof_lines.specs.Faults.{IsNoItem, IsNoMarked};
ghost use Rattle.proof_lines.specs.Literals.{read_as_clause};
ghost use Rattle.proof_lines.specs.Parsed.{AreLiteralsRead, IsPartFault};
ghost use Rattle.proof_lines.specs.AnswersSeen.{HasAnswersRead, HasAnswersSeen};
ghost use Rattle.proof_lines.specs.Answered.{ReadAnswer, all_answers, answer_read, answer_view, answer_views, are_shallow_answers, continued, goal_in, goal_read, is_disjoined, number_marked, number_read};
ghost use Rattle.proof_lines.specs.declared.literals.TheConstants.{MOST_ATOM_LEVELS};

use crate::fault::PartFault;
use crate::literals::{MOST_ATOM_LEVELS, are_shallow, is_within, read_as_clause};
use crate::marks::answer_marks;
use fol_core::{Raw, Raws};
use ladr_lex::{Ops, Token, whole_number};
use ladr_reader::{TermFault, read_marked};
use ladr_rules::Split;
use std::alloc::{AllocError, Global};

/// An answer as it is read: the number of its goal's line, and its terms.
#[derive(Drop)]
pub struct RawAnswer {
    pub goal: u64,
    pub terms: Raws,
}

/// The disjuncts of a clause without its answers, and these.
#[derive(Drop)]
pub struct AnsweredRaw {
    pub literals: Vec<Raw>,
    pub answers: Vec<RawAnswer>,
}

// The number whose marked name this is.
fn number_marked(name: &[u8]) -> Option<u64>
    ensures { result ≡ number_marked name.now }
{
    match name {
        [] => None,
        [first, behind @ ..] => {
            if *first != b'"' || behind.len() == 0 {
                return None;
            }
            whole_number(&behind[..behind.len() - 1])
        }
    }
}

// The number that a term is.
#[tactic(auto, using(crate::proofs::AnswerParts::number_by_length))]
fn number_read(raw: &Raw) -> Option<u64>
    ensures { result ≡ number_read (raw_of raw.now) }
{
    match raw {
        Raw::App(name, args) => {
            if args.len() > 0 {
                return None;
            }
            number_marked(name.bytes())
        }
        Raw::Quant(_, _, _) => None,
    }
}

// The number in front of the arguments of an answer.
#[tactic(auto, using(crate::proofs::AnswerParts::goal_in_front, crate::proofs::AnswerParts::no_goal_in))]
fn goal_in(args: &[Raw]) -> Option<u64>
    ensures { result ≡ goal_in (raw_list args.now) }
{
    if args.len() < 2 {
        return None;
    }
    number_read(&args[0])
}

// The goal's line of an answer, if the term is one.
#[tactic(auto, using(crate::proofs::AnswerParts::goal_by_name))]
fn goal_read(raw: &Raw) -> Option<u64>
    ensures { result ≡ goal_read (raw_of raw.now) }
{
    match raw {
        Raw::App(name, args) => {
            if name.bytes() == b"\"answer\"".as_slice() {
                goal_in(args.as_slice())
            } else {
                None
            }
        }
        Raw::Quant(_, _, _) => None,
    }
}

// The terms of an answer, behind its number.
fn terms_behind(args: Raws) -> Result<Raws, AllocError>
    requires { 1 ≤ length args }
    ensures { IfOk result (λ terms. terms ≡ drop 1 args) }
{
    let mut items = args.into_items();
    let terms = items.split_off(1)?;
    Ok(Raws { items: terms })
}

// The answer that a term is, if it is one.
fn answer_of(raw: Raw) -> Result<Option<RawAnswer>, AllocError>
    ensures { IfOk result (λ o. option_map answer_view o ≡ answer_read (raw_of raw)) }
{
    let Some(goal) = goal_read(&raw) else {
        return Ok(None);
    };
    match raw {
        Raw::App(_name, args) => {
            let terms = terms_behind(args)?;
            Ok(Some(RawAnswer { goal, terms }))
        }
        Raw::Quant(_word, _name, _body) => Ok(None),
    }
}

// Adds the answers that attributes are, unless one of them is none.
#[tactic(auto, using(crate::proofs::AnswerParts::answers_joined, crate::proofs::AnswerParts::answers_alone, crate::proofs::AnswerParts::more_answers, crate::proofs::AnswerParts::no_answers))]
fn add_answers(attributes: Raw, answers: &mut Vec<RawAnswer>) -> Result<bool, AllocError>
    ensures { IfOk result (λ all. continued (answer_views answers.old.items)
        (all_answers (attributes_in (raw_of attributes)))
        ≡ (if all then Some (answer_views answers.new.items) else None)) }
{
    match Split::of(attributes) {
        Split::Joined(first, rest) => match answer_of(first)? {
            Some(answer) => {
                answers.push(answer)?;
                add_answers(rest, answers)
            }
            None => Ok(false),
        },
        Split::Alone(last) => match answer_of(last)? {
            Some(answer) => {
                answers.push(answer)?;
                Ok(true)
            }
            None => Ok(false),
        },
    }
}

// Whether `|` joins two disjuncts.
#[tactic(auto, using(crate::proofs::AnswerParts::disjoined_by_length))]
fn is_disjunction(raw: &Raw) -> bool
    ensures { result ≡ is_disjoined (raw_of raw.now) }
{
    match raw {
        Raw::App(name, args) => args.len() == 2 && name.bytes() == b"|".as_slice(),
        Raw::Quant(_, _, _) => false,
    }
}

// Two arguments by value.
fn two(args: Raws) -> (Raw, Raw)
    requires { length args ≡ 2 }
    ensures { args ≡ raw_of result.0 ∷ raw_of result.1 ∷ [] }
{
    let mut items = args.into_items();
    let second = items.pop().unwrap();
    let first = items.pop().unwrap();
    (first, second)
}

// Adds the disjuncts of a term.
#[tactic(auto, using(crate::proofs::AnswerParts::disjuncts_joined, crate::proofs::AnswerParts::disjuncts_alone, crate::proofs::AnswerParts::two_joined))]
fn add_disjuncts(clause: Raw, literals: &mut Vec<Raw>) -> Result<(), AllocError>
    ensures { OnOk result (raw_list literals.new.items
        ≡ raw_list literals.old.items ++ disjuncts (raw_of clause)) }
{
    if !is_disjunction(&clause) {
        literals.push(clause)?;
        return Ok(());
    }
    match clause {
        Raw::App(_name, args) => {
            let (first, rest) = two(args);
            literals.push(first)?;
            add_disjuncts(rest, literals)
        }
        Raw::Quant(_word, _name, _body) => Ok(()),
    }
}

/// The disjuncts and the answers that a term is read as, if there are answers behind it.
#[tactic(auto, using(crate::proofs::AnswerParts::part_joined, crate::proofs::AnswerParts::clause_joined, crate::proofs::AnswerParts::none_alone))]
pub fn with_answers(alloc: Global, raw: Raw) -> Result<Option<AnsweredRaw>, AllocError>
    ensures { IfOk result (HasAnswersRead (raw_of raw)) }
{
    match Split::of(raw) {
        Split::Joined(clause, attributes) => {
            let mut answers = Vec::new(alloc);
            if add_answers(attributes, &mut answers)? {
                let mut literals = Vec::new(alloc);
                add_disjuncts(clause, &mut literals)?;
                Ok(Some(AnsweredRaw { literals, answers }))
            } else {
                Ok(None)
            }
        }
        Split::Alone(_) => Ok(None),
    }
}

/// The most levels of a clause with answers that is built: its disjuncts count, so there may be some hundred of them.
pub const MOST_ANSWERED_LEVELS: u16 = 2000;

/// The clause with answers that tokens are; nothing where they are a term without answers behind it, or with more levels than
/// are built.
pub fn read_answered(
    alloc: Global,
    ops: &Ops,
    tokens: &[Token],
) -> Result<Option<AnsweredRaw>, PartFault>
    ensures read { IfOk result (λ o. (t : RawTree) × Item (table_of ops.now)
        (noted (lexemes_of tokens.now)) t × HasAnswersSeen t o) }
    ensures fault { IfErr result (IsPartFault (IsNoItem (table_of ops.now)
        (noted (lexemes_of tokens.now)))) }
{
    let Ok(marks) = answer_marks(alloc, tokens) else {
        return Err(PartFault::Memory);
    };
    match read_marked(alloc, ops, tokens, &marks, MOST_ANSWERED_LEVELS) {
        Ok(raw) => match with_answers(alloc, raw) {
            Ok(read) => Ok(read),
            Err(_) => Err(PartFault::Memory),
        },
        Err(TermFault::Bad(k)) => Err(PartFault::Bad(k)),
        Err(TermFault::Deep) => Ok(None),
        Err(TermFault::Memory) => Err(PartFault::Memory),
    }
}

// Whether no term of these has more than 1,000 levels.
#[tactic(auto, using(crate::proofs::Levels::within_step))]
fn are_within(terms: &[Raw]) -> bool
    ensures { result ≡ nat_le (depth_of (raws_of (raw_list terms.now))) MOST_ATOM_LEVELS }
{
    for term in terms {
        if !is_within(term, MOST_ATOM_LEVELS) {
            return false;
        }
    }
    true
}

// Whether no term of answers has.
#[tactic(auto, using(crate::proofs::Levels::answer_step))]
fn are_shallow_answers(answers: &[RawAnswer]) -> bool
    ensures { result ≡ are_shallow_answers (answer_views answers.now) }
{
    for answer in answers {
        if !are_within(answer.terms.as_slice()) {
            return false;
        }
    }
    true
}

// The clause, unless a literal or a term of its answers is too deep.
fn unless_deep(clause: AnsweredRaw) -> Option<AnsweredRaw>
    ensures { (t : RawTree) → raw_list clause.literals.items ≡ disjuncts t
        → read_as_clause (disjuncts t) ≡ true
        → AreLiteralsRead t (answer_views clause.answers.items) result }
{
    if are_shallow(&clause.literals) && are_shallow_answers(&clause.answers) {
        Some(clause)
    } else {
        None
    }
}

/// The clause with answers, one at least, that tokens are in which one begins, unless it is too deep.
pub fn answered_clause(
    alloc: Global,
    ops: &Ops,
    tokens: &[Token],
) -> Result<Option<AnsweredRaw>, PartFault>
    requires { begins_answer (lexemes_of tokens.now) ≡ true }
    ensures read { IfOk result (λ o. (t : RawTree) × (us : List ReadAnswer)
        × IsAnsweredItem (table_of ops.now) (lexemes_of tokens.now) t us
        × AreLiteralsRead t us o) }
    ensures fault { IfErr result (IsPartFault (IsNoMarked (table_of ops.now)
        (lexemes_of tokens.now))) }
{
    match read_answered(alloc, ops, tokens) {
        Ok(Some(clause)) => {
            if read_as_clause(&clause.literals) {
                Ok(unless_deep(clause))
            } else {
                Err(PartFault::Bad(tokens.len() - 1))
            }
        }
        Ok(None) => Err(PartFault::Bad(tokens.len() - 1)),
        Err(fault) => Err(fault),
    }
}
