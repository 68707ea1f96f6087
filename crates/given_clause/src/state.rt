// Where a search stands.
use crate::waiting::Waiting;
use clause_index::{HeldSet, RewriteRules};
use derivation::{First, Later};
use discrim_tree::Tries;
use fol_core::Clause;
use held_clauses::MadeLine;
use inference::LargeClause;
use std::collections::VecDeque;

/// A clause in the queue with its words. An input clause has its number, and whether it is to be used at once.
#[derive(Drop)]
pub struct Queued {
    pub clause: Clause,
    pub first: First,
    pub later: Vec<Later>,
    pub input: Option<u64>,
    pub usable: bool,
}

/// What the queue holds: a clause with its words, or a conclusion that is too large to be built, with its first word.
#[derive(Drop)]
pub enum QueueEntry {
    Built(Queued),
    Large(LargeClause, First),
}

/// Why a search ended: there are as many proofs as were wanted; none waits; as many clauses were given, or kept, as are
/// allowed; or as many symbols were kept.
#[derive(Clone, Copy)]
pub enum Reason {
    Proved,
    Spent,
    GaveAll,
    KeptAll,
    Filled,
}

/// A proof: the number of its last line, and how many clauses had been given by then.
#[derive(Clone, Copy)]
pub struct FoundProof {
    pub line: u64,
    pub given: u64,
}

/// The clauses that wait, those in use and the rules, by their numbers; the queue; the lines that were made, and the next number;
/// the place of the next turn; how many clauses were given, concluded, kept and too large, and how many symbols kept; how many
/// entries of the indexes of rules and of units were tested; the proofs; and why the search ended, if it did.
#[derive(Drop)]
pub struct Search {
    pub waiting: Waiting,
    pub usable: HeldSet,
    pub rules: RewriteRules,
    pub queue: VecDeque<QueueEntry>,
    pub lines: Vec<MadeLine>,
    pub next: u64,
    pub turn: u64,
    pub given: u64,
    pub generated: u64,
    pub kept: u64,
    pub large: u64,
    pub symbols: u64,
    pub tries: Tries,
    pub proofs: Vec<FoundProof>,
    pub ended: Option<Reason>,
}
