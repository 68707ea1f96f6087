// What is asked of a search for proofs.
use fol_core::{Clause, Symbols};
use fol_problem::Problem;
use proof_lines::LineOperators;

/// The bytes of an input and its problem, the operators of formulas and of clauses, the symbols with the Skolem symbols, and the
/// clauses with the numbers of their formulas.
#[derive(Drop)]
pub struct Asking<'a> {
    pub input: &'a [u8],
    pub problem: &'a Problem,
    pub operators: LineOperators,
    pub symbols: Symbols,
    pub clauses: Vec<(u64, Clause)>,
}
