// The least number above the variables of a clause on shared terms, where 64 bits hold it. Each term of the bank is looked at once.
ghost use Rattle.std.specs.Prelude.{◌≡◌, ◌<◌, ◌∷◌, [], List, IfOk, length, map};
ghost use Rattle.answers.specs.AnswerTrees.{above_all};
ghost use Rattle.carried_answers.specs.Above.{AreAbove, AreAllAbove};
ghost use Rattle.fol_core.specs.Free.{variables_of, variables_of_all};
ghost use Rattle.fol_core.specs.Renumbered.{clause_variables};
ghost use Rattle.fol_core.specs.Tree.{Tree, trees_of};
ghost use Rattle.shared_clauses.specs.Shared.{clause_in};
ghost use Rattle.term_bank.specs.Bank.{tree_at};
ghost use Rattle.term_bank.specs.Cells.{AreNumbersBelow, numbers};

use shared_clauses::{SharedClause, SharedLiteral};
use std::alloc::{AllocError, Global};
use term_bank::{Bank, Node, TermId};

// The number above a variable.
fn above_variable(x: u64) -> Result<u64, AllocError>
    ensures { IfOk result (λ n. n ≡ above_all (x ∷ [])) }
{
    match x.checked_add(1) {
        None => Err(AllocError),
        Some(next) => Ok(next),
    }
}

// The greatest of the numbers of some terms.
fn above_parts(above: &[u64], parts: &[TermId]) -> u64
    requires { AreNumbersBelow (length above.now) (numbers parts.now) }
    ensures { (bank : List Tree) → AreAbove bank above.now → result
        ≡ above_all (variables_of_all (trees_of (map (λ k. tree_at bank k.0) parts.now))) }
{
    let mut most = 0;
    for part in parts {
        most = above[part.0 as usize].max(most);
    }
    most
}

// The number of a term, by those of the terms before it.
fn above_node(bank: &Bank, id: TermId, above: &[u64]) -> Result<u64, AllocError>
    requires id { id.0 < length bank.now }
    requires before { length above.now ≡ id.0 }
    requires above { AreAbove bank.now above.now }
    ensures { IfOk result (λ n. n ≡ above_all (variables_of (tree_at bank.now id.0))) }
{
    match bank.node(id) {
        Node::Var(x) => above_variable(x),
        Node::Elem(_) => Ok(0),
        Node::App(_, parts) => Ok(above_parts(above, parts)),
    }
}

// The numbers of all terms of a bank.
fn numbers_above(alloc: Global, bank: &Bank) -> Result<Vec<u64>, AllocError>
    ensures { IfOk result (λ ns. AreAllAbove bank.now ns.items) }
{
    let mut above = Vec::with_capacity(alloc, bank.len())?;
    for i in 0..bank.len() {
        let next = above_node(bank, TermId(i as u64), above.as_slice())?;
        above.push(next)?;
    }
    Ok(above)
}

// The greatest of those of literals.
fn above_literals(above: &[u64], literals: &[SharedLiteral]) -> u64
    requires { AreNumbersBelow (length above.now) (map (λ l. l.atom.0) literals.now) }
    ensures { (bank : List Tree) → AreAbove bank above.now → result
        ≡ above_all (clause_variables (clause_in bank literals.now)) }
{
    let mut most = 0;
    for literal in literals {
        most = above[literal.atom.0 as usize].max(most);
    }
    most
}

/// The least number above all variables of a clause; want of memory where 64 bits don't hold it.
pub fn fresh_number(alloc: Global, clause: &SharedClause) -> Result<u64, AllocError>
    ensures { IfOk result (λ n. n ≡ above_all (clause_variables clause.now)) }
{
    let (bank, literals) = clause.parts();
    let above = numbers_above(alloc, bank)?;
    Ok(above_literals(above.as_slice(), literals))
}
