// Terms of a bank by what stands below them.
ghost use Rattle.std.specs.Prelude.{◌≡◌, ◌<◌, false, MatchOption, length};
ghost use Rattle.derivation.specs.Equations.{is_equation};
ghost use Rattle.shared_clauses.specs.Nodes.{AreNodeSides, HasArguments, IsNoApplication};
ghost use Rattle.term_bank.specs.Bank.{tree_at};

use fol_core::EQ;
use term_bank::{Bank, Node, TermId};

/// The sides of a term that is an equation.
pub fn sides(bank: &Bank, id: TermId) -> Option<(TermId, TermId)>
    requires { id.0 < length bank.now }
    ensures { MatchOption result (is_equation (tree_at bank.now id.0) ≡ false)
        (λ p. AreNodeSides bank.now id.0 p.0.0 p.1.0) }
{
    match bank.node(id) {
        Node::Var(_) => None,
        Node::Elem(_) => None,
        Node::App(relation, arguments) => {
            if arguments.len() != 2 {
                return None;
            }
            if relation.0 != EQ.0 {
                return None;
            }
            Some((arguments[0], arguments[1]))
        }
    }
}

/// The arguments of a term that is an application of a symbol.
pub fn arguments_of(bank: &Bank, id: TermId, f: u64) -> Option<&[TermId]>
    requires { id.0 < length bank.now }
    ensures { MatchOption result (IsNoApplication f (tree_at bank.now id.0))
        (λ ks. HasArguments bank.now id.0 f ks.now) }
{
    match bank.node(id) {
        Node::Var(_) => None,
        Node::Elem(_) => None,
        Node::App(g, arguments) => { if f == g.0 { Some(arguments) } else { None } }
    }
}
