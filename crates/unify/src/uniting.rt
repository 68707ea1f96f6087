// Terms made the same: classes of nodes grow until what has to be the same is.
ghost use Rattle.std.specs.Prelude.{◌≡◌};
ghost use Rattle.unify.specs.Opens.{AreOpen, IsLinkOf, CanUnite, IsMadeSame};
ghost use Rattle.unify.specs.Spots.{spot_tree};
ghost use Rattle.unify.specs.Steps.{WorkGoesOn, Joins, TermsStay};
ghost use Rattle.unify.specs.Opens.{one_higher};

use crate::joining::merge;
use crate::spot::{Link, Spot, Workspace};
use term_bank::{Bank, Node, TermId};

// The arguments of two nodes, each and each.
fn open_each(
    bank: &Bank,
    work: &mut Workspace,
    link: Link,
    left: &[TermId],
    right: &[TermId],
) -> bool
    requires { AreOpen bank.now work.old link left.now right.now }
    ensures goes { WorkGoesOn work.old work.new }
    ensures joins { Joins bank.now work.old work.new one_higher (spot_tree bank.now link.from)
        (spot_tree bank.now link.to) result }
    ensures stays { TermsStay bank.now work.old work.new link.from link.to result }
{
    for k in 0..left.len() {
        let s = Spot {
            term: left[k],
            context: link.from.context,
        };
        let t = Spot {
            term: right[k],
            context: link.to.context,
        };
        if !merge(bank, work, s, t) {
            return false;
        }
    }
    true
}

// Two nodes: they have one head, and their arguments are the same.
fn open(bank: &Bank, work: &mut Workspace, link: Link) -> bool
    requires { IsLinkOf bank.now work.old link }
    ensures goes { WorkGoesOn work.old work.new }
    ensures joins { Joins bank.now work.old work.new one_higher (spot_tree bank.now link.from)
        (spot_tree bank.now link.to) result }
    ensures stays { TermsStay bank.now work.old work.new link.from link.to result }
{
    match (bank.node(link.from.term), bank.node(link.to.term)) {
        (Node::Elem(k), Node::Elem(n)) => k == n,
        (Node::App(f, left), Node::App(g, right)) => {
            if f.0 != g.0 {
                return false;
            }
            if left.len() != right.len() {
                return false;
            }
            open_each(bank, work, link, left, right)
        }
        (Node::Var(_), _) => false,
        (Node::Elem(_), Node::Var(_)) => false,
        (Node::App(_, _), Node::Var(_)) => false,
        (Node::Elem(_), Node::App(_, _)) => false,
        (Node::App(_, _), Node::Elem(_)) => false,
    }
}

/// Two terms, and all that has to be the same for them to be so.
pub fn unite(bank: &Bank, work: &mut Workspace, s: Spot, t: Spot) -> bool
    requires { CanUnite bank.now work.old s t }
    ensures goes { WorkGoesOn work.old work.new }
    ensures made { IsMadeSame bank.now work.old work.new (spot_tree bank.now s)
        (spot_tree bank.now t) result }
    ensures stays { TermsStay bank.now work.old work.new s t result }
{
    if !merge(bank, work, s, t) {
        return false;
    }
    let mut done = 0;
    while done < work.links.len() {
        let link = work.links[done];
        if !open(bank, work, link) {
            return false;
        }
        done += 1;
    }
    true
}
