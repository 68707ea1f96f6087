// The lexicographic path order, worked out by the heads: each pair of subterms is looked at once at most.
ghost use Rattle.std.specs.Prelude.{◌≡◌, ◌≤◌, ◌<◌, ◌||◌, length, map, take};
ghost use Rattle.std.specs.List.{list_any, list_all};
ghost use Rattle.fol_core.specs.Tree.{app, trees_of};
ghost use Rattle.substitutions.specs.Occurring.{has_variable};
ghost use Rattle.term_bank.specs.Bank.{tree_at};
ghost use Rattle.term_bank.specs.Cells.{AreNumbersBelow, numbers};
ghost use Rattle.term_order.specs.Compared.{compared_by, trees_under, AreCommon, HaveOneHead, is_greater_than_each};
ghost use Rattle.term_order.specs.Lpo.{lpo_greater, some_at_least};
ghost use Rattle.term_order.specs.Precedences.{stands_above};
ghost use Rattle.unifiers.specs.Matching.{same_tree};

use crate::compared::Compared;
use crate::precedence::Precedence;
use term_bank::{Bank, Node, TermId};

// Whether the term has the variable.
#[cycle(variable)]
#[tactic(auto, using(crate::proofs::Walks::variable_here, crate::proofs::Walks::variable_behind, crate::proofs::Walks::variable_end))]
pub fn has_variable(bank: &Bank, t: TermId, x: u64) -> bool
    requires { t.0 < length bank.now }
    ensures { result ≡ has_variable x (tree_at bank.now t.0) }
{
    match bank.node(t) {
        Node::Var(y) => x == y,
        Node::Elem(_) => false,
        Node::App(_, ts) => {
            for t in ts {
                if has_variable(bank, *t, x) {
                    return true;
                }
            }
            false
        }
    }
}

// How many terms at the front are the same in both lists.
pub fn common_len(bank: &Bank, ss: &[TermId], ts: &[TermId]) -> usize
    requires ss { AreNumbersBelow (length bank.now) (numbers ss.now) }
    requires ts { AreNumbersBelow (length bank.now) (numbers ts.now) }
    ensures { AreCommon bank.now ss.now ts.now result }
{
    for (i, s) in ss.iter().enumerate() {
        if i >= ts.len() {
            return i;
        }
        if !bank.same(*s, ts[i]) {
            return i;
        }
    }
    ss.len()
}

impl Precedence {
    /// How the terms compare by the path order.
    pub fn lpo(&self, bank: &Bank, s: TermId, t: TermId) -> Compared
        requires s { s.0 < length bank.now }
        requires t { t.0 < length bank.now }
        ensures { result ≡ compared_by (lpo_greater (stands_above self.now.rows.items))
            (tree_at bank.now s.0) (tree_at bank.now t.0) }
    {
        if bank.same(s, t) {
            return Compared::Same;
        }
        if self.is_greater(bank, s, t) {
            return Compared::Greater;
        }
        if self.is_greater(bank, t, s) {
            return Compared::Less;
        }
        Compared::NotComparable
    }

    // Whether the first term is greater.
    #[cycle(greater)]
    fn is_greater(&self, bank: &Bank, s: TermId, t: TermId) -> bool
        requires s { s.0 < length bank.now }
        requires t { t.0 < length bank.now }
        ensures { result ≡ lpo_greater (stands_above self.now.rows.items)
            (tree_at bank.now s.0) (tree_at bank.now t.0) }
    {
        match (bank.node(s), bank.node(t)) {
            (Node::Var(_), _) => false,
            (Node::Elem(_), _) => false,
            (Node::App(_, _), Node::Var(y)) => has_variable(bank, s, y),
            (Node::App(_, ss), Node::Elem(_)) => self.some_at_least(bank, ss, t),
            (Node::App(f, ss), Node::App(g, ts)) => {
                if f.0 == g.0 {
                    self.is_greater_within(bank, s, ss, t, ts)
                } else if self.is_above(f, g) {
                    self.is_above_each(bank, s, ts)
                } else {
                    self.some_at_least(bank, ss, t)
                }
            }
        }
    }

    // Whether some term is greater or the same.
    #[cycle(greater)]
    #[tactic(auto, using(crate::proofs::Walks::least_end))]
    fn some_at_least(&self, bank: &Bank, ss: &[TermId], t: TermId) -> bool
        requires ss { AreNumbersBelow (length bank.now) (numbers ss.now) }
        requires t { t.0 < length bank.now }
        ensures { result ≡ some_at_least (stands_above self.now.rows.items)
            (trees_of (trees_under bank.now ss.now)) (tree_at bank.now t.0) }
    {
        for s in ss {
            if bank.same(*s, t) {
                return true;
            }
            if self.is_greater(bank, *s, t) {
                return true;
            }
        }
        false
    }

    // Whether the term is greater than each of some terms.
    #[cycle(greater)]
    #[tactic(auto, using(crate::proofs::Walks::each_here, crate::proofs::Walks::each_behind, crate::proofs::Walks::each_end))]
    fn is_above_each(&self, bank: &Bank, s: TermId, ts: &[TermId]) -> bool
        requires s { s.0 < length bank.now }
        requires ts { AreNumbersBelow (length bank.now) (numbers ts.now) }
        ensures { result ≡ is_greater_than_each (lpo_greater (stands_above self.now.rows.items))
            (tree_at bank.now s.0) (trees_under bank.now ts.now) }
    {
        for t in ts {
            if !self.is_greater(bank, s, *t) {
                return false;
            }
        }
        true
    }

    // Whether the first of two terms with one head is greater.
    #[cycle(greater)]
    fn is_greater_within(
        &self,
        bank: &Bank,
        s: TermId,
        ss: &[TermId],
        t: TermId,
        ts: &[TermId],
    ) -> bool
        requires s { s.0 < length bank.now }
        requires t { t.0 < length bank.now }
        requires ss { AreNumbersBelow s.0 (numbers ss.now) }
        requires ts { AreNumbersBelow t.0 (numbers ts.now) }
        requires heads { HaveOneHead bank.now s.0 ss.now t.0 ts.now }
        ensures { result ≡ lpo_greater (stands_above self.now.rows.items)
            (tree_at bank.now s.0) (tree_at bank.now t.0) }
    {
        let n = common_len(bank, ss, ts);
        if n >= ss.len() {
            return false;
        }
        if n >= ts.len() {
            return self.some_at_least(bank, &ss[n..], t);
        }
        if self.is_greater(bank, ss[n], ts[n]) {
            self.is_above_each(bank, s, &ts[n + 1..])
        } else {
            self.some_at_least(bank, &ss[n + 1..], t)
        }
    }
}
