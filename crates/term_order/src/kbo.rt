// The Knuth-Bendix order.
ghost use Rattle.std.specs.Prelude.{◌≡◌, ◌≤◌, ◌<◌, ◌*◌, length};
ghost use Rattle.fol_core.specs.Sizes.{size_of, sizes_of};
ghost use Rattle.fol_core.specs.Tree.{trees_of};
ghost use Rattle.term_bank.specs.Bank.{tree_at};
ghost use Rattle.term_bank.specs.Cells.{AreNumbersBelow, numbers};
ghost use Rattle.term_order.specs.Compared.{compared_by, trees_under};
ghost use Rattle.term_order.specs.Kbo.{times_in, times_in_all, weigh, weigh_all, none_oftener, none_oftener_all, kbo_first, kbo_greater};
ghost use Rattle.term_order.specs.Precedences.{stands_above, weight_at};
ghost use Rattle.term_order.specs.declared.kbo.TheConstants.{MOST_NODES};

use crate::compared::Compared;
use crate::path::{common_len, has_variable};
use crate::precedence::Precedence;
use term_bank::{Bank, Node, TermId};

/// How many symbols and variables a term may have that is compared by weight.
pub const MOST_NODES: u64 = 1_000_000;

// How often a variable stands in a term.
#[cycle(times)]
fn times_in(bank: &Bank, t: TermId, x: u64) -> u64
    requires t { t.0 < length bank.now }
    requires size { size_of (tree_at bank.now t.0) ≤ MOST_NODES }
    ensures { result ≡ times_in x (tree_at bank.now t.0) }
{
    match bank.node(t) {
        Node::Var(y) => { if x == y { 1 } else { 0 } }
        Node::Elem(_) => 0,
        Node::App(_, ts) => times_among(bank, ts, x),
    }
}

// How often it stands in some terms.
#[cycle(times)]
fn times_among(bank: &Bank, ts: &[TermId], x: u64) -> u64
    requires ts { AreNumbersBelow (length bank.now) (numbers ts.now) }
    requires size { sizes_of (trees_of (trees_under bank.now ts.now)) ≤ MOST_NODES }
    ensures { result ≡ times_in_all x (trees_of (trees_under bank.now ts.now)) }
{
    let mut times = 0;
    for t in ts {
        times += times_in(bank, *t, x);
    }
    times
}

// Whether no variable of a term stands in the second list more often than in the first.
#[cycle(oftener)]
fn none_oftener(bank: &Bank, ss: &[TermId], ts: &[TermId], u: TermId) -> bool
    requires ss { AreNumbersBelow (length bank.now) (numbers ss.now) }
    requires ts { AreNumbersBelow (length bank.now) (numbers ts.now) }
    requires u { u.0 < length bank.now }
    requires first { sizes_of (trees_of (trees_under bank.now ss.now)) ≤ MOST_NODES }
    requires second { sizes_of (trees_of (trees_under bank.now ts.now)) ≤ MOST_NODES }
    ensures { result ≡ none_oftener (trees_of (trees_under bank.now ss.now))
        (trees_of (trees_under bank.now ts.now)) (tree_at bank.now u.0) }
{
    match bank.node(u) {
        Node::Var(y) => times_among(bank, ts, y) <= times_among(bank, ss, y),
        Node::Elem(_) => true,
        Node::App(_, us) => none_oftener_among(bank, ss, ts, us),
    }
}

// The same for the variables of some terms.
#[cycle(oftener)]
#[tactic(auto, using(crate::proofs::Sizes::oftener_here, crate::proofs::Sizes::oftener_behind, crate::proofs::Sizes::oftener_end))]
fn none_oftener_among(bank: &Bank, ss: &[TermId], ts: &[TermId], us: &[TermId]) -> bool
    requires ss { AreNumbersBelow (length bank.now) (numbers ss.now) }
    requires ts { AreNumbersBelow (length bank.now) (numbers ts.now) }
    requires us { AreNumbersBelow (length bank.now) (numbers us.now) }
    requires first { sizes_of (trees_of (trees_under bank.now ss.now)) ≤ MOST_NODES }
    requires second { sizes_of (trees_of (trees_under bank.now ts.now)) ≤ MOST_NODES }
    ensures { result ≡ none_oftener_all (trees_of (trees_under bank.now ss.now))
        (trees_of (trees_under bank.now ts.now)) (trees_of (trees_under bank.now us.now)) }
{
    for u in us {
        if !none_oftener(bank, ss, ts, *u) {
            return false;
        }
    }
    true
}

impl Precedence {
    // What a term weighs.
    #[cycle(weigh)]
    fn weigh(&self, bank: &Bank, t: TermId) -> u64
        requires t { t.0 < length bank.now }
        requires size { size_of (tree_at bank.now t.0) ≤ MOST_NODES }
        ensures weight { result ≡ weigh (weight_at self.now.rows.items) (tree_at bank.now t.0) }
        ensures within { result ≤ 4294967295 * size_of (tree_at bank.now t.0) }
    {
        match bank.node(t) {
            Node::Var(_) => 1,
            Node::Elem(_) => 1,
            Node::App(f, ts) => u64::from(self.weight(f)) + self.weigh_all(bank, ts),
        }
    }

    // What terms weigh together.
    #[cycle(weigh)]
    fn weigh_all(&self, bank: &Bank, ts: &[TermId]) -> u64
        requires ts { AreNumbersBelow (length bank.now) (numbers ts.now) }
        requires size { sizes_of (trees_of (trees_under bank.now ts.now)) ≤ MOST_NODES }
        ensures weight { result ≡ weigh_all (weight_at self.now.rows.items)
            (trees_of (trees_under bank.now ts.now)) }
        ensures within { result ≤ 4294967295 * sizes_of (trees_of (trees_under bank.now ts.now)) }
    {
        let mut weight = 0;
        for t in ts {
            weight += self.weigh(bank, *t);
        }
        weight
    }
}

impl Precedence {
    /// How the terms compare by the Knuth-Bendix order.
    pub fn kbo(&self, bank: &Bank, s: TermId, t: TermId) -> Compared
        requires s { s.0 < length bank.now }
        requires t { t.0 < length bank.now }
        requires first { size_of (tree_at bank.now s.0) ≤ MOST_NODES }
        requires second { size_of (tree_at bank.now t.0) ≤ MOST_NODES }
        ensures { result ≡ compared_by
            (kbo_greater (stands_above self.now.rows.items) (weight_at self.now.rows.items))
            (tree_at bank.now s.0) (tree_at bank.now t.0) }
    {
        if bank.same(s, t) {
            return Compared::Same;
        }
        if self.outweighs(bank, s, t) {
            return Compared::Greater;
        }
        if self.outweighs(bank, t, s) {
            return Compared::Less;
        }
        Compared::NotComparable
    }

    // Whether the first term is greater.
    #[cycle(outweighs)]
    fn outweighs(&self, bank: &Bank, s: TermId, t: TermId) -> bool
        requires s { s.0 < length bank.now }
        requires t { t.0 < length bank.now }
        requires first { size_of (tree_at bank.now s.0) ≤ MOST_NODES }
        requires second { size_of (tree_at bank.now t.0) ≤ MOST_NODES }
        ensures { result ≡ kbo_greater (stands_above self.now.rows.items)
            (weight_at self.now.rows.items) (tree_at bank.now s.0) (tree_at bank.now t.0) }
    {
        match (bank.node(s), bank.node(t)) {
            (Node::Var(_), _) => false,
            (Node::Elem(_), _) => false,
            (Node::App(_, _), Node::Var(y)) => has_variable(bank, s, y),
            (Node::App(_, _), Node::Elem(_)) => true,
            (Node::App(f, ss), Node::App(g, ts)) => {
                if !none_oftener_among(bank, ss, ts, ts) {
                    return false;
                }
                let left = self.weigh(bank, s);
                let right = self.weigh(bank, t);
                right < left
                    || (left == right
                        && (self.is_above(f, g)
                            || (f.0 == g.0 && self.first_outweighs(bank, ss, ts))))
            }
        }
    }

    // Whether the first of two lists has the greater one of the first terms that differ.
    #[cycle(outweighs)]
    fn first_outweighs(&self, bank: &Bank, ss: &[TermId], ts: &[TermId]) -> bool
        requires ss { AreNumbersBelow (length bank.now) (numbers ss.now) }
        requires ts { AreNumbersBelow (length bank.now) (numbers ts.now) }
        requires first { sizes_of (trees_of (trees_under bank.now ss.now)) ≤ MOST_NODES }
        requires second { sizes_of (trees_of (trees_under bank.now ts.now)) ≤ MOST_NODES }
        ensures { result ≡ kbo_first (stands_above self.now.rows.items)
            (weight_at self.now.rows.items) (trees_of (trees_under bank.now ss.now))
            (trees_of (trees_under bank.now ts.now)) }
    {
        let n = common_len(bank, ss, ts);
        if n >= ss.len() {
            return false;
        }
        if n >= ts.len() {
            return false;
        }
        self.outweighs(bank, ss[n], ts[n])
    }
}
