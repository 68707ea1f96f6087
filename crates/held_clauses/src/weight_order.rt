// Terms compared by weight, as they stand.
ghost use Rattle.std.specs.Prelude.{◌≡◌, ◌≤◌, ◌*◌};
ghost use Rattle.fol_core.specs.Sizes.{size_of, sizes_of};
ghost use Rattle.fol_core.specs.TermView.{tree_of, tree_list};
ghost use Rattle.fol_core.specs.Tree.{trees_of};
ghost use Rattle.held_clauses.specs.declared.weight_order.TheConstants.{MOST_WEIGHED_SYMBOLS};
ghost use Rattle.term_order.specs.Kbo.{times_in, times_in_all, weigh, weigh_all, none_oftener, none_oftener_all, kbo_first, kbo_greater};
ghost use Rattle.term_order.specs.Precedences.{stands_above, weight_at};

use fol_core::Term;
use substitutions::{has_variable, same};
use term_order::Precedence;

/// How many symbols and variables a term may have for 64 bits to hold its weight, whatever its symbols weigh: such a term takes
/// a hundred gigabytes.
pub const MOST_WEIGHED_SYMBOLS: u64 = 4_294_967_295;

// How often a variable stands in a term.
#[cycle(times)]
fn times_in(t: &Term, x: u64) -> u64
    requires { size_of (tree_of t.now) ≤ MOST_WEIGHED_SYMBOLS }
    ensures { result ≡ times_in x (tree_of t.now) }
{
    match t {
        Term::Var(y) => { if x == *y { 1 } else { 0 } }
        Term::Elem(_) => 0,
        Term::App(_, ts) => times_among(ts.as_slice(), x),
    }
}

// How often it stands in some terms.
#[cycle(times)]
#[tactic(auto, using(crate::proofs::Weights::times_next, crate::proofs::Weights::times_last))]
fn times_among(ts: &[Term], x: u64) -> u64
    requires { sizes_of (trees_of (tree_list ts.now)) ≤ MOST_WEIGHED_SYMBOLS }
    ensures { result ≡ times_in_all x (trees_of (tree_list ts.now)) }
{
    let mut times = 0;
    for t in ts {
        times += times_in(t, x);
    }
    times
}

// Whether no variable of a term stands in the second list more often than in the first.
#[cycle(oftener)]
fn none_oftener(ss: &[Term], ts: &[Term], u: &Term) -> bool
    requires first { sizes_of (trees_of (tree_list ss.now)) ≤ MOST_WEIGHED_SYMBOLS }
    requires second { sizes_of (trees_of (tree_list ts.now)) ≤ MOST_WEIGHED_SYMBOLS }
    ensures { result ≡ none_oftener (trees_of (tree_list ss.now)) (trees_of (tree_list ts.now))
        (tree_of u.now) }
{
    match u {
        Term::Var(y) => times_among(ts, *y) <= times_among(ss, *y),
        Term::Elem(_) => true,
        Term::App(_, us) => none_oftener_among(ss, ts, us.as_slice()),
    }
}

// The same for the variables of some terms.
#[cycle(oftener)]
#[tactic(auto, using(crate::proofs::Weights::oftener_here, crate::proofs::Weights::oftener_behind, crate::proofs::Weights::oftener_end))]
fn none_oftener_among(ss: &[Term], ts: &[Term], us: &[Term]) -> bool
    requires first { sizes_of (trees_of (tree_list ss.now)) ≤ MOST_WEIGHED_SYMBOLS }
    requires second { sizes_of (trees_of (tree_list ts.now)) ≤ MOST_WEIGHED_SYMBOLS }
    ensures { result ≡ none_oftener_all (trees_of (tree_list ss.now))
        (trees_of (tree_list ts.now)) (trees_of (tree_list us.now)) }
{
    for u in us {
        if !none_oftener(ss, ts, u) {
            return false;
        }
    }
    true
}

// What a term weighs.
#[cycle(weigh)]
fn weigh(precedence: &Precedence, t: &Term) -> u64
    requires { size_of (tree_of t.now) ≤ MOST_WEIGHED_SYMBOLS }
    ensures weight { result ≡ weigh (weight_at precedence.now.rows.items) (tree_of t.now) }
    ensures within { result ≤ 4294967295 * size_of (tree_of t.now) }
{
    match t {
        Term::Var(_) => 1,
        Term::Elem(_) => 1,
        Term::App(f, ts) => u64::from(precedence.weight(*f)) + weigh_all(precedence, ts.as_slice()),
    }
}

// What terms weigh together.
#[cycle(weigh)]
#[tactic(auto, using(crate::proofs::Weights::weights_next, crate::proofs::Weights::weights_last, crate::proofs::Weights::sizes_next, crate::proofs::Weights::sizes_last))]
fn weigh_all(precedence: &Precedence, ts: &[Term]) -> u64
    requires { sizes_of (trees_of (tree_list ts.now)) ≤ MOST_WEIGHED_SYMBOLS }
    ensures weight { result ≡ weigh_all (weight_at precedence.now.rows.items)
        (trees_of (tree_list ts.now)) }
    ensures within { result ≤ 4294967295 * sizes_of (trees_of (tree_list ts.now)) }
{
    let mut weight = 0;
    for t in ts {
        weight += weigh(precedence, t);
    }
    weight
}

/// Whether the first term is greater by weight: no variable stands in the second more often, and the first weighs more, or they
/// weigh the same, and the heads decide, or the first arguments that differ.
#[cycle(outweighs)]
pub fn outweighs(precedence: &Precedence, s: &Term, t: &Term) -> bool
    requires first { size_of (tree_of s.now) ≤ MOST_WEIGHED_SYMBOLS }
    requires second { size_of (tree_of t.now) ≤ MOST_WEIGHED_SYMBOLS }
    ensures { result ≡ kbo_greater (stands_above precedence.now.rows.items)
        (weight_at precedence.now.rows.items) (tree_of s.now) (tree_of t.now) }
{
    match (s, t) {
        (Term::Var(_), _) => false,
        (Term::Elem(_), _) => false,
        (Term::App(_, _), Term::Var(y)) => has_variable(s, *y),
        (Term::App(_, _), Term::Elem(_)) => true,
        (Term::App(f, ss), Term::App(g, ts)) => {
            let ss = ss.as_slice();
            let ts = ts.as_slice();
            if !none_oftener_among(ss, ts, ts) {
                return false;
            }
            let left = weigh(precedence, s);
            let right = weigh(precedence, t);
            right < left
                || (left == right
                    && (precedence.is_above(*f, *g)
                        || (f.0 == g.0 && first_outweighs(precedence, ss, ts))))
        }
    }
}

// Whether the first of two lists has the greater one of the first terms that differ.
#[cycle(outweighs)]
#[tactic(auto, using(crate::proofs::Weights::first_ends, crate::proofs::Weights::second_ends, crate::proofs::Weights::first_same, crate::proofs::Weights::first_other))]
fn first_outweighs(precedence: &Precedence, ss: &[Term], ts: &[Term]) -> bool
    requires first { sizes_of (trees_of (tree_list ss.now)) ≤ MOST_WEIGHED_SYMBOLS }
    requires second { sizes_of (trees_of (tree_list ts.now)) ≤ MOST_WEIGHED_SYMBOLS }
    ensures { result ≡ kbo_first (stands_above precedence.now.rows.items)
        (weight_at precedence.now.rows.items) (trees_of (tree_list ss.now))
        (trees_of (tree_list ts.now)) }
{
    let Some((s, us)) = ss.split_first() else {
        return false;
    };
    let Some((t, vs)) = ts.split_first() else {
        return false;
    };
    if same(s, t) {
        first_outweighs(precedence, us, vs)
    } else {
        outweighs(precedence, s, t)
    }
}
