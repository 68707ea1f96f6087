// Terms compared by the path order as they stand: the heads decide, and the first arguments that differ. Whether two terms are
// the same comes out of it, so that each pair of their parts is looked at once at most.
ghost use Rattle.std.specs.Prelude.{◌≡◌, ◌==◌, length};
ghost use Rattle.fol_core.specs.TermView.{tree_of, tree_list};
ghost use Rattle.fol_core.specs.Tree.{trees_of};
ghost use Rattle.held_clauses.specs.Fronts.{ArePastCommon, AreLastArguments};
ghost use Rattle.held_clauses.specs.Ranks.{IsFirst, IsRanked, above_if, same_if};
ghost use Rattle.term_order.specs.Compared.{is_greater_than_each};
ghost use Rattle.term_order.specs.Lpo.{lpo_greater, some_at_least};
ghost use Rattle.term_order.specs.Precedences.{stands_above};

use fol_core::Term;
use substitutions::has_variable;
use term_order::Precedence;

/// How a first term stands to a second one: greater, or the same, or neither.
#[derive(Clone, Copy)]
pub enum Rank {
    Above,
    Same,
    Other,
}

// Of terms that aren't the same.
fn above_if(above: bool) -> Rank
    ensures { result ≡ above_if above }
{
    if above { Rank::Above } else { Rank::Other }
}

// Of terms of which the first isn't greater.
fn same_if(same: bool) -> Rank
    ensures { result ≡ same_if same }
{
    if same { Rank::Same } else { Rank::Other }
}

// How the first of two terms stands to the second.
#[cycle(ranked)]
#[tactic(auto, using(crate::proofs::Ranking::variables, crate::proofs::Ranking::elements, crate::proofs::Ranking::over_variable, crate::proofs::Ranking::over_element, crate::proofs::Ranking::over_heads, crate::proofs::Ranking::under_heads))]
fn ranked(precedence: &Precedence, s: &Term, t: &Term) -> Rank
    ensures { IsRanked (stands_above precedence.now.rows.items) (tree_of s.now) (tree_of t.now)
        result }
{
    match (s, t) {
        (Term::Var(x), Term::Var(y)) => same_if(x == y),
        (Term::Var(_), Term::Elem(_)) => Rank::Other,
        (Term::Var(_), Term::App(_, _)) => Rank::Other,
        (Term::Elem(_), Term::Var(_)) => Rank::Other,
        (Term::Elem(k), Term::Elem(n)) => same_if(k == n),
        (Term::Elem(_), Term::App(_, _)) => Rank::Other,
        (Term::App(_, _), Term::Var(y)) => above_if(has_variable(s, *y)),
        (Term::App(_, ss), Term::Elem(_)) => {
            above_if(some_at_least(precedence, ss.as_slice(), t))
        }
        (Term::App(f, ss), Term::App(g, ts)) => {
            if f.0 == g.0 {
                let (greater, us, vs) = past_common(precedence, ss.as_slice(), ts.as_slice());
                ranked_behind(precedence, s, us, t, vs, greater)
            } else if precedence.is_above(*f, *g) {
                above_if(is_above_each(precedence, s, ts.as_slice()))
            } else {
                above_if(some_at_least(precedence, ss.as_slice(), t))
            }
        }
    }
}

// What is left of two lists behind the terms that they have in common at the front, and whether the first one left of the first
// list is greater than that of the second.
#[cycle(ranked)]
#[tactic(auto, using(crate::proofs::PathSteps::past_first, crate::proofs::PathSteps::past_second, crate::proofs::PathSteps::past_same, crate::proofs::PathSteps::past_other, crate::proofs::Ranking::not_first, crate::proofs::Ranking::not_second, crate::proofs::Ranking::first_is))]
fn past_common<'a>(
    precedence: &Precedence,
    ss: &'a [Term],
    ts: &'a [Term],
) -> (bool, &'a [Term], &'a [Term])
    ensures past { ArePastCommon (tree_list ss.now) (tree_list ts.now) (tree_list result.1.now)
        (tree_list result.2.now) }
    ensures first { IsFirst (stands_above precedence.now.rows.items) (tree_list result.1.now)
        (tree_list result.2.now) result.0 }
{
    let Some((s, us)) = ss.split_first() else {
        return (false, ss, ts);
    };
    let Some((t, vs)) = ts.split_first() else {
        return (false, ss, ts);
    };
    match ranked(precedence, s, t) {
        Rank::Same => past_common(precedence, us, vs),
        Rank::Above => (true, ss, ts),
        Rank::Other => (false, ss, ts),
    }
}

// Whether some term is greater or the same.
#[cycle(ranked)]
#[tactic(auto, using(crate::proofs::PathSteps::least_none, crate::proofs::PathSteps::least_same, crate::proofs::PathSteps::least_greater, crate::proofs::PathSteps::least_behind))]
fn some_at_least(precedence: &Precedence, ss: &[Term], t: &Term) -> bool
    ensures { result ≡ some_at_least (stands_above precedence.now.rows.items)
        (trees_of (tree_list ss.now)) (tree_of t.now) }
{
    let Some((s, rest)) = ss.split_first() else {
        return false;
    };
    match ranked(precedence, s, t) {
        Rank::Above => true,
        Rank::Same => true,
        Rank::Other => some_at_least(precedence, rest, t),
    }
}

// Whether the term is greater than each of some terms.
#[cycle(ranked)]
#[tactic(auto, using(crate::proofs::PathSteps::each_none, crate::proofs::PathSteps::each_same, crate::proofs::PathSteps::each_here, crate::proofs::PathSteps::each_behind))]
fn is_above_each(precedence: &Precedence, s: &Term, ts: &[Term]) -> bool
    ensures { result ≡ is_greater_than_each (lpo_greater (stands_above precedence.now.rows.items))
        (tree_of s.now) (tree_list ts.now) }
{
    let Some((t, rest)) = ts.split_first() else {
        return true;
    };
    match ranked(precedence, s, t) {
        Rank::Above => is_above_each(precedence, s, rest),
        Rank::Same => false,
        Rank::Other => false,
    }
}

// How the first of two terms with one head stands to the second, by what is left of their arguments.
#[cycle(ranked)]
#[tactic(auto, using(crate::proofs::Ranking::no_more, crate::proofs::Ranking::behind_short, crate::proofs::Ranking::behind_greater, crate::proofs::Ranking::behind_other))]
fn ranked_behind(
    precedence: &Precedence,
    s: &Term,
    us: &[Term],
    t: &Term,
    vs: &[Term],
    greater: bool,
) -> Rank
    requires last { AreLastArguments (tree_of s.now) (tree_list us.now) (tree_of t.now)
        (tree_list vs.now) }
    requires first { IsFirst (stands_above precedence.now.rows.items) (tree_list us.now)
        (tree_list vs.now) greater }
    ensures { IsRanked (stands_above precedence.now.rows.items) (tree_of s.now) (tree_of t.now)
        result }
{
    let Some((_first, left)) = us.split_first() else {
        return same_if(vs.is_empty());
    };
    let Some((_other, right)) = vs.split_first() else {
        return above_if(some_at_least(precedence, us, t));
    };
    if greater {
        above_if(is_above_each(precedence, s, right))
    } else {
        above_if(some_at_least(precedence, left, t))
    }
}

/// Whether the first term is greater by the path order.
#[tactic(auto, using(crate::proofs::Ranking::greater_same))]
pub fn is_path_greater(precedence: &Precedence, s: &Term, t: &Term) -> bool
    ensures { result ≡ lpo_greater (stands_above precedence.now.rows.items) (tree_of s.now)
        (tree_of t.now) }
{
    match ranked(precedence, s, t) {
        Rank::Above => true,
        Rank::Same => false,
        Rank::Other => false,
    }
}
