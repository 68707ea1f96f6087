// One pair of terms that have to be the same.
ghost use Rattle.fol_core.specs.Tree.{var};
ghost use Rattle.unify.specs.Joins.{MayBind, MayBindOther, CanJoinVariable, CanLink, CanJoin};
ghost use Rattle.unify.specs.Spots.{spot_tree};
ghost use Rattle.unify.specs.Steps.{WorksAt, WorkGoesOn, Joins, VariableStays, TermsStay, as_high, walked, linked};
ghost use Rattle.std.specs.Prelude.{◌≡◌, true};

use crate::looking::{same, shows, variable_of};
use crate::reaching::reach;
use crate::spot::{Bound, Link, Spot, Workspace};
use crate::walking::{follow, walk};
use term_bank::Bank;

// Binds a variable, unless the term has it.
fn bind(bank: &Bank, work: &mut Workspace, variable: u64, to: Spot) -> bool
    requires { MayBind bank.now work.old variable to }
    ensures goes { WorkGoesOn work.old work.new }
    ensures joins { Joins bank.now work.old work.new as_high (var variable) (spot_tree bank.now to)
        result }
    ensures stays { VariableStays bank.now work.old work.new variable to result }
{
    reach(bank, &work.bound, &mut work.reached, to);
    if shows(bank, &work.reached, variable) {
        return false;
    }
    work.bound.push_reserved(Bound { variable, to });
    true
}

// Binds a variable, unless it is one of those that are kept.
fn bind_free(bank: &Bank, work: &mut Workspace, variable: u64, to: Spot) -> bool
    requires { MayBindOther bank.now work.old variable to }
    ensures goes { WorkGoesOn work.old work.new }
    ensures joins { Joins bank.now work.old work.new as_high (var variable) (spot_tree bank.now to)
        result }
    ensures stays { VariableStays bank.now work.old work.new variable to result }
{
    if shows(bank, &work.kept, variable) {
        return false;
    }
    bind(bank, work, variable, to)
}

// A variable and a term: of two variables one that isn't kept is bound.
fn join_variable(bank: &Bank, work: &mut Workspace, variable: u64, spot: Spot, to: Spot) -> bool
    requires { CanJoinVariable bank.now work.old variable spot to }
    ensures goes { WorkGoesOn work.old work.new }
    ensures joins { Joins bank.now work.old work.new as_high (spot_tree bank.now spot)
        (spot_tree bank.now to) result }
    ensures stays { TermsStay bank.now work.old work.new spot to result }
{
    match variable_of(bank, to) {
        Some(other) => {
            if other == variable {
                return true;
            }
            if shows(bank, &work.kept, variable) {
                return bind_free(bank, work, other, spot);
            }
            bind(bank, work, variable, to)
        }
        None => bind_free(bank, work, variable, to),
    }
}

// Two nodes that are no variables: what their arguments are is looked at later.
fn link(bank: &Bank, work: &mut Workspace, from: Spot, to: Spot)
    requires { CanLink bank.now work.old from to }
    ensures goes { WorkGoesOn work.old work.new }
    ensures joins { Joins bank.now work.old work.new as_high (spot_tree bank.now from)
        (spot_tree bank.now to) true }
    ensures stays { TermsStay bank.now work.old work.new from to true }
{
    if !same(from, to) {
        work.links.push_reserved(Link { from, to });
    }
    let _ = bank;
}

// Two that nothing is bound or linked to.
fn join(bank: &Bank, work: &mut Workspace, p: Spot, q: Spot) -> bool
    requires { CanJoin bank.now work.old p q }
    ensures goes { WorkGoesOn work.old work.new }
    ensures joins { Joins bank.now work.old work.new as_high (spot_tree bank.now p)
        (spot_tree bank.now q) result }
    ensures stays { TermsStay bank.now work.old work.new p q result }
{
    match variable_of(bank, p) {
        Some(x) => join_variable(bank, work, x, p, q),
        None => match variable_of(bank, q) {
            Some(y) => bind_free(bank, work, y, p),
            None => {
                link(bank, work, p, q);
                true
            }
        },
    }
}

// The one that stands for the class of a term.
fn stand(bank: &Bank, work: &Workspace, spot: Spot) -> Spot
    requires { WorksAt bank.now work.now spot spot }
    ensures { result ≡ linked work.now.links.items (walked bank.now work.now.bound.items spot) }
{
    follow(&work.links, walk(bank, &work.bound, spot))
}

/// Two terms.
pub fn merge(bank: &Bank, work: &mut Workspace, s: Spot, t: Spot) -> bool
    requires { WorksAt bank.now work.old s t }
    ensures goes { WorkGoesOn work.old work.new }
    ensures joins { Joins bank.now work.old work.new as_high (spot_tree bank.now s)
        (spot_tree bank.now t) result }
    ensures stays { TermsStay bank.now work.old work.new s t result }
{
    let p = stand(bank, work, s);
    let q = stand(bank, work, t);
    join(bank, work, p, q)
}
