// The nodes that a term leads to.
ghost use Rattle.std.specs.Prelude.{◌≡◌, vec_capacity};
ghost use Rattle.unify.specs.Reaches.{CanAdd, CanSpread, CanExpand, Adds, Spreads, Expands};
ghost use Rattle.unify.specs.Steps.{CanReach, IsReach};

use crate::looking::is_among;
use crate::spot::{Bound, Spot};
use crate::walking::walk;
use term_bank::{Bank, Node, TermId};

// One node more, unless it was reached before.
fn add(bank: &Bank, bound: &Vec<Bound>, reached: &mut Vec<Spot>, spot: Spot)
    requires { CanAdd bank.now bound.now.items reached.old.items (vec_capacity reached.old) spot }
    ensures adds { Adds bank.now bound.now.items reached.old.items reached.new.items
        (vec_capacity reached.new) spot }
    ensures room { vec_capacity reached.new ≡ vec_capacity reached.old }
{
    let next = walk(bank, bound, spot);
    if !is_among(reached, next) {
        reached.push_reserved(next);
    }
}

// The arguments of a node that was reached.
fn spread(
    bank: &Bank,
    bound: &Vec<Bound>,
    reached: &mut Vec<Spot>,
    arguments: &[TermId],
    context: u64,
)
    requires { CanSpread bank.now bound.now.items reached.old.items (vec_capacity reached.old)
        arguments.now context }
    ensures spreads { Spreads bank.now bound.now.items reached.old.items reached.new.items
        (vec_capacity reached.new) arguments.now context }
    ensures room { vec_capacity reached.new ≡ vec_capacity reached.old }
{
    for argument in arguments {
        add(
            bank,
            bound,
            reached,
            Spot {
                term: *argument,
                context,
            },
        );
    }
}

// A node that was reached.
fn expand(bank: &Bank, bound: &Vec<Bound>, reached: &mut Vec<Spot>, spot: Spot)
    requires { CanExpand bank.now bound.now.items reached.old.items (vec_capacity reached.old)
        spot }
    ensures expands { Expands bank.now bound.now.items reached.old.items reached.new.items
        (vec_capacity reached.new) spot }
    ensures room { vec_capacity reached.new ≡ vec_capacity reached.old }
{
    match bank.node(spot.term) {
        Node::Var(_) => {}
        Node::Elem(_) => {}
        Node::App(_, arguments) => spread(bank, bound, reached, arguments, spot.context),
    }
}

/// All that a term leads to, each once.
pub fn reach(bank: &Bank, bound: &Vec<Bound>, reached: &mut Vec<Spot>, spot: Spot)
    requires { CanReach bank.now bound.now.items spot (vec_capacity reached.old) }
    ensures reach { IsReach bank.now bound.now.items spot reached.new.items }
    ensures room { vec_capacity reached.new ≡ vec_capacity reached.old }
{
    reached.clear();
    reached.push_reserved(spot);
    let mut done = 0;
    while done < reached.len() {
        let next = reached[done];
        expand(bank, bound, reached, next);
        done += 1;
    }
}
