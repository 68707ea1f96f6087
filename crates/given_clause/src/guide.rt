// What guides a search.
ghost use Rattle.std.specs.Prelude.{◌≡◌, ◌≤◌, false, IfOk};
ghost use Rattle.given_clause.specs.Guides.{setting_of};
ghost use Rattle.prover_steps.specs.Searching.{clause_size, is_too_large};

use clause_limits::clause_size;
use conclusions::RulesInForce;
use fol_core::Clause;
use ladr_options::Options;
use std::alloc::{AllocError, Global};
use term_order::Precedence;
use weights::{Room, Rules};

/// The rules in force, the order of terms, the rules of weights with the hints, and the options.
#[derive(Drop)]
pub struct Guide<'a> {
    pub rules: RulesInForce,
    pub precedence: Precedence,
    pub weights: Rules<'a>,
    // Whether a clause is weighed before it is sought what subsumes it: that is told sooner where there are neither rules of
    // weights nor hints.
    pub weighs_first: bool,
    pub options: Options,
}

/// Room for a clause to be weighed and compared with hints.
pub fn room_for<'a>(alloc: Global, clause: &Clause) -> Result<Room<'a>, AllocError>
    requires { is_too_large clause.now ≡ false }
    ensures { IfOk result (λ room. clause_size clause.now ≤ room) }
{
    let mut room = Room::new(alloc);
    room.reserve(clause_size(clause))?;
    Ok(room)
}

impl Guide<'_> {
    /// What a clause weighs.
    pub fn weight_of<'b>(&'b self, room: &mut Room<'b>, clause: &'b Clause) -> u64
        requires { clause_size clause.now ≤ room.old }
        ensures weight { result ≡ (setting_of self.now).weight clause.now }
        ensures room { room.new ≡ room.old }
    {
        self.weights.weight_of(room, clause)
    }

    /// Whether a clause matches a hint.
    pub fn is_hinted<'b>(&'b self, room: &mut Room<'b>, clause: &Clause) -> bool
        requires { clause_size clause.now ≤ room.old }
        ensures hinted { result ≡ (setting_of self.now).is_hinted clause.now }
        ensures room { room.new ≡ room.old }
    {
        self.weights.is_hinted(room, clause)
    }
}
