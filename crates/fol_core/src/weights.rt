// Rules of weights: what a pattern weighs, and the weights of symbols for an order of terms.
ghost use Rattle.std.specs.Prelude.{◌≡◌, [], not, map, IfOk, OnOk, OnErr};
ghost use Rattle.fol_core.specs.KboRows.{is_weighed, with_weight, weight_in};
ghost use Rattle.fol_core.specs.WeightView.{weight_of};

use crate::name::Name;
use crate::name_order::NameOrder;
use crate::term::Terms;
use std::alloc::{AllocError, Global};
use std::marker::Model;

/// What a pattern weighs: a number, what a variable of it weighs, by the variable's number, a sum or a product.
#[cycle(weight)]
#[derive(Drop)]
pub enum Weight {
    Number(u32),
    Variable(u64),
    Sum(WeightSub, WeightSub),
    Product(WeightSub, WeightSub),
}

/// A part of a weight; contracts see its tree.
#[cycle(weight)]
#[derive(Drop)]
pub struct WeightSub {
    pub weight: Box<Weight>,
}

impl Model for WeightSub {
    ghost use Rattle.fol_core.specs.Weights.{WeightTree};
    ghost use Rattle.fol_core.specs.WeightCodes.{coded_weight};

    ghost Value = { WeightTree };

    ghost coded = { coded_weight };

    ghost use Rattle.fol_core.specs.WeightView.{weight_of};

    ghost view = { λ a. weight_of a.weight.value };

    ghost use Rattle.fol_core.specs.Weights.{weight_nodes};

    ghost size = { weight_nodes };

    ghost use Rattle.fol_core.specs.WeightFalls.{weight_falls};

    ghost size_decreases = { λ a h. weight_falls a.weight.value };
}

impl WeightSub {
    /// The weight as a part of another.
    pub fn new(alloc: Global, weight: Weight) -> Result<WeightSub, AllocError>
        ensures { IfOk result (λ sub. sub ≡ weight_of weight) }
    {
        let weight = Box::new(alloc, weight)?;
        Ok(WeightSub { weight })
    }

    /// The weight.
    pub fn weight(&self) -> &Weight
        ensures { weight_of result.now ≡ self.now }
    {
        &self.weight
    }
}

/// `weight(pattern) = value`: the head of the pattern, its arguments, whose variables are numbered by first occurrence, and
/// what it weighs.
#[derive(Drop)]
pub struct WeightRule {
    pub head: Name,
    pub arguments: Terms,
    pub weight: Weight,
}

/// `name = number`: what symbols of this name weigh in the order of Knuth and Bendix.
#[derive(Drop)]
pub struct KboWeight {
    pub name: Name,
    pub weight: u32,
}

/// The weights of names, each name once, in their order; contracts see the list of the names with their weights.
#[derive(Drop)]
pub struct KboWeights {
    names: NameOrder,
    // By place of the name.
    weights: Vec<u32>,
}

impl Model for KboWeights {
    ghost use Rattle.std.specs.Prelude.{ℕ, List, zip};

    ghost Value = { List (List ℕ × ℕ) };

    ghost view = { λ a. zip a.names a.weights.items };

    ghost use Rattle.std.specs.Prelude.{◌≡◌, length};

    ghost invariant = { λ a. length a.names ≡ length a.weights.items };
}

impl KboWeights {
    /// No weights.
    pub fn new(alloc: Global) -> KboWeights
        ensures { result ≡ [] }
    {
        KboWeights {
            names: NameOrder::new(alloc),
            weights: Vec::new(alloc),
        }
    }

    /// What the name weighs, if it has a weight.
    #[tactic(auto, using(crate::proofs::KboLemmas::place_within))]
    pub fn weight(&self, name: &[u8]) -> Option<u32>
        ensures { result ≡ weight_in name.now self.now }
    {
        match self.names.position(name) {
            Some(place) => Some(self.weights[place]),
            None => None,
        }
    }

    /// Puts the weight of a name behind the others, unless the name has one; whether it had none.
    pub fn push(&mut self, name: &[u8], weight: u32) -> Result<bool, AllocError>
        ensures is_new { IfOk result (λ is_new. is_new ≡ not (is_weighed name.now self.old)) }
        ensures ok { OnOk result (self.new ≡ with_weight name.now weight self.old) }
        ensures err { OnErr result (self.new ≡ self.old) }
    {
        self.weights.reserve(1)?;
        if !self.names.push(name)? {
            return Ok(false);
        }
        self.weights.push_reserved(weight);
        Ok(true)
    }
}
