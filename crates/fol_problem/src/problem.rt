// The problem that a file states.
ghost use Rattle.std.specs.Prelude.{◌≡◌, []};
ghost use Rattle.ladr_options.specs.Options.{start};

use fol_core::{Formula, KboWeights, NameOrder, RawSub, Symbols, WeightRule};
use ladr_options::Options;
use std::alloc::Global;

/// What a formula of a problem is: all but goals are taken to be true.
#[derive(Clone, Copy)]
pub enum Role {
    Assumption,
    Usable,
    Demodulator,
    Goal,
}

/// A formula of a problem; `byte` is the place of its first byte in the file. A goal may ask for variables of the
/// quantifiers in front of it: `answer` has their places among these.
#[derive(Drop)]
pub struct Input {
    pub role: Role,
    pub formula: Formula,
    pub label: Option<RawSub>,
    pub answer: Vec<u64>,
    pub byte: u64,
}

/// A formula that clauses are compared with, and the weight that it gives them. It is not part of what the problem states.
#[derive(Drop)]
pub struct Hint {
    pub formula: Formula,
    pub label: Option<RawSub>,
    pub weight: Option<u32>,
    pub byte: u64,
}

/// The symbols of a file and its formulas, in their order; then what guides a search: hints, rules of weights, the names of
/// `function_order`, and the options.
#[derive(Drop)]
pub struct Problem {
    pub symbols: Symbols,
    pub inputs: Vec<Input>,
    pub hints: Vec<Hint>,
    pub weights: Vec<WeightRule>,
    pub kbo_weights: KboWeights,
    pub function_order: NameOrder,
    pub options: Options,
}

impl Problem {
    /// A problem of these formulas alone, with the options as they are at the start.
    pub fn new(alloc: Global, symbols: Symbols, inputs: Vec<Input>) -> Problem
        ensures symbols { result.symbols ≡ symbols }
        ensures inputs { result.inputs.items ≡ inputs.items }
        ensures hints { result.hints.items ≡ [] }
        ensures weights { result.weights.items ≡ [] }
        ensures kbo_weights { result.kbo_weights ≡ [] }
        ensures function_order { result.function_order ≡ [] }
        ensures options { result.options ≡ start }
    {
        Problem {
            symbols,
            inputs,
            hints: Vec::new(alloc),
            weights: Vec::new(alloc),
            kbo_weights: KboWeights::new(alloc),
            function_order: NameOrder::new(alloc),
            options: Options::start(),
        }
    }
}
