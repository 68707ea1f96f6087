// The problem that a file states, as data.
// `problem.rt` has all that a file tells a program: its formulas with their roles and places, hints, rules of weights,
// the weights of names for KBO, the order of functions, and the options. Hints, weights, order and options guide a
// search and are no part of what the problem states: `specs/Stated` says what it states, each formula in its role, and
// when an interpretation is a countermodel of it; `specs/StatedCodes` has how the logic stores it. `specs/Asks` says what
// a goal may ask for.
#![tactic(auto)]

mod problem;

pub use problem::{Hint, Input, Problem, Role};
