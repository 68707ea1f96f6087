// What stands in lists beside commands: formulas with attributes, hints, demodulators, and rules of weights.
// `attributes.rt` takes a formula with attributes apart: `LabelledFormula` has the formula, and in its `Notes` its
// first label, whether an attribute breaks row 12, and a hint's weight. `shapes.rt` tells which formulas hints and
// demodulators may be. `asking.rt` tells what a goal asks for by an attribute `answer(w1,..,wj)` (`specs/Asked`), by the first that it
// can be asked, or on a line of a proof by the first whatever it is. `rules.rt` reads a rule of weights, `weight(pattern) = value`: `sides.rt` finds its sides,
// `patterns.rt` says what its pattern may be, `values.rt` what the value is; `kbo.rt` reads `name = number`;
// `bounds.rt` has the greatest weights by name.
// The definitions are in `specs/Attributes`, `Shapes` and `Rules`; `laws.rt` has attributes, hints, demodulators and
// rules worked out.
#![tactic(auto)]

mod asking;
mod attributes;
mod bounds;
mod kbo;
mod laws;
mod patterns;
mod rules;
mod shapes;
mod sides;
mod values;

pub use asking::{asked, line_asks};
pub use attributes::{LabelledFormula, Notes, Split};
pub use kbo::kbo_rule;
pub use laws::{worked, worked_asked, worked_line_asks, worked_rules};
pub use rules::{RuleRead, weight_rule};
pub use shapes::{is_demodulator, is_hint};
