// The options of an input, and what changes them.
// `options.rt` has the options that have an effect, and the calls that change them; `names.rt` the names of flags and
// parameters, also of those that are read without effect. `specs/Options` is the whole table: names, values at the
// start, values that are allowed (`specs/Ranges`). `laws.rt` has options worked out.
// The contracts say which options `set`, `clear` and `assign` leave, or that there is no such option or value.
#![tactic(auto)]

mod laws;
mod names;
mod options;

pub use laws::{options_stay_in_range, worked};
pub use options::{NO_LIMIT, OptionError, Options, Order};
