// What the commands of a file set: options, operators, orders, the list and the block that are open, the
// interpretations.
// `settings.rt` has the settings and takes one command after the other: options, operators, the order of functions, the
// list that is open, the block of `if` and the interpretations. A command that isn't meant for the program adds nothing.
// `lists.rt` has the lists, `symbols.rt` the order that names are and operators that are declared together.
// `specs/Settings` says what each command makes of the settings, or which row of misuse it breaks, the least of
// several; `laws.rt` has a command for each row.
#![tactic(auto)]

mod laws;
mod lists;
mod settings;
mod symbols;

pub use laws::{options_stay_in_range, worked};
pub use lists::{FormulaList, OpenList};
pub use settings::{Settings, SettingsError};
