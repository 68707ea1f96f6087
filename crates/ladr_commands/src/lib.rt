// The commands that stand outside lists, interpretations among them: their grammar, and which token is the first bad
// one.
// `command.rt` has the commands; `read.rt` reads one from the tokens of an item, with the tokens that `cursor.rt` hands
// out; `interpretation.rt` reads what stands behind the word of an interpretation, `by_name.rt` has interpretations by
// the names of their symbols.
// `specs/Form` says what a form of items is: at each place a class of tokens (`wanted.rt`), and then what the token
// decides; `specs/Commands` is the form of all commands. `specs/Spelled`, with `SpelledParts`, says without forms which
// tokens spell which command, each in a line, as `set`, `(`, a name, `)`, `.`; that the forms go through just these
// tokens is a law of `laws.rt` (`proofs/Spelling` one way, `Reading` the other), and what is read is what the tokens
// spell.
// Which token is the first bad one follows from the form alone, for each form there is (`proofs/Forms`). `laws.rt` has
// commands worked out.
#![tactic(auto)]

mod by_name;
mod command;
mod cursor;
mod fault;
mod interpretation;
mod laws;
mod read;
mod wanted;
mod word;

pub use by_name::{ByName, TableEntry};
pub use command::{Command, Value};
pub use fault::CommandFault;
pub use laws::{commands_are_spelled, one_command, worked, worked_spellings};
pub use read::{read_command, read_interpretation};
