// Command lines, read by `clap`.
// `commands.rt` builds the program's command for `clap`, with a subcommand for each command, `words.rt` reads the task
// from what `clap` finds, and `task.rt` has the tasks. `laws.rt` has command lines worked out. The contracts say the
// task of a list of words, or that there is none.
// A new command takes its `.._app` and a line of `ladr_app` in `specs/Commands`, a case in `specs/Tasks`, the same in
// `commands.rt` and `words.rt`, and a variant of `Task`.
#![tactic(auto)]

mod commands;
mod laws;
mod task;
mod words;

pub use laws::{start_size_is_read, worked};
pub use task::{ModelOptions, Task, WordsError};
pub use words::task_of;
