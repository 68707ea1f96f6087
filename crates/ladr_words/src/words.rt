// The task of a list of words.
ghost use Rattle.std.specs.Prelude.{◌≡◌, ◌≢◌, [], map, Some, None, Err, IfOk, IfSome, option_and_then, option_map};
ghost use Rattle.std.specs.String.{string_bytes};
ghost use Rattle.clap.specs.Words.{rows_of, found_of, kind_of, fault_of, subcommand_of};
ghost use Rattle.clap.specs.Simple.{subcommand_rows_of};
ghost use Rattle.clap.specs.declared.error.kind.ErrorKind.TheVariants.{OutOfMemory};
ghost use Rattle.ladr_words.specs.Commands.{ladr_app};
ghost use Rattle.ladr_words.specs.Tasks.{task_of, task_named, flag_given, number_given, number_within, within, model_options, prover_seconds, made_size, IsFrom, HasRanges};

use crate::commands::ladr;
use crate::task::{ModelOptions, Task, WordsError};
use clap::error::ErrorKind;
use clap::{ArgMatches, Error};
use std::alloc::Global;

/// The task that the words are, which come without the program's name.
#[tactic(auto, unfolding(crate::specs::Tasks::task_of))]
pub fn task_of(alloc: Global, words: &[String]) -> Result<Task, WordsError>
    ensures task { IfOk result (λ task. task_of (map string_bytes words.now) ≡ Some task) }
    ensures no_command { result ≡ Err WordsError.NoCommand
        → task_of (map string_bytes words.now) ≡ None }
    ensures ranges { IfOk result HasRanges }
{
    let matches = parsed(alloc, words)?;
    match task_in(&matches) {
        Some(task) => Ok(task),
        None => Err(WordsError::NoCommand),
    }
}

// What clap finds in the words.
fn parsed<'a>(alloc: Global, words: &'a [String]) -> Result<ArgMatches<'a>, WordsError>
    ensures found { IfOk result (λ matches. subcommand_rows_of matches
        ≡ subcommand_of ladr_app (map string_bytes words.now)) }
    ensures taken { IfOk result (λ matches. fault_of ladr_app (map string_bytes words.now) ≡ []) }
    ensures refused { result ≡ Err WordsError.NoCommand
        → fault_of ladr_app (map string_bytes words.now) ≢ [] }
{
    match ladr(alloc)?.try_get_matches_from(words) {
        Ok(matches) => Ok(matches),
        Err(error) => Err(cause(&error)),
    }
}

// An error that isn't want of memory is that the words are no command.
fn cause(error: &Error) -> WordsError
    ensures { result ≡ WordsError.NoCommand → kind_of error.now ≢ OutOfMemory }
{
    match error.kind() {
        ErrorKind::OutOfMemory => WordsError::Memory,
        _ => WordsError::NoCommand,
    }
}

// The task of what clap found.
fn task_in(matches: &ArgMatches) -> Option<Task>
    ensures task { result ≡ option_and_then (λ found. task_named found.0 found.1)
        (subcommand_rows_of matches.now) }
    ensures ranges { IfSome result HasRanges }
{
    let (name, found) = matches.subcommand()?;
    task_named(name, found)
}

// The task of a command's name and arguments.
fn task_named(name: &str, matches: &ArgMatches) -> Option<Task>
    ensures task { result ≡ task_named name.now (rows_of (found_of matches.now)) }
    ensures ranges { IfSome result HasRanges }
{
    match name {
        "check" => Some(Task::Check),
        "clausetester" => Some(Task::Clausetester {
            filter: flag_given(matches, "filter"),
        }),
        "mace4" => Some(Task::Mace4 {
            options: model_options(matches),
        }),
        "made" => made(matches),
        "prover9" => Some(Task::Prover9 {
            max_seconds: prover_seconds(matches),
        }),
        _ => None,
    }
}

// Whether a flag is given.
fn flag_given(matches: &ArgMatches, name: &str) -> bool
    ensures { result ≡ flag_given name.now (rows_of (found_of matches.now)) }
{
    matches.get_one(name).unwrap_or(false)
}

// The options of a search for models.
fn model_options(matches: &ArgMatches) -> ModelOptions
    ensures options { result ≡ model_options (rows_of (found_of matches.now)) }
    ensures ranges { HasRanges (Task.Mace4 result) }
{
    ModelOptions {
        start_size: number_within(matches, "start_size", 1, 200),
        end_size: number_within(matches, "end_size", 1, 200),
        max_models: number_within(matches, "max_models", 1, 2_147_483_647),
        max_seconds: number_within(matches, "max_seconds", 0, 2_147_483_647),
    }
}

// A generated problem of the size that is given.
fn made(matches: &ArgMatches) -> Option<Task>
    ensures task { result ≡ option_map Task.Made (made_size (rows_of (found_of matches.now))) }
    ensures ranges { IfSome result HasRanges }
{
    let size = number_within(matches, "size", 1, 1_000)?;
    Some(Task::Made { size })
}

// The seconds of a search for proofs.
fn prover_seconds(matches: &ArgMatches) -> Option<u64>
    ensures seconds { result ≡ prover_seconds (rows_of (found_of matches.now)) }
    ensures ranges { HasRanges (Task.Prover9 result) }
{
    number_within(matches, "max_seconds", 0, 2_147_483_647)
}

// The number of an option, where it is given.
fn number_within(matches: &ArgMatches, name: &str, least: u64, most: u64) -> Option<u64>
    ensures number { result ≡ number_within name.now least most (rows_of (found_of matches.now)) }
    ensures range { IsFrom least most result }
{
    within(number_given(matches, name)?, least, most)
}

fn within(number: u64, least: u64, most: u64) -> Option<u64>
    ensures { result ≡ within least most number }
{
    if least <= number && number <= most {
        Some(number)
    } else {
        None
    }
}

fn number_given(matches: &ArgMatches, name: &str) -> Option<u64>
    ensures { result ≡ number_given name.now (rows_of (found_of matches.now)) }
{
    matches.get_one(name)
}
