// The program's command for clap: a subcommand for each command that the program has.
ghost use Rattle.std.specs.Prelude.{◌≡◌, IfOk, false};
ghost use Rattle.clap.specs.Words.{rule_of, app_of, shape_of};
ghost use Rattle.clap.specs.declared.builder.command.Command.TheViews.{out-Command};
ghost use Rattle.ladr_words.specs.Commands.{number_option, needed_number, flag, bare_app, check_app, clausetester_app, mace4_app, made_app, prover9_app, ladr_app, taking, having};

use clap::builder::ValueParser;
use clap::{Arg, ArgAction, Command};
use std::alloc::{AllocError, Global};

// An option of a letter, with a number from `least` to `most`.
#[tactic(auto, unfolding(crate::specs::Commands::number_option))]
fn number_option<'a>(alloc: Global, name: &'a str, letter: char, least: u64, most: u64) -> Arg<'a>
    ensures rule { rule_of result ≡ number_option name.entry.now letter least most }
    ensures local { result.global ≡ false }
{
    Arg::new(alloc, name)
        .short(letter)
        .action(ArgAction::Set)
        .value_parser(ValueParser::unsigned(least, most))
}

// An argument that has to be given, by its place alone: a number from `least` to `most`.
#[tactic(auto, unfolding(crate::specs::Commands::needed_number))]
fn needed_number<'a>(alloc: Global, name: &'a str, least: u64, most: u64) -> Arg<'a>
    ensures rule { rule_of result ≡ needed_number name.entry.now least most }
    ensures local { result.global ≡ false }
{
    Arg::new(alloc, name)
        .required(true)
        .action(ArgAction::Set)
        .value_parser(ValueParser::unsigned(least, most))
}

// A flag: a word of two dashes and its name.
#[tactic(auto, unfolding(crate::specs::Commands::flag))]
fn flag<'a>(alloc: Global, name: &'a str) -> Arg<'a>
    ensures rule { rule_of result ≡ flag name.entry.now }
    ensures local { result.global ≡ false }
{
    Arg::new(alloc, name).long(name).action(ArgAction::SetTrue)
}

// The command with one more argument.
#[tactic(auto, unfolding(crate::specs::Commands::taking))]
fn taking<'a>(command: Command<'a>, arg: Arg<'a>) -> Result<Command<'a>, AllocError>
    requires local { (out-Command command).has_globals ≡ false }
    requires local_arg { arg.global ≡ false }
    ensures app { IfOk result (λ c. app_of c ≡ taking (app_of command.entry) (rule_of arg.entry)) }
    ensures local { IfOk result (λ c. (out-Command c).has_globals ≡ false) }
{
    command.arg(arg)
}

// The command with one more subcommand.
#[tactic(auto, unfolding(crate::specs::Commands::having))]
fn having<'a>(command: Command<'a>, part: Command<'a>) -> Result<Command<'a>, AllocError>
    requires { (out-Command part).has_globals ≡ false }
    ensures { IfOk result (λ c. app_of c ≡ having (app_of command.entry) (app_of part.entry)) }
{
    command.subcommand(part)
}

#[tactic(auto, unfolding(crate::specs::Commands::check_app))]
fn check<'a>(alloc: Global) -> Command<'a>
    ensures app { app_of result ≡ check_app }
    ensures local { (out-Command result).has_globals ≡ false }
{
    Command::new(alloc, "check")
}

#[tactic(auto, unfolding(crate::specs::Commands::clausetester_app))]
fn clausetester<'a>(alloc: Global) -> Result<Command<'a>, AllocError>
    ensures app { IfOk result (λ c. app_of c ≡ clausetester_app) }
    ensures local { IfOk result (λ c. (out-Command c).has_globals ≡ false) }
{
    let command = Command::new(alloc, "clausetester");
    let filter = flag(alloc, "filter");
    let command = taking(command, filter)?;
    Ok(command)
}

// The command with one more option of a letter, with a number from `least` to `most`.
fn numbered<'a>(
    alloc: Global,
    command: Command<'a>,
    name: &'a str,
    letter: char,
    least: u64,
    most: u64,
) -> Result<Command<'a>, AllocError>
    requires { (out-Command command).has_globals ≡ false }
    ensures app { IfOk result (λ c. app_of c
        ≡ taking (app_of command.entry) (number_option name.entry.now letter least most)) }
    ensures local { IfOk result (λ c. (out-Command c).has_globals ≡ false) }
{
    let option = number_option(alloc, name, letter, least, most);
    let command = taking(command, option)?;
    Ok(command)
}

#[tactic(auto, unfolding(crate::specs::Commands::mace4_app))]
fn mace4<'a>(alloc: Global) -> Result<Command<'a>, AllocError>
    ensures app { IfOk result (λ c. app_of c ≡ mace4_app) }
    ensures local { IfOk result (λ c. (out-Command c).has_globals ≡ false) }
{
    let command = Command::new(alloc, "mace4");
    let command = numbered(alloc, command, "start_size", 'n', 1, 200)?;
    let command = numbered(alloc, command, "end_size", 'N', 1, 200)?;
    let command = numbered(alloc, command, "max_models", 'm', 1, 2_147_483_647)?;
    let command = numbered(alloc, command, "max_seconds", 't', 0, 2_147_483_647)?;
    Ok(command)
}

#[tactic(auto, unfolding(crate::specs::Commands::made_app))]
fn made<'a>(alloc: Global) -> Result<Command<'a>, AllocError>
    ensures app { IfOk result (λ c. app_of c ≡ made_app) }
    ensures local { IfOk result (λ c. (out-Command c).has_globals ≡ false) }
{
    let command = Command::new(alloc, "made");
    let size = needed_number(alloc, "size", 1, 1_000);
    let command = taking(command, size)?;
    Ok(command)
}

#[tactic(auto, unfolding(crate::specs::Commands::prover9_app))]
fn prover9<'a>(alloc: Global) -> Result<Command<'a>, AllocError>
    ensures app { IfOk result (λ c. app_of c ≡ prover9_app) }
    ensures local { IfOk result (λ c. (out-Command c).has_globals ≡ false) }
{
    let command = Command::new(alloc, "prover9");
    let command = numbered(alloc, command, "max_seconds", 't', 0, 2_147_483_647)?;
    Ok(command)
}

// The program without its commands: the words come without its name, and help and version are no words of it.
#[tactic(auto, unfolding(crate::specs::Commands::bare_app))]
fn bare<'a>(alloc: Global) -> Command<'a>
    ensures { app_of result ≡ bare_app }
{
    Command::new(alloc, "ladr")
        .no_binary_name(true)
        .disable_help_flag(true)
        .disable_help_subcommand(true)
        .disable_version_flag(true)
        .subcommand_required(true)
}

/// The program's command.
#[tactic(auto, unfolding(crate::specs::Commands::ladr_app))]
pub fn ladr<'a>(alloc: Global) -> Result<Command<'a>, AllocError>
    ensures { IfOk result (λ c. app_of c ≡ ladr_app) }
{
    let command = having(bare(alloc), check(alloc))?;
    let command = having(command, clausetester(alloc)?)?;
    let command = having(command, mace4(alloc)?)?;
    let command = having(command, made(alloc)?)?;
    let command = having(command, prover9(alloc)?)?;
    Ok(command)
}
