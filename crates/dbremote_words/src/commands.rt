//! The clap command of each order: exactly the arguments of its usage line, without help or version.

ghost use Rattle.std.specs.Prelude.{◌≡◌, [], IfOk, false};
ghost use Rattle.clap.specs.Words.{app_of, rule_of};
ghost use Rattle.dbremote_words.specs.Commands.{agent_command, command_of, demo_command, flag, folder, init_command, length, needed, show_command, sql_command};

use clap::{Arg, ArgAction, Command};
use sr_base::NoMemory;
use std::alloc::Global;

/// A command without an argument, without help and without a version.
fn bare<'a>(alloc: Global, name: &'a str) -> Command<'a>
    ensures app { app_of result ≡ command_of name.entry.now [] }
{
    Command::new(alloc, name)
        .disable_help_flag(true)
        .disable_version_flag(true)
}

/// An argument that must be there, at its place: `NAME`, `USER`, `SEED` or `COUNT`.
fn needed<'a>(alloc: Global, id: &'a str) -> Arg<'a>
    ensures rule { rule_of result ≡ needed id.entry.now }
    ensures own { result.global ≡ false }
{
    Arg::new(alloc, id).required(true)
}

/// `--mail FOLDER`, which must be there.
fn folder<'a>(alloc: Global) -> Arg<'a>
    ensures rule { rule_of result ≡ folder }
    ensures own { result.global ≡ false }
{
    Arg::new(alloc, "FOLDER").long("mail").required(true)
}

/// A flag of one letter.
fn flag<'a>(alloc: Global, id: &'a str, letter: char) -> Arg<'a>
    ensures rule { rule_of result ≡ flag id.entry.now letter }
    ensures own { result.global ≡ false }
{
    Arg::new(alloc, id).short(letter).action(ArgAction::SetTrue)
}

/// `-l N`.
fn length<'a>(alloc: Global) -> Arg<'a>
    ensures rule { rule_of result ≡ length }
    ensures own { result.global ≡ false }
{
    Arg::new(alloc, "N").short('l')
}

/// `init NAME USER`.
pub(crate) fn init_command<'a>(alloc: Global) -> Result<Command<'a>, NoMemory>
    ensures app { IfOk result (λ command. app_of command ≡ init_command) }
{
    let command = bare(alloc, "init").arg(needed(alloc, "NAME"))?;
    let command = command.arg(needed(alloc, "USER"))?;
    Ok(command)
}

/// `sql NAME`.
pub(crate) fn sql_command<'a>(alloc: Global) -> Result<Command<'a>, NoMemory>
    ensures app { IfOk result (λ command. app_of command ≡ sql_command) }
{
    let command = bare(alloc, "sql").arg(needed(alloc, "NAME"))?;
    Ok(command)
}

/// `agent NAME --mail FOLDER [-r] [-s] [-p] [-x] [-l N]`.
pub(crate) fn agent_command<'a>(alloc: Global) -> Result<Command<'a>, NoMemory>
    ensures app { IfOk result (λ command. app_of command ≡ agent_command) }
{
    let command = bare(alloc, "agent").arg(needed(alloc, "NAME"))?;
    let command = command.arg(folder(alloc))?;
    let command = command.arg(flag(alloc, "r", 'r'))?;
    let command = command.arg(flag(alloc, "s", 's'))?;
    let command = command.arg(flag(alloc, "p", 'p'))?;
    let command = command.arg(flag(alloc, "x", 'x'))?;
    let command = command.arg(length(alloc))?;
    Ok(command)
}

/// `show NAME`.
pub(crate) fn show_command<'a>(alloc: Global) -> Result<Command<'a>, NoMemory>
    ensures app { IfOk result (λ command. app_of command ≡ show_command) }
{
    let command = bare(alloc, "show").arg(needed(alloc, "NAME"))?;
    Ok(command)
}

/// `demo SEED COUNT`.
pub(crate) fn demo_command<'a>(alloc: Global) -> Result<Command<'a>, NoMemory>
    ensures app { IfOk result (λ command. app_of command ≡ demo_command) }
{
    let command = bare(alloc, "demo").arg(needed(alloc, "SEED"))?;
    let command = command.arg(needed(alloc, "COUNT"))?;
    Ok(command)
}
