//! The command line as clap is told of it: four subcommands, and two arguments of the last.

ghost use Rattle.std.specs.Prelude.{◌≡◌, IfOk, false};
ghost use Rattle.clap.specs.Simple.{app_of, new_app, with_subcommand};
ghost use Rattle.clap.specs.declared.builder.command.Command.TheViews.{out-Command};
ghost use Rattle.command_words.specs.inner.ClapWords.{gen_app, root_app, tokc_app};

use clap::{Arg, Command};
use std::alloc::{AllocError, Global};

fn root_command<'a>(alloc: Global) -> Command<'a>
    ensures { app_of result ≡ root_app }
{
    Command::new(alloc, "tokc").no_binary_name(true)
}

// Adds a subcommand without arguments.
fn with_name<'a>(
    alloc: Global,
    command: Command<'a>,
    name: &'a str,
) -> Result<Command<'a>, AllocError>
    ensures { IfOk result (λ c. app_of c
        ≡ with_subcommand (app_of command.entry) (new_app name.entry.now).top) }
{
    command.subcommand(Command::new(alloc, name))
}

fn gen_command<'a>(alloc: Global) -> Result<Command<'a>, AllocError>
    ensures app { IfOk result (λ c. app_of c ≡ gen_app) }
    ensures local { IfOk result (λ c. (out-Command c).has_globals ≡ false) }
{
    let seed = Arg::new(alloc, "seed").required(true);
    let size = Arg::new(alloc, "size").required(true);
    Command::new(alloc, "gen").arg(seed)?.arg(size)
}

fn with_gen<'a>(alloc: Global, command: Command<'a>) -> Result<Command<'a>, AllocError>
    ensures { IfOk result (λ c. app_of c ≡ with_subcommand (app_of command.entry) gen_app.top) }
{
    let generate = gen_command(alloc)?;
    command.subcommand(generate)
}

/// The command line of tokc.
pub(crate) fn tokc_command<'a>(alloc: Global) -> Result<Command<'a>, AllocError>
    ensures { IfOk result (λ c. app_of c ≡ tokc_app) }
{
    let command = root_command(alloc);
    let command = with_name(alloc, command, "build")?;
    let command = with_name(alloc, command, "replay")?;
    let command = with_name(alloc, command, "stats")?;
    with_gen(alloc, command)
}
