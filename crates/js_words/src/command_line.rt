//! The command line, as it is described to `clap`: each part is that of `specs/CommandLine.antt`.

ghost use Rattle.std.specs.Prelude.{◌≡◌, IfOk, false};
ghost use Rattle.clap.specs.Words as W;
ghost use Rattle.clap.specs.declared.builder.command.Command.TheViews.{out-Command};
ghost use Rattle.js_words.specs.CommandLine as L;

use clap::{Arg, Command};
use std::alloc::{AllocError, Global};

/// The command with its six subcommands.
pub(crate) fn command_line<'a>(alloc: Global) -> Result<Command<'a>, AllocError>
    ensures { IfOk result (λ c. W.app_of c ≡ L.jsat) }
{
    let four = of_files(alloc)?;
    let five = with_subcommand(four, norm_command(alloc)?)?;
    with_subcommand(five, gen_command(alloc)?)
}

fn of_files<'a>(alloc: Global) -> Result<Command<'a>, AllocError>
    ensures { IfOk result (λ c. W.app_of c ≡ L.of_files) }
{
    let two = of_searches(alloc)?;
    let three = with_subcommand(two, valid_command(alloc)?)?;
    with_subcommand(three, check_command(alloc)?)
}

fn of_searches<'a>(alloc: Global) -> Result<Command<'a>, AllocError>
    ensures { IfOk result (λ c. W.app_of c ≡ L.of_searches) }
{
    let none = bare_command(alloc);
    let one = with_subcommand(none, sat_command(alloc)?)?;
    with_subcommand(one, include_command(alloc)?)
}

fn with_subcommand<'a>(command: Command<'a>, sub: Command<'a>) -> Result<Command<'a>, AllocError>
    requires { (out-Command sub).has_globals ≡ false }
    ensures { IfOk result (λ c. W.app_of c ≡ W.with_subcommand (W.app_of command.entry) (W.app_of sub.entry).top) }
{
    command.subcommand(sub)
}

fn bare_command<'a>(alloc: Global) -> Command<'a>
    ensures { W.app_of result ≡ L.bare }
{
    Command::new(alloc, "jsat")
        .no_binary_name(true)
        .disable_help_flag(true)
        .disable_help_subcommand(true)
        .subcommand_required(true)
}

fn sat_command<'a>(alloc: Global) -> Result<Command<'a>, AllocError>
    ensures { IfOk result (L.IsLocal L.sat) }
{
    let none = local_command(alloc, "sat");
    let one = with_argument(none, name_argument(alloc, "first"))?;
    with_argument(one, workers_argument(alloc))
}

fn include_command<'a>(alloc: Global) -> Result<Command<'a>, AllocError>
    ensures { IfOk result (L.IsLocal L.include) }
{
    let none = local_command(alloc, "include");
    let one = with_argument(none, name_argument(alloc, "first"))?;
    let two = with_argument(one, name_argument(alloc, "second"))?;
    with_argument(two, workers_argument(alloc))
}

fn valid_command<'a>(alloc: Global) -> Result<Command<'a>, AllocError>
    ensures { IfOk result (L.IsLocal L.valid) }
{
    let none = local_command(alloc, "valid");
    let one = with_argument(none, name_argument(alloc, "first"))?;
    with_argument(one, name_argument(alloc, "document"))
}

fn check_command<'a>(alloc: Global) -> Result<Command<'a>, AllocError>
    ensures { IfOk result (L.IsLocal L.check) }
{
    let none = local_command(alloc, "check");
    let one = with_argument(none, name_argument(alloc, "first"))?;
    let two = with_argument(one, name_argument(alloc, "second"))?;
    let three = with_argument(two, name_argument(alloc, "certificate"))?;
    with_argument(three, workers_argument(alloc))
}

fn norm_command<'a>(alloc: Global) -> Result<Command<'a>, AllocError>
    ensures { IfOk result (L.IsLocal L.norm) }
{
    let none = local_command(alloc, "norm");
    with_argument(none, name_argument(alloc, "first"))
}

fn gen_command<'a>(alloc: Global) -> Result<Command<'a>, AllocError>
    ensures { IfOk result (L.IsLocal L.gen) }
{
    let none = local_command(alloc, "gen");
    let one = with_argument(none, name_argument(alloc, "kind"))?;
    let two = with_argument(one, name_argument(alloc, "number"))?;
    with_argument(two, workers_argument(alloc))
}

fn local_command<'a>(alloc: Global, name: &'a str) -> Command<'a>
    ensures { L.IsLocal (W.new_app name.entry.now) result }
{
    Command::new(alloc, name)
}

fn with_argument<'a>(command: Command<'a>, argument: Arg<'a>) -> Result<Command<'a>, AllocError>
    requires command { (out-Command command).has_globals ≡ false }
    requires argument { argument.global ≡ false }
    ensures { IfOk result (L.IsLocal (W.with_rule (W.app_of command.entry) (W.rule_of argument.entry))) }
{
    command.arg(argument)
}

fn name_argument<'a>(alloc: Global, id: &'a str) -> Arg<'a>
    ensures rule { W.rule_of result ≡ L.name id.entry.now }
    ensures local { result.global ≡ false }
{
    Arg::new(alloc, id).required(true)
}

fn workers_argument<'a>(alloc: Global) -> Arg<'a>
    ensures rule { W.rule_of result ≡ L.workers }
    ensures local { result.global ≡ false }
{
    Arg::new(alloc, "workers")
        .long("workers")
        .default_value("1")
}
