//! The command with its four options.

ghost use Rattle.std.specs.Prelude.{◌≡◌, IfOk};
ghost use Rattle.load_words.specs.App.{IsOption, HasOptions};

use clap::builder::ValueParser;
use clap::{Arg, ArgAction, Command, value_parser};
use std::alloc::{AllocError, Global};

/// A required option with this name, whose value is one that the parser takes.
fn option<'a>(alloc: Global, name: &'a str, parser: ValueParser<'a>) -> Arg<'a>
    ensures { IsOption name.entry.now parser.entry result }
{
    Arg::new(alloc, name)
        .long(name)
        .required(true)
        .action(ArgAction::Set)
        .value_parser(parser)
}

/// `load --start N --handlers H --regions R --count C`.
pub fn load_command<'a>(alloc: Global) -> Result<Command<'a>, AllocError>
    ensures { IfOk result (λ command. HasOptions command) }
{
    let start = option(alloc, "start", value_parser!(u64));
    let handlers = option(alloc, "handlers", value_parser!(u32).range(1..=16));
    let regions = option(alloc, "regions", value_parser!(u32).range(1..=64));
    let count = option(alloc, "count", value_parser!(u32).range(1..=10_000));
    let command = Command::new(alloc, "load");
    let command = command.arg(start)?;
    let command = command.arg(handlers)?;
    let command = command.arg(regions)?;
    let command = command.arg(count)?;
    Ok(command)
}
