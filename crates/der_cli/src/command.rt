//! The command line.
use crate::subcommands::{Argument, Kind, Subcommand, subcommands};
use clap::{Arg, ArgAction, Command, value_parser};
use std::alloc::{AllocError, Global};

/// The version of the program, and of the logic in which it is proved.
const VERSION: &str = "0.1.0 (logic dac8208d650f15bf)";

const EXAMPLES: &str = "\
Examples:
  der show certificate.pem
  der check -r certificates
  der json message.ber | jq 'select(.type == \"INTEGER\") | .value'";

const FORMS: [&str; 4] = ["der", "pem", "hex", "base64"];

/// The command line of the program.
pub(crate) fn command<'a>(alloc: Global) -> Result<Command<'a>, AllocError> {
    let commands = commands_of(alloc, &subcommands())?;
    program(alloc).subcommands(commands)
}

/// The program without its subcommands.
fn program<'a>(alloc: Global) -> Command<'a> {
    Command::new(alloc, "der")
        .version(VERSION)
        .about("Shows, checks and converts ASN.1 files in BER or DER")
        .after_help(EXAMPLES)
        .subcommand_required(true)
        .arg_required_else_help(true)
}

/// The subcommands.
fn commands_of<'a>(
    alloc: Global,
    subcommands: &[&Subcommand],
) -> Result<Vec<Command<'a>>, AllocError> {
    let mut commands = Vec::new(alloc);
    for subcommand in subcommands {
        commands.push(subcommand_of(alloc, subcommand)?)?;
    }
    Ok(commands)
}

/// A subcommand with its arguments.
fn subcommand_of<'a>(alloc: Global, subcommand: &Subcommand) -> Result<Command<'a>, AllocError> {
    let arguments = arguments_of(alloc, subcommand.arguments)?;
    described(alloc, subcommand).args(arguments)
}

/// A subcommand without its arguments.
fn described<'a>(alloc: Global, subcommand: &Subcommand) -> Command<'a> {
    let command = Command::new(alloc, subcommand.name).about(subcommand.about);
    match subcommand.notes {
        Some(notes) => command.after_help(notes),
        None => command,
    }
}

/// The arguments of a subcommand.
fn arguments_of<'a>(alloc: Global, arguments: &[Argument]) -> Result<Vec<Arg<'a>>, AllocError> {
    let mut args = Vec::new(alloc);
    for argument in arguments {
        args.push(argument_of(alloc, argument)?)?;
    }
    Ok(args)
}

/// An argument.
fn argument_of<'a>(alloc: Global, argument: &Argument) -> Result<Arg<'a>, AllocError> {
    let arg = of_kind(alloc, argument);
    match (argument.conflict, argument.needs) {
        (Some(other), _) => arg.conflicts_with(other),
        (None, Some(other)) => arg.requires_arg(other),
        (None, None) => Ok(arg),
    }
}

/// An argument of its kind.
fn of_kind<'a>(alloc: Global, argument: &Argument) -> Arg<'a> {
    let arg = helped(alloc, argument);
    match argument.kind {
        Kind::Flag => arg.long(argument.name).action(ArgAction::SetTrue),
        Kind::Number => arg.long(argument.name).value_parser(value_parser!(usize)),
        Kind::Word => arg.long(argument.name),
        Kind::Words => arg.long(argument.name).action(ArgAction::Append),
        Kind::Form => arg
            .long(argument.name)
            .value_parser(FORMS.as_slice())
            .hide_possible_values(true),
        Kind::File => arg,
        Kind::Files => arg.num_args(0..).action(ArgAction::Append),
        Kind::Required => arg.required(true),
    }
}

/// An argument with its help.
fn helped<'a>(alloc: Global, argument: &Argument) -> Arg<'a> {
    let arg = Arg::new(alloc, argument.name).help(argument.help);
    with_value(with_letter(arg, argument.letter), argument.value)
}

/// An argument with its letter, if it has one.
fn with_letter(arg: Arg<'_>, letter: Option<char>) -> Arg<'_> {
    match letter {
        Some(letter) => arg.short(letter),
        None => arg,
    }
}

/// An argument with the name of its value, if it has one.
fn with_value<'a>(arg: Arg<'a>, value: Option<&'a str>) -> Arg<'a> {
    match value {
        Some(name) => arg.value_name(name),
        None => arg,
    }
}
