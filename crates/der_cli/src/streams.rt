//! The program over its streams.
ghost use Rattle.std.specs.Prelude.{◌≡◌, ◌≢◌, ◌≤◌, IfOk, codes};
ghost use Rattle.std.specs.IoError.{error_kind};
ghost use Rattle.std.specs.Process.{exit_status};
ghost use Rattle.std.specs.declared.io.ErrorKind.{ErrorKind};
ghost use Rattle.clap.specs.Words.{found_of, kind_of, rows_of};
ghost use Rattle.der_cli.specs.Arguments.{has_flag};
ghost use Rattle.der_cli.specs.Runs.{RunsAction, RunsTask, files_named};
ghost use Rattle.der_cli.specs.Statuses.{IsStatus, IsStatusTold};
ghost use Rattle.der_cli.specs.Taken.{RunsFiles};

use crate::arguments::{Task, has_flag, options_of, task_named};
use crate::command::command;
use crate::inputs::{DASH, run_diff, run_files, run_octets, run_text};
use crate::modules::{asked_naming, run_modules};
use crate::own_names::{names_in, table_text};
use crate::present::at_present;
use crate::status::{CLOSED_PIPE, DONE, REFUSED, USAGE, status_of};
use crate::terminal::style_of;
use clap::ArgMatches;
use der_actions::options::{Action, Options};
use der_known::KnownTypes;
use der_print::Style;
use oid_names::OwnNames;
use std::env::Env;
use std::io::{BufWriter, ErrorKind, Read, Write};
use std::process::ExitCode;
use std::rt::Files;
use std::time::Clock;
use std::{env, io};

/// Runs the program with its arguments. Returns 0 if each input was accepted, 1 if one was rejected or can't be read or
/// written, 2 if the arguments are wrong, and 141 if the reader of the output closed it. `diff` returns 1 if the files
/// differ, and 2 if one can't be read.
pub fn program<
    R: Env + Files + Clock + AllocGlobal + Clone + Drop,
    I: Read + Drop,
    W: Write + Drop,
    X: Write + Drop,
>(rt: &R, input: I, out: W, mut err: X, is_terminal: bool) -> ExitCode
    ensures { IsStatus (exit_status result) }
{
    let status = match start(rt, input, out, &mut err, is_terminal) {
        Ok(status) => status,
        Err(e) => status_after(e, &mut err),
    };
    ExitCode::from(status)
}

/// The exit status after an error. It is reported unless it is a closed pipe.
fn status_after<X: Write>(e: io::Error, err: &mut X) -> u8
    ensures closed { error_kind e ≡ ErrorKind.BrokenPipe → result ≡ 141 }
    ensures refused { error_kind e ≢ ErrorKind.BrokenPipe → result ≡ 1 }
    ensures quiet { error_kind e ≡ ErrorKind.BrokenPipe → err.new ≡ err.old }
{
    if e.kind() == ErrorKind::BrokenPipe {
        return CLOSED_PIPE;
    }
    let _ = writeln!(err, "der: {e}");
    REFUSED
}

/// Reads the arguments.
fn start<
    R: Env + Files + Clock + AllocGlobal + Clone + Drop,
    I: Read + Drop,
    W: Write + Drop,
    X: Write,
>(rt: &R, input: I, out: W, err: &mut X, is_terminal: bool) -> io::Result<u8>
    ensures { IfOk result (λ status. status ≤ 2) }
{
    let words: Vec<String> = env::args(rt)?.collect(rt.alloc())?;
    let command = command(rt.alloc())?;
    let found = command.try_get_matches_from(words.as_slice());
    run_found(rt, found, input, out, err, is_terminal)
}

/// Runs the subcommand, or tells what is wrong with the command line.
fn run_found<
    R: Env + Files + Clock + AllocGlobal + Clone + Drop,
    I: Read + Drop,
    W: Write + Drop,
    X: Write,
>(
    rt: &R,
    found: Result<ArgMatches<'_>, clap::Error>,
    input: I,
    out: W,
    err: &mut X,
    is_terminal: bool,
) -> io::Result<u8>
    ensures { IfOk result (λ status. status ≤ 2) }
{
    match found {
        Ok(matches) => run_subcommand(rt, &matches, style_of(rt, is_terminal), input, out, err),
        Err(e) => tell(&e, out, err),
    }
}

/// Tells what is wrong with a command line, or prints the help.
fn tell<W: Write + Drop, X: Write>(e: &clap::Error, mut out: W, err: &mut X) -> io::Result<u8>
    ensures bounded { IfOk result (λ status. status ≤ 2) }
    ensures told { IfOk result (IsStatusTold (kind_of e.now)) }
{
    if e.use_stderr() {
        write!(err, "{e}")?;
        return Ok(USAGE);
    }
    write!(out, "{e}")?;
    out.flush()?;
    Ok(DONE)
}

/// Runs the subcommand.
fn run_subcommand<
    R: Files + Clock + AllocGlobal + Clone + Drop,
    I: Read + Drop,
    W: Write + Drop,
    X: Write,
>(
    rt: &R,
    matches: &ArgMatches<'_>,
    terminal: Style,
    mut input: I,
    out: W,
    err: &mut X,
) -> io::Result<u8>
    ensures { IfOk result (λ status. status ≤ 2) }
{
    let Some((name, matches)) = matches.subcommand() else {
        return Ok(USAGE);
    };
    let task = task_named(name);
    let mut out = BufWriter::new(rt.alloc(), out)?;
    let status = run_with_table(rt, task, matches, terminal, &mut input, &mut out, err)?;
    out.flush()?;
    Ok(status)
}

/// Reads the table of names, if there is one, and runs the task.
fn run_with_table<R: Files + Clock + AllocGlobal + Clone + Drop, I: Read, W: Write, X: Write>(
    rt: &R,
    task: Task,
    matches: &ArgMatches<'_>,
    terminal: Style,
    input: &mut I,
    out: &mut W,
    err: &mut X,
) -> io::Result<u8>
    ensures { IfOk result (λ status. status ≤ 2) }
{
    match table_text(rt, matches.get_str("names"), err)? {
        Some(table) => run_by_table(rt, task, matches, terminal, &table, input, out, err),
        None => Ok(USAGE),
    }
}

/// Runs the task with the text of a table of names.
fn run_by_table<R: Files + Clock + AllocGlobal + Clone + Drop, I: Read, W: Write, X: Write>(
    rt: &R,
    task: Task,
    matches: &ArgMatches<'_>,
    terminal: Style,
    table: &str,
    input: &mut I,
    out: &mut W,
    err: &mut X,
) -> io::Result<u8>
    ensures { IfOk result (λ status. status ≤ 2) }
{
    match names_in(rt.alloc(), matches.get_str("names"), table, err)? {
        Some(names) => run_task(rt, task, matches, terminal, Some(&names), input, out, err),
        None => Ok(USAGE),
    }
}

/// Runs the task.
fn run_task<'n, 't, R: Files + Clock + AllocGlobal + Clone + Drop, I: Read, W: Write, X: Write>(
    rt: &R,
    task: Task,
    matches: &ArgMatches<'_>,
    terminal: Style,
    own: Option<&'n OwnNames<'t>>,
    input: &mut I,
    out: &mut W,
    err: &mut X,
) -> io::Result<u8>
    ensures runs { IfOk result (RunsTask task (rows_of (found_of matches.now)) terminal (I.remaining input.old)
        (W.contents out.old) (W.contents out.new)) }
    ensures bounded { IfOk result (λ status. status ≤ 2) }
{
    match task {
        Task::Act(action) => run_action(rt, action, matches, terminal, own, input, out, err),
        Task::Diff => run_diff(rt, matches, terminal, own, input, out, err),
        Task::Text => {
            let is_text = run_text(rt, matches, input, out, err)?;
            Ok(status_of(is_text))
        }
        Task::Octets => {
            let are_octets = run_octets(rt, matches, input, out, err)?;
            Ok(status_of(are_octets))
        }
        Task::Modules => {
            let are_modules = run_modules(rt, matches, input, out, err)?;
            Ok(status_of(are_modules))
        }
    }
}

/// Runs an action on the files of its subcommand, or reports that the type isn't known.
fn run_action<'n, 't, R: Files + Clock + AllocGlobal + Clone + Drop, I: Read, W: Write, X: Write>(
    rt: &R,
    action: Action,
    matches: &ArgMatches<'_>,
    terminal: Style,
    own: Option<&'n OwnNames<'t>>,
    input: &mut I,
    out: &mut W,
    err: &mut X,
) -> io::Result<u8>
    ensures runs { IfOk result (RunsAction action (rows_of (found_of matches.now)) terminal (I.remaining input.old)
        (W.contents out.old) (W.contents out.new)) }
    ensures bounded { IfOk result (λ status. status ≤ 2) }
{
    let types = KnownTypes::new();
    let Some(naming) = asked_naming(rt, action, matches, &types, err)? else {
        return Ok(USAGE);
    };
    let asked = at_present(rt, options_of(action, matches, terminal));
    let options = Options {
        naming,
        own_names: own,
        ..asked
    };
    let are_read = run_inputs(rt, &options, matches, input, out, err)?;
    Ok(status_of(are_read))
}

/// Runs the action on the files of a subcommand, or on standard input.
fn run_inputs<R: Files + AllocGlobal + Clone + Drop, I: Read, W: Write, X: Write>(
    rt: &R,
    options: &Options<'_>,
    matches: &ArgMatches<'_>,
    input: &mut I,
    out: &mut W,
    err: &mut X,
) -> io::Result<bool>
    ensures { let rows = rows_of (found_of matches.now) in IfOk result (RunsFiles options.now (files_named rows)
        (has_flag rows (codes "recursive")) (I.remaining input.old) (W.contents out.old) (W.contents out.new)) }
{
    let is_recursive = has_flag(matches, "recursive");
    match matches.get_strs("file") {
        Some(files) => run_files(rt, options, files, is_recursive, input, out, err),
        None => run_files(rt, options, &[DASH], is_recursive, input, out, err),
    }
}
