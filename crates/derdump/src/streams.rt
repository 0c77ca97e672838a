//! The program between its standard streams.
ghost use Rattle.std.specs.Prelude.{◌≡◌, ◌≤◌, ◌↔◌, length, IfSome};
ghost use Rattle.std.specs.Process.{exit_status};
ghost use Rattle.derdump.specs.Elements.{AreElements};
ghost use Rattle.derdump.specs.Sources.{limit};
ghost use Rattle.derdump.specs.Words.{Names, rules_of, word_of};

use crate::command::Command;
use crate::run::run;
use crate::sink::Sink;
use crate::source::Source;
use std::alloc::Global;
use std::io::{Read, Write};
use std::process::ExitCode;

/// Runs with the argument, if there is exactly one, and exits with the status of the run.
pub fn program<R: Read + Drop, W: Write + Drop, X: Write + Drop>(
    alloc: Global,
    argument: Option<String>,
    reader: R,
    out: W,
    mut err: X,
) -> ExitCode
    ensures status { exit_status result ≤ 2 }
    ensures usage { (exit_status result ≡ 2) ↔ ((command : Command) → ¬ Names (word_of argument) command) }
    ensures elements { (command : Command) → Names (word_of argument) command → exit_status result ≡ 0
        → IfSome (R.remaining reader) (λ xs. AreElements (rules_of command) xs × (length xs ≤ limit)) }
{
    let word = match &argument {
        Some(word) => word.as_str(),
        None => "",
    };
    let mut source = Source::new(reader);
    let mut sink = Sink::new(out);
    ExitCode::from(run(alloc, word, &mut source, &mut sink, &mut err))
}
