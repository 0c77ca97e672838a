//! The files to read, and standard input.
ghost use Rattle.std.specs.Prelude.{◌≡◌, ◌≢◌, ◌≤◌, IfOk, IfSome, codes, false, length, map, nat_lt, option_map};
ghost use Rattle.std.specs.Prelude.{string_bytes};
ghost use Rattle.clap.specs.Words.{found_of, rows_of};
ghost use Rattle.der_actions.specs.declared.options.Action.{Action};
ghost use Rattle.der_cli.specs.Arguments.{Asks};
ghost use Rattle.der_cli.specs.Counts.{are_accepted, outcome_of};
ghost use Rattle.der_cli.specs.Inputs.{IsReadFrom, shown_name};
ghost use Rattle.der_cli.specs.Runs.{ComparesFiles, RunsDiff, RunsOctets, RunsText, file_named};
ghost use Rattle.der_cli.specs.Statuses.{ComparesTo};
ghost use Rattle.der_cli.specs.Taken.{OpensFile, RunsFiles, TakesFile, TakesFiles, among, has_summary};

use crate::arguments::{form_of, options_of, word_of};
use crate::decode::octets_in;
use crate::folders::list_files;
use crate::modules::asked_naming;
use crate::run::run;
use crate::status::{TROUBLE, status_of_comparison};
use crate::summary::{Outcome, Summary};
use clap::ArgMatches;
use der_actions::diff::{Sides, compare};
use der_actions::name::Name;
use der_actions::options::{Action, Options};
use der_actions::origin::Origin;
use der_actions::text::{write_octets, write_text};
use der_input::Form;
use der_known::KnownTypes;
use der_print::Style;
use oid_names::OwnNames;
use std::alloc::Global;
use std::io::{ErrorKind, Read, Write};
use std::rt::Files;
use std::{fs, io};

/// The name of standard input in messages.
const STANDARD_INPUT: &str = "standard input";

/// The name of standard input among files.
pub(crate) const DASH: &str = "-";

/// Runs the action on each file, and on those in folders if `is_recursive`. Returns whether there was a file, and all
/// were accepted.
pub(crate) fn run_files<R: Files + AllocGlobal + Clone + Drop, I: Read, W: Write, X: Write>(
    rt: &R,
    options: &Options<'_>,
    files: &[&str],
    is_recursive: bool,
    input: &mut I,
    out: &mut W,
    err: &mut X,
) -> io::Result<bool>
    ensures { IfOk result (RunsFiles options.now (map (λ f. f.now) files.now) is_recursive (I.remaining input.old)
        (W.contents out.old) (W.contents out.new)) }
{
    let list = list_files(rt, files, is_recursive, err)?;
    let options = among(options, list.names.len(), is_recursive);
    let summary = run_each(rt, &options, &list.names, list.is_whole, input, out, err)?;
    write_summary(&options, &summary, out)?;
    Ok(summary.is_good())
}

/// The options for this many files, or for those in folders.
fn among<'a>(options: &Options<'a>, count: usize, is_recursive: bool) -> Options<'a>
    ensures { result ≡ among count is_recursive options.now }
{
    Options {
        has_several_files: count > 1 || is_recursive,
        ..*options
    }
}

/// Writes the number of files after a check of several.
fn write_summary<W: Write>(options: &Options<'_>, summary: &Summary, out: &mut W) -> io::Result<()>
    ensures { has_summary options.now ≡ false → out.new ≡ out.old }
{
    if has_summary(options) {
        return summary.write(options, out);
    }
    Ok(())
}

/// Whether the number of files is written after them.
fn has_summary(options: &Options<'_>) -> bool
    ensures { result ≡ has_summary options.now }
{
    matches!(options.action, Action::Check) && options.has_several_files && !options.is_quiet
}

/// Runs the action on each file, and counts the files. `is_whole` says whether all folders were read to their end and
/// contain a file.
fn run_each<R: Files + AllocGlobal, I: Read, W: Write, X: Write>(
    rt: &R,
    options: &Options<'_>,
    names: &[String],
    is_whole: bool,
    input: &mut I,
    out: &mut W,
    err: &mut X,
) -> io::Result<Summary>
    ensures taken { IfOk result (λ summary. TakesFiles options.now (map string_bytes names.now) (I.remaining input.old)
        (I.remaining input.new) (W.contents out.old) (W.contents out.new) (are_accepted summary)) }
    ensures counted { IfOk result (λ summary. nat_lt 0 summary.files ≡ nat_lt 0 (length names.now)) }
    ensures whole { IfOk result (λ summary. summary.is_whole ≡ is_whole) }
{
    let mut summary = Summary::new(is_whole);
    for name in names {
        let outcome = run_file(rt, options, name.as_str(), input, out, err)?;
        summary.add(outcome);
    }
    Ok(summary)
}

/// Runs the action on a file.
fn run_file<R: Files + AllocGlobal, I: Read, W: Write, X: Write>(
    rt: &R,
    options: &Options<'_>,
    name: &str,
    input: &mut I,
    out: &mut W,
    err: &mut X,
) -> io::Result<Outcome>
    ensures { IfOk result (TakesFile options.now name.now (I.remaining input.old) (I.remaining input.new)
        (W.contents out.old) (W.contents out.new)) }
{
    match read_file(rt, name, input) {
        Ok(octets) => {
            let is_read = run(rt.alloc(), options, shown(name), &octets, out, err)?;
            Ok(outcome_of(is_read))
        }
        Err(e) => {
            out.flush()?;
            report_unread(name, &e, err)?;
            Ok(Outcome::Unread)
        }
    }
}

/// What became of a file that was read.
fn outcome_of(is_accepted: bool) -> Outcome
    ensures { result ≡ outcome_of is_accepted }
{
    if is_accepted {
        Outcome::Accepted
    } else {
        Outcome::Rejected
    }
}

/// The octets of a file, or of standard input.
pub(crate) fn read_file<R: Files + AllocGlobal, I: Read>(
    rt: &R,
    name: &str,
    input: &mut I,
) -> io::Result<Vec<u8>>
    ensures read { IfOk result (λ octets. IsReadFrom (I.remaining input.old) name.now octets.items) }
    ensures others { name.now ≢ codes "-" → I.remaining input.new ≡ I.remaining input.old }
{
    if name != DASH {
        return fs::read(rt, name);
    }
    let mut octets = Vec::new(rt.alloc());
    input.read_to_end(&mut octets)?;
    Ok(octets)
}

/// The name of a file in messages.
pub(crate) fn shown(name: &str) -> &str
    ensures { result.now ≡ shown_name name.now }
{
    if name == DASH { STANDARD_INPUT } else { name }
}

/// Reports a file or a folder that can't be read.
pub(crate) fn report_unread<X: Write>(name: &str, e: &io::Error, err: &mut X) -> io::Result<()> {
    let name = Name(shown(name));
    if e.kind() == ErrorKind::IsADirectory {
        return writeln!(err, "der: {name}: it is a folder, whose files -r reads");
    }
    writeln!(err, "der: {name}: {e}")
}

/// Compares two files. Returns the exit status.
pub(crate) fn run_diff<'n, 't, R: Files + AllocGlobal, I: Read, W: Write, X: Write>(
    rt: &R,
    matches: &ArgMatches<'_>,
    terminal: Style,
    own_names: Option<&'n OwnNames<'t>>,
    input: &mut I,
    out: &mut W,
    err: &mut X,
) -> io::Result<u8>
    ensures runs { IfOk result (RunsDiff (rows_of (found_of matches.now)) terminal (I.remaining input.old)
        (W.contents out.old) (W.contents out.new)) }
    ensures bounded { IfOk result (λ status. status ≤ 2) }
{
    let types = KnownTypes::new();
    let Some(naming) = asked_naming(rt, Action::Tree, matches, &types, err)? else {
        return Ok(TROUBLE);
    };
    let options = Options {
        own_names,
        naming,
        ..diff_options(matches, terminal)
    };
    let first = file_of(matches, "first");
    let second = file_of(matches, "second");
    diff_files(rt, &options, first, second, input, out, err)
}

/// Compares two files. Returns the exit status.
fn diff_files<R: Files + AllocGlobal, I: Read, W: Write, X: Write>(
    rt: &R,
    options: &Options<'_>,
    first: &str,
    second: &str,
    input: &mut I,
    out: &mut W,
    err: &mut X,
) -> io::Result<u8>
    ensures compares { IfOk result (ComparesFiles options.now first.now second.now (I.remaining input.old)
        (W.contents out.old) (W.contents out.new)) }
    ensures bounded { IfOk result (λ status. status ≤ 2) }
{
    let Some(old) = side(rt, options.form, first, input, err)? else {
        return Ok(TROUBLE);
    };
    let Some(new) = side(rt, options.form, second, input, err)? else {
        return Ok(TROUBLE);
    };
    let names = (shown(first), shown(second));
    status_of_sides(rt.alloc(), options, names, &old, &new, out, err)
}

/// The exit status for a comparison of the octets of two files.
fn status_of_sides<W: Write, X: Write>(
    alloc: Global,
    options: &Options<'_>,
    names: (&str, &str),
    old: &[u8],
    new: &[u8],
    out: &mut W,
    err: &mut X,
) -> io::Result<u8>
    ensures status { IfOk result (ComparesTo options.now old.now new.now (W.contents out.old) (W.contents out.new)) }
    ensures bounded { IfOk result (λ status. status ≤ 2) }
{
    let sides = Sides { names, old, new };
    let found = compare(alloc, options, sides, out, err)?;
    Ok(status_of_comparison(found))
}

/// The options of a comparison: those of a tree.
fn diff_options<'a>(matches: &ArgMatches<'a>, terminal: Style) -> Options<'a>
    ensures { Asks Action.Tree (rows_of (found_of matches.now)) terminal result }
{
    options_of(Action::Tree, matches, terminal)
}

/// The octets of a file, decoded. None if it can't be read or decoded, which is reported.
fn side<R: Files + AllocGlobal, I: Read, X: Write>(
    rt: &R,
    form: Option<Form>,
    name: &str,
    input: &mut I,
    err: &mut X,
) -> io::Result<Option<Vec<u8>>>
    ensures { IfOk result (λ found. OpensFile form name.now (I.remaining input.old) (I.remaining input.new)
        (option_map (λ v. v.items) found)) }
{
    let Some(octets) = read_or_report(rt, name, input, err)? else {
        return Ok(None);
    };
    let origin = Origin {
        name: shown(name),
        block: None,
    };
    octets_in(rt.alloc(), form, origin, &octets, err)
}

/// The content of a file. None if it can't be read, which is reported.
fn read_or_report<R: Files + AllocGlobal, I: Read, X: Write>(
    rt: &R,
    name: &str,
    input: &mut I,
    err: &mut X,
) -> io::Result<Option<Vec<u8>>>
    ensures read { IfOk result (λ found. IfSome found
        (λ octets. IsReadFrom (I.remaining input.old) name.now octets.items)) }
    ensures others { name.now ≢ codes "-" → I.remaining input.new ≡ I.remaining input.old }
{
    match read_file(rt, name, input) {
        Ok(octets) => Ok(Some(octets)),
        Err(e) => {
            report_unread(name, &e, err)?;
            Ok(None)
        }
    }
}

/// Writes the text of the octets of a file. Returns whether the file was read and decoded.
pub(crate) fn run_text<R: Files + AllocGlobal, I: Read, W: Write, X: Write>(
    rt: &R,
    matches: &ArgMatches<'_>,
    input: &mut I,
    out: &mut W,
    err: &mut X,
) -> io::Result<bool>
    ensures { IfOk result (RunsText (rows_of (found_of matches.now)) (I.remaining input.old)
        (W.contents out.old) (W.contents out.new)) }
{
    let form = form_of(matches);
    let Some(octets) = side(rt, form, file_of(matches, "file"), input, err)? else {
        return Ok(false);
    };
    write_text(rt.alloc(), &octets, out)?;
    Ok(true)
}

/// Writes the octets of a text. Returns whether they were written.
pub(crate) fn run_octets<R: Files + AllocGlobal, I: Read, W: Write, X: Write>(
    rt: &R,
    matches: &ArgMatches<'_>,
    input: &mut I,
    out: &mut W,
    err: &mut X,
) -> io::Result<bool>
    ensures { IfOk result (RunsOctets (rows_of (found_of matches.now)) (I.remaining input.old)
        (W.contents out.old) (W.contents out.new)) }
{
    let name = file_of(matches, "file");
    let Some(text) = read_or_report(rt, name, input, err)? else {
        return Ok(false);
    };
    write_octets(rt.alloc(), shown(name), &text, out, err)
}

/// The file of an argument, else standard input.
fn file_of<'a>(matches: &ArgMatches<'a>, argument: &str) -> &'a str
    ensures { result.now ≡ file_named argument.now (rows_of (found_of matches.now)) }
{
    word_of(matches, argument).unwrap_or(DASH)
}
