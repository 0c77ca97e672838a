//! The output of `der show` as a JSON object.
ghost use Rattle.std.specs.Option.{option_copied, option_map, unwrap_or};
ghost use Rattle.std.specs.Prelude.{◌≡◌, ◌++◌, [], OnOk, codes};
ghost use Rattle.std.specs.Io.KnownBytes.{Appends};
ghost use Rattle.der_show.specs.Messages.{text_in};
ghost use Rattle.der_show.specs.Refused.{offset_of};
ghost use Rattle.der_cli.specs.Shown.{AddsError, AddsWordsObject, IsErrorOffset, source_of};

use crate::show::report_unknown;
use der_actions::options::Options;
use der_actions::origin::Origin;
use der_elements::{Rules, Walk};
use der_show::{Unread, Words, json_of_words};
use std::alloc::Global;
use std::io;
use std::io::Write;
use text_json::shown::{Source, refused_json};

/// Writes the summary of octets as a JSON object.
pub(crate) fn write_shown<W: Write>(
    alloc: Global,
    origin: Origin<'_>,
    octets: &[u8],
    words: &Words,
    out: &mut W,
) -> io::Result<()>
    ensures { OnOk result (AddsWordsObject (source_of origin.entry) octets.now words.now
        (W.contents out.old) (W.contents out.new)) }
{
    let object = json_of_words(alloc, source_of(origin), octets, words)?;
    write_line(&object, out)
}

/// Writes the error as a JSON object, with the text that was read before it.
pub(crate) fn write_refused<W: Write>(
    alloc: Global,
    options: &Options<'_>,
    origin: Origin<'_>,
    octets: &[u8],
    unread: Option<&Unread<'_>>,
    found: &Option<Vec<u8>>,
    out: &mut W,
) -> io::Result<()>
    ensures { OnOk result (AddsError (source_of origin.entry) octets.now (option_copied unread.entry)
        (text_in found.now) (W.contents out.old) (W.contents out.new)) }
{
    let error = error_text(alloc, options, origin, octets, unread)?;
    let offset = error_offset(octets, unread);
    let object = refused_json(alloc, source_of(origin), &error, offset, text_of(found))?;
    write_line(&object, out)
}

/// The source of octets, for a JSON object.
fn source_of(origin: Origin<'_>) -> Source<'_>
    ensures { result ≡ source_of origin.entry }
{
    match origin.block {
        Some(block) => Source {
            file: origin.name,
            block: Some(block.number),
            label: Some(block.shown),
        },
        None => Source {
            file: origin.name,
            block: None,
            label: None,
        },
    }
}

/// The text that was read. Empty if there is none.
fn text_of(found: &Option<Vec<u8>>) -> &[u8]
    ensures { result.now ≡ unwrap_or (text_in found.now) [] }
{
    match found {
        Some(text) => text,
        None => &[],
    }
}

/// The error, as it is reported.
fn error_text(
    alloc: Global,
    options: &Options<'_>,
    origin: Origin<'_>,
    octets: &[u8],
    unread: Option<&Unread<'_>>,
) -> io::Result<String> {
    let mut report = Vec::new(alloc);
    report_unknown(options, origin, octets, unread, &mut report)?;
    let report = String::from_utf8_lossy(alloc, &report)?;
    let start = format!(in alloc; "der: {origin}: ")?;
    let line = report.trim_end();
    let error = line.strip_prefix(start.as_str()).unwrap_or(line);
    Ok(String::from_str(alloc, error)?)
}

/// The offset of the error: that of the first element that isn't valid, or else that of the reader that got furthest.
fn error_offset(octets: &[u8], unread: Option<&Unread<'_>>) -> Option<usize>
    ensures { IsErrorOffset octets.now (option_copied unread.entry) result }
{
    let mut walk = Walk::new(octets, Rules::Ber, false);
    match walk.find_fault() {
        Some(refusal) => Some(refusal.offset),
        None => reader_offset(unread),
    }
}

/// The offset of the error of the reader that got furthest.
fn reader_offset(unread: Option<&Unread<'_>>) -> Option<usize>
    ensures { result ≡ option_map (λ u. offset_of u.refused) (option_copied unread.entry) }
{
    match unread {
        Some(unread) => Some(unread.refused.offset()),
        None => None,
    }
}

/// Writes an object and the end of the line.
fn write_line<W: Write>(object: &str, out: &mut W) -> io::Result<()>
    ensures { OnOk result (Appends (W.contents out.old) (W.contents out.new) (object.now ++ codes "\n")) }
{
    out.write_all(object.as_bytes())?;
    out.write_all(b"\n")
}
