//! The action of `der show`.
ghost use Rattle.std.specs.Option.{option_copied};
ghost use Rattle.std.specs.Prelude.{◌≡◌, IfOk, IsTrue, OnOk, false, not};
ghost use Rattle.der_show.specs.Messages.{text_in};
ghost use Rattle.der_cli.specs.Shown.{AddsFoundFrom, AddsText, AddsWords, AddsWordsFrom, IsTextOf, RefusesShown};
ghost use Rattle.der_cli.specs.Shown.{IsSummary, IsUnread, ShowsRead, ShowsWords, is_broken, source_of};

use crate::shown_object::{write_refused, write_shown};
use der_actions::options::{Naming, Options};
use der_actions::origin::Origin;
use der_actions::report::{report_fault, report_type};
use der_elements::check::check_element;
use der_elements::{MAX_DEPTH, Rules};
use der_show::{Unread, Words, text_of_refused, why_unread, words_as, words_of};
use std::alloc::{AllocError, Global};
use std::io;
use std::io::Write;

/// Writes a summary of octets. If no format is known, writes the fields that were read of a rejected certificate, and
/// reports the reason on `err`. Returns whether a format is known and, if `is_strict`, no rule of RFC 5280 is broken.
pub(crate) fn show<W: Write, X: Write>(
    alloc: Global,
    options: &Options<'_>,
    origin: Origin<'_>,
    octets: &[u8],
    out: &mut W,
    err: &mut X,
) -> io::Result<bool>
    ensures read { IfOk result (λ ok. IsTrue ok
        → ShowsWords options.now octets.now (W.contents out.old) (W.contents out.new)) }
    ensures refused { IfOk result (λ ok. ok ≡ false
        → RefusesShown options.now octets.now (W.contents out.old) (W.contents out.new)) }
{
    let found = summary_of(alloc, options, octets)?;
    match found {
        Some(words) => write_words(alloc, options, origin, octets, &words, out, err),
        None => refuse(alloc, options, origin, octets, out, err),
    }
}

/// The summary of octets: that by the type that they have to have, or else that of the first format that they have.
fn summary_of(
    alloc: Global,
    options: &Options<'_>,
    octets: &[u8],
) -> Result<Option<Words>, AllocError>
    ensures { IfOk result (λ words. IsSummary options.now octets.now words) }
{
    match options.naming {
        Naming::By(schema) => words_as(alloc, octets, schema, options.present),
        Naming::Unnamed | Naming::ByFirst(_) => words_of(alloc, octets, options.present),
    }
}

/// Writes the summary of octets. If `is_strict`, reports that a rule of RFC 5280 is broken. Returns whether there was nothing to
/// report.
fn write_words<W: Write, X: Write>(
    alloc: Global,
    options: &Options<'_>,
    origin: Origin<'_>,
    octets: &[u8],
    words: &Words,
    out: &mut W,
    err: &mut X,
) -> io::Result<bool>
    ensures written { OnOk result (AddsWords options.now octets.now words.now (W.contents out.old) (W.contents out.new)) }
    ensures broken { IfOk result (λ ok. is_broken options.now words.now ≡ not ok) }
{
    put_words(alloc, options, origin, octets, words, out)?;
    if !is_broken(options, words) {
        return Ok(true);
    }
    out.flush()?;
    writeln!(err, "der: {origin}: it breaks a rule of RFC 5280")?;
    Ok(false)
}

/// Writes the summary of octets, as a JSON object if the options say so.
fn put_words<W: Write>(
    alloc: Global,
    options: &Options<'_>,
    origin: Origin<'_>,
    octets: &[u8],
    words: &Words,
    out: &mut W,
) -> io::Result<()>
    ensures { OnOk result (AddsWordsFrom (source_of origin.entry) options.now octets.now words.now
        (W.contents out.old) (W.contents out.new)) }
{
    if options.is_json {
        return write_shown(alloc, origin, octets, words, out);
    }
    out.write_all(&words.text)
}

/// Whether a rule of RFC 5280 is broken, and the options make that an error.
fn is_broken(options: &Options<'_>, words: &Words) -> bool
    ensures { result ≡ is_broken options.now words.now }
{
    options.is_strict && !words.keeps_rules
}

/// Writes what was read of a rejected certificate, and reports why no format is known.
fn refuse<W: Write, X: Write>(
    alloc: Global,
    options: &Options<'_>,
    origin: Origin<'_>,
    octets: &[u8],
    out: &mut W,
    err: &mut X,
) -> io::Result<bool>
    ensures refused { IfOk result (λ ok. ok ≡ false) }
    ensures shows { OnOk result (ShowsRead options.now octets.now (W.contents out.old) (W.contents out.new)) }
{
    let unread = unread_of(options, octets);
    let found = text_of_unread(alloc, options.present, octets, unread.as_ref())?;
    put_found(alloc, options, origin, octets, unread.as_ref(), &found, out)?;
    out.flush()?;
    report_unknown(options, origin, octets, unread.as_ref(), err)?;
    Ok(false)
}

/// Why octets aren't a certificate, CRL or certification request, unless they have to have another type.
fn unread_of<'a>(options: &Options<'_>, octets: &'a [u8]) -> Option<Unread<'a>>
    ensures { IsUnread options.now octets.now result }
{
    match options.naming {
        Naming::By(_) => None,
        Naming::Unnamed | Naming::ByFirst(_) => why_unread(octets),
    }
}

/// A summary of what was read of a certificate before the error.
fn text_of_unread(
    alloc: Global,
    present: Option<u64>,
    octets: &[u8],
    unread: Option<&Unread<'_>>,
) -> Result<Option<Vec<u8>>, AllocError>
    ensures { IfOk result (λ found. IsTextOf present octets.now (option_copied unread.entry) (text_in found)) }
{
    match unread {
        Some(unread) => text_of_refused(alloc, octets, &unread.refused, present),
        None => Ok(None),
    }
}

/// Writes what was read, or a JSON object with that and the error if the options say so.
fn put_found<W: Write>(
    alloc: Global,
    options: &Options<'_>,
    origin: Origin<'_>,
    octets: &[u8],
    unread: Option<&Unread<'_>>,
    found: &Option<Vec<u8>>,
    out: &mut W,
) -> io::Result<()>
    ensures { OnOk result (AddsFoundFrom (source_of origin.entry) options.now octets.now (option_copied unread.entry)
        (text_in found.now) (W.contents out.old) (W.contents out.new)) }
{
    if options.is_json {
        return write_refused(alloc, options, origin, octets, unread, found, out);
    }
    write_found(found, out)
}

/// Writes a text, if there is one.
fn write_found<W: Write>(found: &Option<Vec<u8>>, out: &mut W) -> io::Result<()>
    ensures { OnOk result (AddsText (text_in found.now) (W.contents out.old) (W.contents out.new)) }
{
    match found {
        Some(text) => out.write_all(text),
        None => Ok(()),
    }
}

/// Reports where octets aren't valid BER, or else where they don't match the type that they have to have, or why they
/// aren't a certificate, CRL or certification request.
pub(crate) fn report_unknown<X: Write>(
    options: &Options<'_>,
    origin: Origin<'_>,
    octets: &[u8],
    unread: Option<&Unread<'_>>,
    err: &mut X,
) -> io::Result<()> {
    if report_fault(Rules::Ber, origin, octets, err)? {
        return Ok(());
    }
    if let Naming::By(_) = options.naming {
        return report_type(options, origin, octets, err);
    }
    match unread {
        Some(unread) if has_trust(origin, octets, unread) => {
            let offset = unread.refused.offset();
            writeln!(
                err,
                "der: {origin}: at {offset}, after the certificate, are OpenSSL's trust settings"
            )
        }
        Some(unread) => writeln!(err, "der: {origin}: {unread}"),
        None => writeln!(err, "der: {origin}: it is nothing that is known"),
    }
}

/// Whether OpenSSL's trust settings follow a certificate, and nothing else is wrong.
fn has_trust(origin: Origin<'_>, octets: &[u8], unread: &Unread<'_>) -> bool {
    match check_element(octets, Rules::Ber, MAX_DEPTH + 1) {
        Some(rest) if origin.is_trusted() && !rest.is_empty() => {
            unread.refused.offset() == octets.len().saturating_sub(rest.len())
        }
        _ => false,
    }
}
