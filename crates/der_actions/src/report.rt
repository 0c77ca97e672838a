//! Reports of errors.
ghost use Rattle.std.specs.Prelude.{◌≡◌, ◌≢◌, ◌↔◌, ◌⊎◌, IfOk, IsTrue, OnOk, false, true};
ghost use Rattle.std.specs.Io.KnownBytes.{Keeps};
ghost use Rattle.der_actions.specs.Namings.{IsAsAsked};
ghost use Rattle.der_actions.specs.Outputs.{AreSomeElements};
ghost use Rattle.der_actions.specs.declared.options.Action.{Action};

use crate::hint::{likely_paths, likely_type, write_hint};
use crate::listing::Listing;
use crate::name::Name;
use crate::naming::is_as_asked;
use crate::options::{Action, Naming, Options};
use crate::origin::Origin;
use crate::place::Place;
use der_elements::check::are_elements;
use der_elements::{ElementError, MAX_DEPTH, Path, Reason, Rules, Walk};
use der_input::FormError;
use der_known::KnownTypes;
use der_schema::Schema;
use std::alloc::Global;
use std::io::Write;
use std::{fmt, io};
use text_json::fields::{Named, fit_of};

/// Whether octets are one or more valid elements by these rules, and nothing else.
pub(crate) fn are_some_elements(octets: &[u8], rules: Rules) -> bool
    ensures { IsTrue result ↔ AreSomeElements rules octets.now }
{
    !octets.is_empty() && are_elements(octets, rules, MAX_DEPTH + 1)
}

/// Reports the first error. This is a rejected element, an empty input, or an input that doesn't have the type of the
/// options.
pub(crate) fn report_check<W: Write>(
    options: &Options<'_>,
    origin: Origin<'_>,
    octets: &[u8],
    out: &mut W,
) -> io::Result<()> {
    if are_some_elements(octets, options.rules) {
        return report_type(options, origin, octets, out);
    }
    report_first(options, origin, octets, out)
}

/// Reports the first rejected element, or that the input is empty. An error inside a string doesn't count.
pub(crate) fn report_first<W: Write>(
    options: &Options<'_>,
    origin: Origin<'_>,
    octets: &[u8],
    out: &mut W,
) -> io::Result<()> {
    if report_fault(options.rules, origin, octets, out)? {
        return Ok(());
    }
    writeln!(out, "der: {origin}: an element has no end")
}

/// Reports the first element that isn't valid by these rules, or that the input is empty. Returns whether there was
/// something to report.
pub fn report_fault<W: Write>(
    rules: Rules,
    origin: Origin<'_>,
    octets: &[u8],
    out: &mut W,
) -> io::Result<bool> {
    let mut walk = Walk::new(octets, rules, false);
    match walk.find_fault() {
        Some(refusal) => report(origin, &walk, &refusal, out)?,
        None if octets.is_empty() => report_empty(origin, out)?,
        None => return Ok(false),
    }
    Ok(true)
}

/// Why an input or a block can't be decoded. Text that is detected as base64 isn't of another form either.
#[derive(Clone, Copy)]
pub struct Undecoded<'a> {
    pub origin: Origin<'a>,
    pub error: FormError,
    /// Whether the form is detected, and not given.
    pub is_detected: bool,
}

impl fmt::Display for Undecoded<'_> {
    fn fmt<W: fmt::Write>(&self, f: &mut fmt::Formatter<W>) -> fmt::Result {
        let (origin, error) = (self.origin, self.error);
        write!(f, "{origin}: ")?;
        if self.is_detected && origin.block.is_none() && matches!(error, FormError::Base64(_)) {
            f.write_str("not DER, PEM or hexadecimal digits, and ")?;
        }
        write!(f, "{error}")
    }
}

/// Reports an input or a block that can't be decoded.
pub fn refuse_form<W: Write, X: Write>(
    options: &Options<'_>,
    origin: Origin<'_>,
    e: FormError,
    out: &mut W,
    err: &mut X,
) -> io::Result<bool>
    ensures refused { IfOk result (λ ok. ok ≡ false) }
    ensures quiet { options.now.action ≢ Action.Check
        → OnOk result (Keeps (W.contents out.old) (W.contents out.new)) }
    ensures loud { options.now.action ≡ Action.Check → err.new ≡ err.old }
    ensures none { options.now.action ≡ Action.Check → options.now.is_quiet ≡ true → out.new ≡ out.old }
{
    let why = Undecoded {
        origin,
        error: e,
        is_detected: options.form.is_none(),
    };
    if options.action == Action::Check {
        if !options.is_quiet {
            writeln!(out, "der: {why}")?;
        }
    } else {
        out.flush()?;
        writeln!(err, "der: {why}")?;
    }
    Ok(false)
}

/// Reports at the end of a walk that no element was listed, or that the input doesn't have the type of the options.
/// Returns whether there was nothing to report.
pub(crate) fn report_end<W: Write, X: Write>(
    alloc: Global,
    options: &Options<'_>,
    origin: Origin<'_>,
    octets: &[u8],
    listing: &Listing<'_>,
    out: &mut W,
    err: &mut X,
) -> io::Result<bool>
    ensures read { IfOk result (λ ok. IsTrue ok → (listing.now.has_some ≡ true)
        × IsAsAsked options.now.naming options.now.rules octets.now) }
    ensures refused { IfOk result (λ ok. ok ≡ false → (listing.now.has_some ≡ false)
        ⊎ (IsAsAsked options.now.naming options.now.rules octets.now → ⊥)) }
    ensures keeps { OnOk result (Keeps (W.contents out.old) (W.contents out.new)) }
{
    if !listing.has_some() {
        out.flush()?;
        report_missing(alloc, options, origin, octets, err)?;
        return Ok(false);
    }
    if is_as_asked(options.naming, options.rules, octets) {
        return Ok(true);
    }
    out.flush()?;
    report_type(options, origin, octets, err)?;
    Ok(false)
}

/// Reports where the input doesn't match the type of the options.
pub fn report_type<X: Write>(
    options: &Options<'_>,
    origin: Origin<'_>,
    octets: &[u8],
    err: &mut X,
) -> io::Result<()> {
    match options.naming {
        Naming::By(schema) => report_fit(
            origin,
            schema,
            fit_of(octets, schema, options.rules),
            err,
        ),
        Naming::Unnamed | Naming::ByFirst(_) => Ok(()),
    }
}

/// Reports how an input doesn't match a type.
fn report_fit<X: Write>(
    origin: Origin<'_>,
    schema: Schema<'_>,
    named: Named<'_>,
    err: &mut X,
) -> io::Result<()> {
    let name = schema.name;
    match named {
        Named::Whole => Ok(()),
        Named::Lacks => writeln!(
            err,
            "der: {origin}: a mandatory component of {name} is missing"
        ),
        Named::Left(offset) => {
            writeln!(
                err,
                "der: {origin}: at {offset}: {name} has no such element here"
            )
        }
        Named::Refused(end) => report(origin, &end.walk, &end.refusal, err),
    }
}

/// Reports that no known type has this name. Suggests a similar name, and lists the names of the known types.
pub fn report_unknown_type<X: Write>(
    alloc: Global,
    name: Option<&str>,
    types: &KnownTypes,
    err: &mut X,
) -> io::Result<()> {
    let name = name.unwrap_or("");
    write!(err, "der: no known type has the name {}", Name(name))?;
    match likely_type(alloc, name, types)? {
        Some(likely) => write_hint(&[likely], err)?,
        None => write!(err, ".")?,
    }
    write!(err, " These are known:")?;
    for known in types.known() {
        write!(err, " {}", known.name)?;
    }
    writeln!(err, "")
}

/// Reports where and why a walk stopped with an error, after `out` is flushed.
pub(crate) fn report_refusal<W: Write, X: Write>(
    origin: Origin<'_>,
    walk: &Walk<'_>,
    refusal: &ElementError,
    out: &mut W,
    err: &mut X,
) -> io::Result<bool>
    ensures refused { IfOk result (λ ok. ok ≡ false) }
    ensures keeps { OnOk result (Keeps (W.contents out.old) (W.contents out.new)) }
{
    out.flush()?;
    report(origin, walk, refusal, err)?;
    Ok(false)
}

/// Reports that there is no element at the place of the options, or that the input is empty.
pub(crate) fn report_missing<X: Write>(
    alloc: Global,
    options: &Options<'_>,
    origin: Origin<'_>,
    octets: &[u8],
    err: &mut X,
) -> io::Result<()> {
    match options.place {
        Some(place) => report_place_missing(alloc, options, place, origin, octets, err),
        None => report_empty(origin, err),
    }
}

/// Reports that the input is empty.
fn report_empty<X: Write>(origin: Origin<'_>, err: &mut X) -> io::Result<()> {
    writeln!(err, "der: {origin}: the input is empty")
}

/// Reports that there is no element at a place, and the paths that may be meant.
fn report_place_missing<X: Write>(
    alloc: Global,
    options: &Options<'_>,
    place: Place<'_>,
    origin: Origin<'_>,
    octets: &[u8],
    err: &mut X,
) -> io::Result<()> {
    let likely = match place {
        Place::Path(path) => likely_paths(alloc, options, octets, path)?,
        Place::Offset(_) => Vec::new(alloc),
    };
    write!(err, "der: {origin}: {place}")?;
    write_hint(&likely, err)?;
    writeln!(err, "")
}

/// Reports where and why a walk stopped with an error.
pub(crate) fn report<X: Write>(
    origin: Origin<'_>,
    walk: &Walk<'_>,
    refusal: &ElementError,
    err: &mut X,
) -> io::Result<()> {
    report_place(
        origin,
        refusal.offset,
        &walk.path(refusal),
        walk.reason(refusal),
        err,
    )
}

/// Reports where and why an input isn't valid, or that its format isn't ASN.1.
pub(crate) fn report_place<X: Write>(
    origin: Origin<'_>,
    offset: usize,
    path: &Path,
    reason: Reason<'_>,
    err: &mut X,
) -> io::Result<()> {
    if let Some(format) = origin.other_format() {
        return writeln!(err, "der: {origin}: {format} isn't ASN.1");
    }
    if path.is_empty() {
        return writeln!(err, "der: {origin}: at {offset}: {reason}");
    }
    writeln!(err, "der: {origin}: at {offset}, {path}: {reason}")
}
