//! The typed values of the texts of lines.
ghost use Rattle.std.specs.Prelude.{◌≡◌, ◌<◌, ◌==◌, IfOk, map};
ghost use Rattle.std.specs.Char.{is_ascii_digit};
ghost use Rattle.std.specs.List.{after_first, before_first, list_all, slice_split};
ghost use Rattle.serde_json.specs.Data.{string};
ghost use Rattle.serde_json.specs.View.{view};
ghost use Rattle.der_base.specs.TreeEquality.{same_octets};
ghost use Rattle.text_json.specs.Shown.Forms.{boolean_data, data_of, decimal, feature_data, has_name, heading_data};
ghost use Rattle.text_json.specs.Shown.Forms.{identifier_data, is_dotted, is_of_arcs};
ghost use Rattle.text_json.specs.Shown.Forms.{is_hex, is_hex_digit, is_space, name_before, named};
ghost use Rattle.text_json.specs.Shown.Forms.{number_data, octets_data, size_by, size_data, small_number, time_data};

use crate::shown::form::Form;
use serde_json::{Value, json};
use std::alloc::{AllocError, Global};

/// The greatest integer that JSON readers keep exactly: 2^53-1 (RFC 8259 6).
const MOST: u64 = 9_007_199_254_740_991;

/// The value of a text of this type. A text that isn't of its type stays a text.
pub(crate) fn value_of(alloc: Global, form: Form, text: &str) -> Result<Value, AllocError>
    ensures { IfOk result (λ value. view value ≡ data_of form text.now) }
{
    match form {
        Form::Text => Value::try_from_str(alloc, text),
        Form::Number => number(alloc, text),
        Form::Boolean => boolean(alloc, text),
        Form::Octets => octets(alloc, text),
        Form::Time => time(alloc, text),
        Form::Identifier => identifier(alloc, text),
        Form::Feature => feature(alloc, text),
        Form::Words => Ok(Value::Array(words(alloc, text)?)),
    }
}

/// A number in decimal.
fn number(alloc: Global, text: &str) -> Result<Value, AllocError>
    ensures { IfOk result (λ value. view value ≡ number_data text.now) }
{
    match small_number(text) {
        Some(number) => Ok(Value::from(number)),
        None => Value::try_from_str(alloc, text),
    }
}

/// A number of bits, or the length of octets.
fn size(alloc: Global, text: &str) -> Result<Value, AllocError>
    ensures { IfOk result (λ value. view value ≡ size_data text.now) }
{
    match small_number(before(text, ' ')) {
        Some(number) => size_by(alloc, text, after(text, ' '), number),
        None => Value::try_from_str(alloc, text),
    }
}

/// A number of bits, or the length of octets, by its unit.
fn size_by(alloc: Global, text: &str, unit: &str, number: u64) -> Result<Value, AllocError>
    ensures { IfOk result (λ value. view value ≡ size_by text.now unit.now number) }
{
    if is_same(unit, "bits") {
        return Ok(Value::from(number));
    }
    if is_same(unit, "octets") || is_same(unit, "octet") {
        return json!(in alloc; {"length": number});
    }
    Value::try_from_str(alloc, text)
}

fn boolean(alloc: Global, text: &str) -> Result<Value, AllocError>
    ensures { IfOk result (λ value. view value ≡ boolean_data text.now) }
{
    if is_same(text, "true") {
        return Ok(Value::Bool(true));
    }
    if is_same(text, "false") {
        return Ok(Value::Bool(false));
    }
    Value::try_from_str(alloc, text)
}

/// Octets in hexadecimal, or their number.
fn octets(alloc: Global, text: &str) -> Result<Value, AllocError>
    ensures { IfOk result (λ value. view value ≡ octets_data text.now) }
{
    if !is_hex(text) {
        return size(alloc, text);
    }
    let digits = Value::try_from_str(alloc, text)?;
    json!(in alloc; {"hex": digits})
}

/// A time in the form of RFC 3339.
fn time(alloc: Global, text: &str) -> Result<Value, AllocError>
    ensures { IfOk result (λ value. view value ≡ time_data text.now) }
{
    let date = before(text, ' ');
    let rest = after(text, ' ');
    let time = before(rest, ' ');
    if !is_same(after(rest, ' '), "UTC") {
        return Value::try_from_str(alloc, text);
    }
    Ok(Value::String(format!(in alloc; "{date}T{time}Z")?))
}

/// An identifier by its arcs, and its name if it has one; or octets in hexadecimal.
fn identifier(alloc: Global, text: &str) -> Result<Value, AllocError>
    ensures { IfOk result (λ value. view value ≡ identifier_data text.now) }
{
    if is_hex(text) {
        return octets(alloc, text);
    }
    let arcs = Value::try_from_str(alloc, named(text))?;
    let name = name_before(alloc, text)?;
    json!(in alloc; {"arcs": arcs, "name": name})
}

/// A number, and its name if it has one.
fn feature(alloc: Global, text: &str) -> Result<Value, AllocError>
    ensures { IfOk result (λ value. view value ≡ feature_data text.now) }
{
    let number = number(alloc, named(text))?;
    let name = name_before(alloc, text)?;
    json!(in alloc; {"number": number, "name": name})
}

/// The identifier of an extension and whether it is critical, from its heading; null for any other heading.
pub(crate) fn heading(alloc: Global, text: &str) -> Result<Value, AllocError>
    ensures { IfOk result (λ value. view value ≡ heading_data text.now) }
{
    let identifier = before(text, ',');
    if !is_dotted(named(identifier).as_bytes()) {
        return Ok(Value::Null);
    }
    let arcs = Value::try_from_str(alloc, named(identifier))?;
    let name = name_before(alloc, identifier)?;
    let critical = is_same(after(text, ','), " critical");
    json!(in alloc; {"arcs": arcs, "name": name, "critical": critical})
}

/// Returns whether a text is arcs with points between them.
fn is_dotted(text: &[u8]) -> bool
    ensures { result ≡ is_dotted text.now }
{
    !text.is_empty() && are_of_arcs(text)
}

fn are_of_arcs(text: &[u8]) -> bool
    ensures { result ≡ list_all is_of_arcs text.now }
{
    text.iter().all(|octet| is_of_arcs(*octet))
}

fn is_of_arcs(octet: u8) -> bool
    ensures { result ≡ is_of_arcs octet }
{
    octet.is_ascii_digit() || octet == b'.'
}

/// Words with spaces between them.
fn words(alloc: Global, text: &str) -> Result<Vec<Value>, AllocError>
    ensures { IfOk result (λ found. map view found.items ≡ map string (slice_split is_space text.now)) }
{
    let mut found = Vec::new(alloc);
    'words: for word in text.split(' ') {
        found.push(Value::try_from_str(alloc, word)?)?;
    }
    Ok(found)
}

/// What is in parentheses, after its name; the text if nothing is.
fn named(text: &str) -> &str
    ensures { result.now ≡ named text.now }
{
    if has_name(text) {
        before(after(text, '('), ')')
    } else {
        text
    }
}

/// The name before parentheses; null if there are none.
fn name_before(alloc: Global, text: &str) -> Result<Value, AllocError>
    ensures { IfOk result (λ value. view value ≡ name_before text.now) }
{
    if has_name(text) {
        Value::try_from_str(alloc, before(text, ' '))
    } else {
        Ok(Value::Null)
    }
}

fn has_name(text: &str) -> bool
    ensures { result ≡ has_name text.now }
{
    !after(text, '(').is_empty()
}

/// The text before the first of this character; all of it if there is none.
fn before(text: &str, character: char) -> &str
    requires { character < 128 }
    ensures { result.now ≡ before_first (λ c. c == character) text.now }
{
    match text.split_once(character) {
        Some((before, _)) => before,
        None => text,
    }
}

/// The text after the first of this character; empty if there is none.
fn after(text: &str, character: char) -> &str
    requires { character < 128 }
    ensures { result.now ≡ after_first (λ c. c == character) text.now }
{
    match text.split_once(character) {
        Some((_, after)) => after,
        None => "",
    }
}

fn is_same(text: &str, other: &str) -> bool
    ensures { result ≡ same_octets text.now other.now }
{
    text.as_bytes() == other.as_bytes()
}

/// The number in decimal digits, up to 2^53-1.
fn small_number(text: &str) -> Option<u64>
    ensures { result ≡ small_number text.now }
{
    let number = decimal(text)?;
    if number <= MOST { Some(number) } else { None }
}

/// The number in decimal digits, up to 2^64-1.
fn decimal(text: &str) -> Option<u64>
    ensures { result ≡ decimal text.now }
{
    if !are_digits(text.as_bytes()) {
        return None;
    }
    text.parse().ok()
}

fn are_digits(text: &[u8]) -> bool
    ensures { result ≡ list_all is_ascii_digit text.now }
{
    text.iter().all(|octet| octet.is_ascii_digit())
}

/// Returns whether a text is octets in hexadecimal.
fn is_hex(text: &str) -> bool
    ensures { result ≡ is_hex text.now }
{
    are_hex_digits(text.as_bytes()) && text.len() % 2 == 0
}

fn are_hex_digits(text: &[u8]) -> bool
    ensures { result ≡ list_all is_hex_digit text.now }
{
    text.iter().all(|octet| is_hex_digit(*octet))
}

fn is_hex_digit(octet: u8) -> bool
    ensures { result ≡ is_hex_digit octet }
{
    octet.is_ascii_digit() || (octet >= b'a' && octet <= b'f')
}
