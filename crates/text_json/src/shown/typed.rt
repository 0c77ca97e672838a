//! The values of items in JSON.
ghost use Rattle.std.specs.Prelude.{◌≡◌, ◌==◌, ◌||◌, IfOk, length, map, string_bytes};
ghost use Rattle.der_print.specs.Values.{is_ascii_text};
ghost use Rattle.serde_json.specs.View.{view};
ghost use Rattle.text_json.specs.Shown.Items.{AreParts, IsFilterIn, IsIdentifier, IsItemValue, IsTime, address_data};
ghost use Rattle.text_json.specs.Shown.Items.{flag_data, hex_data, named_number, text_data, text_or_hex};

use crate::members::timestamp;
use crate::shown::line::text_or_null;
use crate::value::{arcs, hex, integer, string, text};
use der_base::header::Tag;
use der_base::rules::Rules;
use der_elements::Walk;
use der_print::is_printable_ascii;
use der_schema::content_of;
use der_schema::words::{Notation, NumberName};
use oid_names::name_of;
use serde_json::{Value, json};
use std::alloc::{AllocError, Global};
use std::net::Ipv4Addr;
use type_words::{count_in, is_shown, name_among, value_text};

/// The value of content octets in a notation; null if the notation has no value.
pub(crate) fn value_in(
    alloc: Global,
    notation: Notation,
    octets: &[u8],
) -> Result<Value, AllocError>
    ensures { IfOk result (λ value. IsItemValue notation octets.now (view value)) }
{
    match notation {
        Notation::Silent | Notation::Skipped | Notation::Title | Notation::Label => Ok(Value::Null),
        Notation::Word(word) => Value::try_from_str(alloc, word),
        Notation::Count => Ok(Value::from(count_in(octets))),
        Notation::Number => integer(alloc, octets),
        Notation::NumberOf(names) => named_number(alloc, names, octets),
        Notation::NameOf(names) => named_number(alloc, names, octets),
        Notation::Arcs => identifier(alloc, octets),
        Notation::Octets => ascii_or_hex(alloc, octets),
        Notation::Hex => digits(alloc, octets),
        Notation::Length => json!(in alloc; {"length": octets.len()}),
        Notation::Address => address(alloc, octets),
        Notation::Boolean => flag(alloc, octets),
        Notation::Text => utf8(alloc, octets),
        Notation::TextOrHex => text_or_hex(alloc, is_shown(octets), octets),
        Notation::GeneralizedTime => time(alloc, octets),
        Notation::Joined => Ok(Value::Array(parts(alloc, octets)?)),
        Notation::Filter => string(filter(alloc, octets)?),
    }
}

/// A number, and its name if it has one.
fn named_number(
    alloc: Global,
    names: &'static [NumberName],
    octets: &[u8],
) -> Result<Value, AllocError>
    ensures { IfOk result (λ value. view value ≡ named_number names.now octets.now) }
{
    let number = integer(alloc, octets)?;
    let name = text_or_null(alloc, name_among(names, octets))?;
    json!(in alloc; {"number": number, "name": name})
}

/// An identifier by its arcs, and its name if it has one.
fn identifier(alloc: Global, octets: &[u8]) -> Result<Value, AllocError>
    ensures { IfOk result (λ value. IsIdentifier octets.now (view value)) }
{
    let arcs = arcs(alloc, octets, false)?;
    let name = text_or_null(alloc, name_of(octets))?;
    json!(in alloc; {"arcs": arcs, "name": name})
}

/// Printable ASCII as a text, other octets in hexadecimal.
fn ascii_or_hex(alloc: Global, octets: &[u8]) -> Result<Value, AllocError>
    ensures { IfOk result (λ value. view value
        ≡ text_or_hex (length octets.now == 0 || is_ascii_text octets.now) octets.now) }
{
    let is_text = octets.is_empty() || is_printable_ascii(octets);
    text_or_hex(alloc, is_text, octets)
}

/// Octets as a text, or else in hexadecimal.
fn text_or_hex(alloc: Global, is_text: bool, octets: &[u8]) -> Result<Value, AllocError>
    ensures { IfOk result (λ value. view value ≡ text_or_hex is_text octets.now) }
{
    if is_text {
        utf8(alloc, octets)
    } else {
        digits(alloc, octets)
    }
}

/// A text in UTF-8. Other octets in it are escaped.
fn utf8(alloc: Global, octets: &[u8]) -> Result<Value, AllocError>
    ensures { IfOk result (λ value. view value ≡ text_data octets.now) }
{
    text(alloc, Tag::Utf8String.0, octets)
}

/// Octets in hexadecimal.
fn digits(alloc: Global, octets: &[u8]) -> Result<Value, AllocError>
    ensures { IfOk result (λ value. view value ≡ hex_data octets.now) }
{
    let digits = hex(alloc, octets)?;
    json!(in alloc; {"hex": digits})
}

/// An address of IPv4 in four octets, or the octets.
fn address(alloc: Global, octets: &[u8]) -> Result<Value, AllocError>
    ensures { IfOk result (λ value. view value ≡ address_data octets.now) }
{
    match octets {
        &[a, b, c, d] => {
            let address = Ipv4Addr::new(a, b, c, d);
            string(format!(in alloc; "{address}")?)
        }
        octets => digits(alloc, octets),
    }
}

/// The value of a BOOLEAN (X.690 8.2.2), or the octets if they aren't one.
fn flag(alloc: Global, octets: &[u8]) -> Result<Value, AllocError>
    ensures { IfOk result (λ value. view value ≡ flag_data octets.now) }
{
    match octets {
        [octet] => Ok(Value::Bool(*octet != 0)),
        octets => digits(alloc, octets),
    }
}

/// The time of a GeneralizedTime in the form of RFC 3339, or its text if it has no such form.
fn time(alloc: Global, octets: &[u8]) -> Result<Value, AllocError>
    ensures { IfOk result (λ value. IsTime octets.now (view value)) }
{
    match timestamp(alloc, Tag::GeneralizedTime.0, octets)? {
        Some(time) => string(time),
        None => utf8(alloc, octets),
    }
}

/// The texts of the outermost elements that these octets begin with by BER.
fn parts(alloc: Global, octets: &[u8]) -> Result<Vec<Value>, AllocError>
    ensures { IfOk result (λ parts. AreParts octets.now (map view parts.items)) }
{
    let mut parts = Vec::new(alloc);
    let mut walk = Walk::new(octets, Rules::Ber, false).keeping_values();
    'elements: loop {
        match walk.next_element() {
            Ok(Some(element)) if element.depth == 0 => {
                let part = content_of(octets, &element);
                let text = utf8(alloc, part)?;
                parts.push(text)?;
            }
            Ok(Some(_)) => {}
            Ok(None) => return Ok(parts),
            Err(_) => return Ok(parts),
        }
    }
}

/// The text of a search filter.
fn filter(alloc: Global, octets: &[u8]) -> Result<String, AllocError>
    ensures { IfOk result (λ text. IsFilterIn octets.now (string_bytes text)) }
{
    let text = value_text(alloc, Notation::Filter, octets)?;
    String::from_utf8_lossy(alloc, &text)
}
