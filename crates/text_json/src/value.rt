//! The value of an element as JSON.
ghost use Rattle.std.specs.Prelude.{◌≡◌, ◌⊎◌, IfOk, drop, string_bytes};
ghost use Rattle.hex.specs.Hex.{encode_lower};
ghost use Rattle.serde_json.specs.Data.{string};
ghost use Rattle.serde_json.specs.View.{view};
ghost use Rattle.der_base.specs.Octets.{integer_value};
ghost use Rattle.text_json.specs.Json.{IsJsonValue, IsUniversalJson, is_false};
ghost use Rattle.text_json.specs.Numbers.{json_number};
ghost use Rattle.der_print.specs.Quotes.{unquoted_text};
ghost use Rattle.der_print.specs.Texts.{content_of};
ghost use Rattle.der_print.specs.Values.{identifier_text, real_text};
ghost use Rattle.der_elements.specs.Walked.{visited_of};

use crate::number::number_text;
use der_base::header::{Class, Tag};
use der_base::integer::read_i64;
use der_base::rules::Rules;
use der_base::time::read_time;
use der_elements::Element;
use der_print::{Arcs, Hex, Limit, Moment, Real, Unquoted, is_quoted_type, octets_or_none};
use der_values::read_bool;
use serde_json::Value;
use std::alloc::{AllocError, Global};

/// The greatest integer that JSON readers keep exactly: 2^53-1 (RFC 8259 6).
const MOST: i64 = 9_007_199_254_740_991;

/// The value of an element; null if its content is elements.
pub(crate) fn value_of(alloc: Global, element: &Element<'_>) -> Result<Value, AllocError>
    ensures { IfOk result (λ value. IsJsonValue (visited_of element.now) (content_of element.now) (view value)) }
{
    if element.constructed || element.holds.is_some() {
        return Ok(Value::Null);
    }
    let octets = octets_or_none(element.content);
    if element.class != Class::Universal {
        return hex(alloc, octets);
    }
    universal_value(alloc, element.number, octets)
}

/// The value of a universal type.
fn universal_value(alloc: Global, number: u32, octets: &[u8]) -> Result<Value, AllocError>
    ensures { IfOk result (λ value. IsUniversalJson number octets.now (view value)) }
{
    match number {
        0 | 5 => Ok(Value::Null),
        1 => Ok(Value::Bool(!is_false(octets))),
        2 | 10 => integer(alloc, octets),
        6 => arcs(alloc, octets, false),
        13 => arcs(alloc, octets, true),
        3 => bits(alloc, octets),
        9 => real(alloc, octets),
        23 => time(alloc, number, octets),
        24 => time(alloc, number, octets),
        _ if is_quoted_type(number) => text(alloc, number, octets),
        _ => hex(alloc, octets),
    }
}

/// Returns whether octets are those of FALSE. In BER any octet but 0 is TRUE; other lengths are shown as true.
fn is_false(octets: &[u8]) -> bool
    ensures { result ≡ is_false octets.now }
{
    match read_bool(Rules::Ber, octets) {
        Ok(truth) => !truth,
        Err(_) => false,
    }
}

/// An OBJECT IDENTIFIER in dotted form.
pub(crate) fn arcs(alloc: Global, octets: &[u8], relative: bool) -> Result<Value, AllocError>
    ensures { IfOk result (λ value. view value ≡ string (identifier_text relative octets.now)) }
{
    string(format!(in alloc; "{}", Arcs { octets, relative })?)
}

pub(crate) fn string(text: String) -> Result<Value, AllocError>
    ensures { IfOk result (λ value. view value ≡ string (string_bytes text)) }
{
    Ok(Value::String(text))
}

/// A number from -(2^53-1) to 2^53-1; any other as text.
pub(crate) fn integer(alloc: Global, octets: &[u8]) -> Result<Value, AllocError>
    ensures { IfOk result (λ value. view value ≡ json_number octets.now) }
{
    if let Ok(number) = read_i64(octets) {
        return int64(alloc, number, octets);
    }
    string(number_text(alloc, octets)?)
}

/// A number of 64 bits.
fn int64(alloc: Global, number: i64, octets: &[u8]) -> Result<Value, AllocError>
    requires { number ≡ integer_value octets.now }
    ensures { IfOk result (λ value. view value ≡ json_number octets.now) }
{
    if number >= -MOST && number <= MOST {
        return Ok(Value::from(number));
    }
    string(number_text(alloc, octets)?)
}

/// The octets of a BIT STRING, without the count of unused bits.
fn bits(alloc: Global, octets: &[u8]) -> Result<Value, AllocError>
    ensures { IfOk result (λ value. view value ≡ string (encode_lower (drop 1 octets.now))) }
{
    match octets {
        [_, bits @ ..] => hex(alloc, bits),
        [] => hex(alloc, octets),
    }
}

/// A readable time, or the characters if they aren't a valid time.
fn time(alloc: Global, number: u32, octets: &[u8]) -> Result<Value, AllocError>
    ensures { (number ≡ 23) ⊎ (number ≡ 24)
        → IfOk result (λ value. IsUniversalJson number octets.now (view value)) }
{
    match read_time(Tag(number), octets) {
        Some(time) => {
            let is_utc_time = number == Tag::UtcTime.0;
            string(format!(in alloc; "{}", Moment { time, is_utc_time })?)
        }
        None => text(alloc, number, octets),
    }
}

/// The text of a REAL.
fn real(alloc: Global, octets: &[u8]) -> Result<Value, AllocError>
    ensures { IfOk result (λ value. view value ≡ string (real_text Limit.Whole octets.now)) }
{
    let limit = Limit::Whole;
    string(format!(in alloc; "{}", Real { octets, limit })?)
}

/// The characters of a string. Octets that aren't characters are escaped.
pub(crate) fn text(alloc: Global, number: u32, octets: &[u8]) -> Result<Value, AllocError>
    ensures { IfOk result (λ value. view value ≡ string (unquoted_text number octets.now)) }
{
    string(format!(in alloc; "{}", Unquoted { octets, number })?)
}

pub(crate) fn hex(alloc: Global, octets: &[u8]) -> Result<Value, AllocError>
    ensures { IfOk result (λ value. view value ≡ string (encode_lower octets.now)) }
{
    let limit = Limit::Whole;
    string(format!(in alloc; "{}", Hex { octets, limit })?)
}
