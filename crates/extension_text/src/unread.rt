//! Extension values of another type than their own.
ghost use Rattle.std.specs.Option.{option_map};
ghost use Rattle.std.specs.Prelude.{◌≡◌, ◌↔◌, IsTrue, drop};
ghost use Rattle.der_base.specs.declared.rules.Rules.{Rules};
ghost use Rattle.der_cursor.specs.Elements.{element_of};
ghost use Rattle.der_cursor.specs.Formats.{AnyElement, Never, ReadsField};
ghost use Rattle.der_print.specs.Writes.{WritesOne};
ghost use Rattle.extension_text.specs.Unread.{FindsElement, IsUnreadBy, IsWhyIn};
ghost use Rattle.extension_text.specs.Unread.{IsWhyWrong, IsWhyWrongField, MayBeDefault, type_of};

use crate::names::lines::{write_displayed, write_octets};
use crate::why::{ErrorText, Why, why_of};
use der_base::any::Any;
use der_base::error::BerError;
use der_base::header::{Class, Tag};
use der_cursor::{Cursor, ReadError};
use der_elements::TypeName;
use std::fmt;

/// The identifier octet of a BIT STRING (X.690 8.1.2, 8.6).
const BIT_STRING: u8 = 0x03;

/// The identifier octet of a SEQUENCE (X.690 8.1.2, 8.9).
const SEQUENCE: u8 = 0x30;

/// Writes the error of a value and its octets, with an indentation.
pub fn write_unread<W: fmt::Write>(
    f: &mut fmt::Formatter<W>,
    indent: &str,
    octets: &[u8],
    error: ErrorText<'_>,
) -> fmt::Result
    ensures { WritesOne W.Write.write_str_gives f.old result
        (IsUnreadBy indent.now octets.now error.entry.refusal.now error.entry.why) f.new }
{
    f.write_str(indent)?;
    write_displayed(f, "Error in the value ", &error)?;
    f.write_str(indent)?;
    write_octets(f, "Octets: ", octets)
}

/// The error of a value as text. Its offset counts from the start of the value.
pub fn error_in<'r>(value: &[u8], refusal: &'r ReadError<BerError>) -> ErrorText<'r>
    ensures refusal { result.refusal.now ≡ refusal.now }
    ensures why { IsWhyIn value.now refusal.now result.why }
{
    ErrorText {
        refusal,
        why: why_in(value, refusal),
    }
}

/// The more exact reason of a value's error.
fn why_in(value: &[u8], refusal: &ReadError<BerError>) -> Why
    ensures { IsWhyIn value.now refusal.now result }
{
    match element_at(value, refusal.offset) {
        Some(element) => why_of(refusal, Some(type_of(&element)), why_wrong(value, &element)),
        None => why_of(refusal, None, Why::AsRead),
    }
}

/// The DER element at an offset.
fn element_at(octets: &[u8], offset: usize) -> Option<Any<'_>>
    ensures { FindsElement (drop offset octets.now) (option_map element_of result) }
{
    first_element(behind(octets, offset))
}

/// The octets from this offset on; empty if the offset is after the end.
fn behind(octets: &[u8], offset: usize) -> &[u8]
    ensures { result.now ≡ drop offset octets.now }
{
    octets.get(offset..).unwrap_or(&[])
}

/// The first DER element.
fn first_element(octets: &[u8]) -> Option<Any<'_>>
    ensures { FindsElement octets.now (option_map element_of result) }
{
    let mut rest = Cursor::new(octets);
    match read_element(&mut rest) {
        Ok(element) => Some(element),
        Err(_) => None,
    }
}

fn read_element<'a>(rest: &mut Cursor<'a>) -> Result<Any<'a>, ReadError<BerError>>
    ensures { ReadsField AnyElement element_of Never rest.old result rest.new }
{
    rest.any()
}

/// The type or tag of an element.
fn type_of(element: &Any<'_>) -> TypeName
    ensures { result ≡ type_of (element_of element.now) }
{
    TypeName {
        class: element.class(),
        number: element.tag().0,
    }
}

/// The more exact reason if this element of a value has a wrong value.
fn why_wrong(value: &[u8], element: &Any<'_>) -> Why
    ensures { IsWhyWrong value.now (element_of element.now) result }
{
    match value {
        [SEQUENCE, ..] => why_wrong_field(element),
        [BIT_STRING, ..] if element.bytes.len() > 1 => Why::LastBit,
        _ => Why::AsRead,
    }
}

/// The more exact reason if this element, a SEQUENCE or in one, has a wrong value.
fn why_wrong_field(element: &Any<'_>) -> Why
    ensures { IsWhyWrongField (element_of element.now) result }
{
    match element.bytes {
        [] if element.header.is_constructed() => Why::Empty,
        [0] if may_be_default(element) => Why::Default,
        _ => Why::AsRead,
    }
}

/// Returns whether a 0 octet in this element may be a default value: FALSE, or under an implicit tag FALSE or 0.
fn may_be_default(element: &Any<'_>) -> bool
    ensures { IsTrue result ↔ MayBeDefault (element_of element.now) }
{
    match element.class() {
        Class::Universal => element.tag() == Tag::Boolean,
        Class::ContextSpecific => true,
        _ => false,
    }
}
