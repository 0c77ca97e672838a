//! Words for the contents of primitive elements. The writer tests that they give back the octets.
ghost use Rattle.std.specs.Prelude.{◌≡◌, IfOk, Some, false, option_map, string_bytes};
ghost use Rattle.der_base.specs.Arcs.{arcs};
ghost use Rattle.der_base.specs.Oids.{is_relative_of, octets_of};
ghost use Rattle.der_base.specs.Pretty.{arcs_text};
ghost use Rattle.der_text.specs.Looks.{IsNumberText, IsValueText, boolean_text, tag_text};

use crate::element::Element;
use der_base::header::{Class, Header, Tag};
use der_base::integer::{read_i64, read_u64};
use der_base::oid::Oid;
use std::alloc::{AllocError, Global};
use std::borrow::CowSlice;

/// The tag of a header in brackets.
pub(crate) fn tag_text(alloc: Global, header: &Header<'_>) -> Result<String, AllocError>
    ensures { IfOk result (λ text. string_bytes text ≡ tag_text header.now) }
{
    let class = match header.class() {
        Class::Universal => "UNIVERSAL ",
        Class::Application => "APPLICATION ",
        Class::ContextSpecific => "",
        Class::Private => "PRIVATE ",
    };
    let form = if header.constructed() {
        ""
    } else {
        " PRIMITIVE"
    };
    let number = header.tag().0;
    format!(in alloc; "{class}{number}{form}")
}

/// A word for the content of a primitive element, if its type has one.
pub(crate) fn value_word(alloc: Global, element: &Element<'_>) -> Result<Option<String>, AllocError>
    ensures { IfOk result
        (λ word. IsValueText element.now.header element.now.content.now (option_map string_bytes word)) }
{
    if !element.header.is_universal() {
        return Ok(None);
    }
    match element.header.tag() {
        Tag::Boolean => boolean_word(alloc, element.content),
        Tag::Integer | Tag::Enumerated => integer_word(alloc, element.content),
        Tag::Oid => identifier_word(alloc, element.content),
        _ => Ok(None),
    }
}

fn boolean_word(alloc: Global, content: &[u8]) -> Result<Option<String>, AllocError>
    ensures { IfOk result (λ word. option_map string_bytes word ≡ boolean_text content.now) }
{
    let word = match content {
        [0] => "FALSE",
        [0xff] => "TRUE",
        _ => return Ok(None),
    };
    let word = format!(in alloc; "{word}")?;
    Ok(Some(word))
}

fn integer_word(alloc: Global, content: &[u8]) -> Result<Option<String>, AllocError>
    ensures { IfOk result (λ word. IsNumberText content.now (option_map string_bytes word)) }
{
    if let Ok(number) = read_i64(content) {
        let word = format!(in alloc; "{number}")?;
        return Ok(Some(word));
    }
    if let Ok(number) = read_u64(content) {
        let word = format!(in alloc; "{number}")?;
        return Ok(Some(word));
    }
    Ok(None)
}

fn identifier_word(alloc: Global, content: &[u8]) -> Result<Option<String>, AllocError>
    ensures { IfOk result
        (λ word. option_map string_bytes word ≡ Some (arcs_text (arcs false content.now) content.now)) }
{
    let identifier = known_identifier(content);
    let word = format!(in alloc; "{identifier}")?;
    Ok(Some(word))
}

fn known_identifier(content: &[u8]) -> Oid<'_>
    ensures octets { octets_of result ≡ content.now }
    ensures absolute { is_relative_of result ≡ false }
{
    Oid::new(CowSlice::Borrowed(content))
}
