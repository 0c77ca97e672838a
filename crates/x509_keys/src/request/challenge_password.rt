//! The password of a CSR (RFC 2985 5.4.1).
ghost use Rattle.std.specs.Prelude.{◌≡◌, ◌↔◌, IsTrue, false};
ghost use Rattle.der_base.specs.declared.header.Class.{Class};
ghost use Rattle.der_cursor.specs.Elements.{element_of};
ghost use Rattle.x509_keys.specs.Request.Requests.{IsDirectoryString, IsDirectoryStringType, challenge_password};
ghost use Rattle.x509_keys.specs.Request.Requests.{directory_string};
ghost use Rattle.x509.specs.Readers.{ReadsBy, ReadsExactly, fault_of};

use crate::request::attribute::Values;
use der_base::any::Any;
use der_base::error::BerError;
use der_base::header::{Class, Tag};
use der_cursor::{Cursor, ReadError};

/// Reads the value of a `CHALLENGE_PASSWORD` attribute: one DirectoryString. Trailing data is an error. The characters
/// and the size, 1 to 255, aren't checked. Offsets of errors count from the start of the values.
///
/// ```
/// for attribute in request.info.attributes.iter() {
///     if attribute.identifier.is(attribute_identifiers::CHALLENGE_PASSWORD) {
///         let password = read_challenge_password(attribute.values)?;
///         println!(rt; "{:?}", password.bytes)?;
///     }
/// }
/// ```
pub fn read_challenge_password(values: Values<'_>) -> Result<Any<'_>, ReadError<BerError>>
    ensures { ReadsExactly fault_of element_of challenge_password values.entry.octets.now result }
{
    let mut input = Cursor::new(values.octets);
    let password = read_directory_string(&mut input)?;
    input.end()?;
    Ok(password)
}

/// Reads a DirectoryString.
fn read_directory_string<'a>(input: &mut Cursor<'a>) -> Result<Any<'a>, ReadError<BerError>>
    ensures { ReadsBy fault_of element_of directory_string input.old result input.new }
{
    let before = *input;
    let element = input.any()?;
    if !is_directory_string(&element) {
        return Err(before.refuse(BerError::BerValueError));
    }
    Ok(element)
}

/// Returns whether an element is primitive and has a string type of DirectoryString.
fn is_directory_string(element: &Any<'_>) -> bool
    ensures { IsTrue result ↔ IsDirectoryString (element_of element.now) }
{
    is_primitive_type(element) && is_directory_string_type(element.tag())
}

/// Returns whether an element is primitive and has a universal type.
fn is_primitive_type(element: &Any<'_>) -> bool
    ensures { IsTrue result ↔ let e = element_of element.now in (e.0 ≡ Class.Universal) × (e.1 ≡ false) }
{
    element.class() == Class::Universal && element.header.is_primitive()
}

fn is_directory_string_type(tag: Tag) -> bool
    ensures { IsTrue result ↔ IsDirectoryStringType tag.0 }
{
    match tag {
        Tag::Utf8String => true,
        Tag::PrintableString => true,
        Tag::T61String => true,
        Tag::UniversalString => true,
        Tag::BmpString => true,
        _ => false,
    }
}
