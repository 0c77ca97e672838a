//! User notices: qualifiers of policies (RFC 5280 4.2.1.4).
ghost use Rattle.std.specs.Prelude.{◌↔◌, IsTrue};
ghost use Rattle.std.specs.Option.{option_map};
ghost use Rattle.der_cursor.specs.Elements.{element_of};
ghost use Rattle.der_cursor.specs.Formats.{AnyElement, IfLeft, Never, Optional, ReadsContent, ReadsField, ReadsWhole};
ghost use Rattle.der_cursor.specs.Formats.{Required};
ghost use Rattle.der_extensions.specs.Notices.{IsSequence, IsUserNotice, NoticeReference as ReferenceFormat};
ghost use Rattle.der_extensions.specs.Notices.{UserNotice as NoticeFormat, notice_of, reference_of};

use der_base::any::Any;
use der_base::error::BerError;
use der_base::header::{Class, Tag};
use der_cursor::{Cursor, ReadError};

/// id-qt-unotice: 1.3.6.1.5.5.7.2.2.
pub const USER_NOTICE: &[u8] = b"\x2b\x06\x01\x05\x05\x07\x02\x02";

/// A notice to show to whoever uses a certificate.
#[derive(Clone, Copy)]
pub struct UserNotice<'a> {
    pub reference: Option<NoticeReference<'a>>,
    /// A text, or any other element.
    pub explicit_text: Option<Any<'a>>,
}

/// Notices of an organization, by their numbers.
#[derive(Clone, Copy)]
pub struct NoticeReference<'a> {
    /// A text, or any other element.
    pub organization: Any<'a>,
    /// INTEGERs, one after another.
    pub numbers: &'a [u8],
}

/// Reads a qualifier as a user notice, by DER. Which types its texts have isn't checked.
pub fn read_user_notice<'a>(element: &Any<'a>) -> Result<UserNotice<'a>, ReadError<BerError>>
    ensures { ReadsWhole (IsUserNotice (element_of element.now)) notice_of Never result }
{
    let content = Cursor::new(element.bytes);
    if !is_sequence(element) {
        return Err(content.refuse(BerError::BerValueError));
    }
    read_content(content)
}

fn is_sequence(element: &Any<'_>) -> bool
    ensures { IsTrue result ↔ IsSequence (element_of element.now) }
{
    element.class() == Class::Universal
        && element.header.constructed()
        && element.tag() == Tag::Sequence
}

/// Reads the content of a UserNotice.
fn read_content(content: Cursor<'_>) -> Result<UserNotice<'_>, ReadError<BerError>>
    ensures { ReadsContent NoticeFormat notice_of Never content.entry result }
{
    let mut fields = content;
    let reference = read_optional_reference(&mut fields)?;
    let explicit_text = read_optional_text(&mut fields)?;
    fields.end()?;
    Ok(UserNotice {
        reference,
        explicit_text,
    })
}

fn read_optional_reference<'a>(
    fields: &mut Cursor<'a>,
) -> Result<Option<NoticeReference<'a>>, ReadError<BerError>>
    ensures { ReadsField (Optional ReferenceFormat) (λ x. option_map reference_of x) Never
        fields.old result fields.new }
{
    if !fields.is_next(Class::Universal, Tag::Sequence) {
        return Ok(None);
    }
    let reference = read_reference(fields)?;
    Ok(Some(reference))
}

fn read_reference<'a>(fields: &mut Cursor<'a>) -> Result<NoticeReference<'a>, ReadError<BerError>>
    ensures { ReadsField (Required ReferenceFormat) reference_of Never fields.old result fields.new }
{
    let mut parts = fields.open_sequence()?;
    let organization = parts.any()?;
    let numbers = parts.open_sequence()?;
    parts.end()?;
    Ok(NoticeReference {
        organization,
        numbers: numbers.remaining(),
    })
}

/// Reads an element of any type, if octets are left.
fn read_optional_text<'a>(fields: &mut Cursor<'a>) -> Result<Option<Any<'a>>, ReadError<BerError>>
    ensures { ReadsField (IfLeft AnyElement) (λ x. option_map element_of x) Never fields.old result fields.new }
{
    if fields.is_empty() {
        return Ok(None);
    }
    Ok(Some(fields.any()?))
}
