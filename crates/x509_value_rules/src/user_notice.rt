//! The texts of user notices (RFC 5280 4.2.1.4).
ghost use Rattle.std.specs.Prelude.{◌≡◌, ◌%◌, ◌↔◌, IfSome, IsTrue, length};
ghost use Rattle.std.specs.Option.{option_map};
ghost use Rattle.der_base.specs.Text.{IsTextOf, IsUtf16};
ghost use Rattle.der_cursor.specs.Formats.{element_of};
ghost use Rattle.der_extensions.specs.Notices.{notice_of, reference_of};
ghost use Rattle.x509_value_rules.specs.Notices.{HasDisplayTexts, IsDisplayString, IsDisplayText, IsKeptText};
ghost use Rattle.x509_value_rules.specs.Notices.{IsPrimitiveType};

use der_base::any::Any;
use der_base::header::{Class, Tag};
use der_base::text::{is_utf16, read_text};
use der_extensions::{NoticeReference, UserNotice};

/// Returns whether the texts of a notice are of the four types.
pub(crate) fn has_display_texts(notice: &UserNotice<'_>) -> bool
    ensures { IsTrue result ↔ HasDisplayTexts (notice_of notice.now) }
{
    is_displayed_reference(&notice.reference) && is_displayed_text(&notice.explicit_text)
}

/// Returns whether the organization of a reference is a text of one of the four types, if there is one.
fn is_displayed_reference(reference: &Option<NoticeReference<'_>>) -> bool
    ensures { IsTrue result ↔ IfSome (option_map reference_of reference.now) (λ r. IsDisplayText r.0) }
{
    match reference {
        Some(reference) => is_display_text(&reference.organization),
        None => true,
    }
}

/// Returns whether it is a text of one of the four types, if there is one.
fn is_displayed_text(text: &Option<Any<'_>>) -> bool
    ensures { IsTrue result ↔ IfSome (option_map element_of text.now) IsDisplayText }
{
    match text {
        Some(text) => is_display_text(text),
        None => true,
    }
}

/// Returns whether it is a text of one of the four types.
fn is_display_text(element: &Any<'_>) -> bool
    ensures { IsTrue result ↔ IsDisplayText (element_of element.now) }
{
    is_primitive_type(element) && is_display_string(element.tag(), element.bytes)
}

/// Returns whether it is primitive and has a universal type.
fn is_primitive_type(element: &Any<'_>) -> bool
    ensures { IsTrue result ↔ IsPrimitiveType (element_of element.now) }
{
    element.class() == Class::Universal && element.header.is_primitive()
}

fn is_display_string(tag: Tag, octets: &[u8]) -> bool
    ensures { IsTrue result ↔ IsDisplayString tag.0 octets.now }
{
    is_ascii_or_utf8_text(tag, octets) || is_bmp_text(tag, octets)
}

/// Returns whether it is a UTF8String, IA5String or VisibleString with valid characters.
fn is_ascii_or_utf8_text(tag: Tag, octets: &[u8]) -> bool
    ensures { IsTrue result ↔ (IsKeptText tag.0 × IsTextOf tag.0 octets.now) }
{
    is_kept_text(tag) && is_text_of(tag, octets)
}

/// Returns whether the type is UTF8String, IA5String or VisibleString.
fn is_kept_text(tag: Tag) -> bool
    ensures { IsTrue result ↔ IsKeptText tag.0 }
{
    tag.0 == 12 || tag.0 == 22 || tag.0 == 26
}

/// Returns whether the octets are characters of the type.
pub(crate) fn is_text_of(tag: Tag, octets: &[u8]) -> bool
    requires { IsKeptText tag.0 }
    ensures { IsTrue result ↔ IsTextOf tag.0 octets.now }
{
    match read_text(tag, octets) {
        Some(_) => true,
        None => false,
    }
}

/// Returns whether it is a BMPString with valid characters.
fn is_bmp_text(tag: Tag, octets: &[u8]) -> bool
    ensures { IsTrue result ↔ ((tag.0 ≡ 30) × (length octets.now % 2 ≡ 0) × IsUtf16 octets.now) }
{
    tag.0 == 30 && octets.len() % 2 == 0 && is_utf16(octets)
}
