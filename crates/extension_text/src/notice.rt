//! User notices in policy qualifiers (RFC 5280 4.2.1.4).
ghost use Rattle.std.specs.Prelude.{◌≡◌, ◌↔◌, IsTrue, Some};
ghost use Rattle.std.specs.Fmt.{DisplaysOnOk};
ghost use Rattle.std.specs.Option.{option_map};
ghost use Rattle.der_cursor.specs.Elements.{element_of};
ghost use Rattle.der_cursor.specs.Formats.{Integer, Never, ReadsField, Required};
ghost use Rattle.der_extensions.specs.Extensions.{qualifier_of};
ghost use Rattle.der_extensions.specs.Notices.{notice_of, reference_of, user_notice};
ghost use Rattle.der_print.specs.Writes.{WritesOne};
ghost use Rattle.der_values.specs.Kinds.{borrowed_octets};
ghost use Rattle.extension_text.specs.Notices.{AreNumbers, FindsNumber, IsDetail, IsNoticeDetail, IsNoticeText};
ghost use Rattle.extension_text.specs.Notices.{IsOptionalReference, IsReferenceText, detail_text};

use crate::names::element::AnyValue;
use crate::names::lines::{write_number, write_optional_any};
use der_base::any::Any;
use der_base::error::BerError;
use der_cursor::{Cursor, ReadError};
use der_extensions::{
    NoticeReference, PolicyQualifierInfo, USER_NOTICE, UserNotice, read_user_notice,
};
use der_values::ObjectIdentifier;
use std::fmt;
use x509::absolute_octets;

/// Writes the value of a qualifier, after its identifier.
pub(crate) fn write_detail<W: fmt::Write>(
    f: &mut fmt::Formatter<W>,
    info: &PolicyQualifierInfo<'_>,
) -> fmt::Result
    ensures { WritesOne W.Write.write_str_gives f.old result (IsDetail (qualifier_of info.now)) f.new }
{
    if is_user_notice(&info.policy_qualifier_id) {
        return write_notice_detail(f, info.qualifier);
    }
    write_other_detail(f, info.qualifier)
}

fn is_user_notice(identifier: &ObjectIdentifier<'_>) -> bool
    ensures { IsTrue result ↔ (borrowed_octets identifier.now ≡ user_notice) }
{
    absolute_octets(identifier) == USER_NOTICE
}

/// Writes a notice, or a value that isn't one.
fn write_notice_detail<W: fmt::Write>(f: &mut fmt::Formatter<W>, element: Any<'_>) -> fmt::Result
    ensures { WritesOne W.Write.write_str_gives f.old result (IsNoticeDetail (element_of element.entry)) f.new }
{
    match read_user_notice(&element) {
        Ok(notice) => write_notice(f, notice),
        Err(_) => write_other_detail(f, element),
    }
}

/// Writes a value of any type.
fn write_other_detail<W: fmt::Write>(f: &mut fmt::Formatter<W>, element: Any<'_>) -> fmt::Result
    ensures { DisplaysOnOk W.Write.write_str_gives f.old result (Some (detail_text (element_of element.entry))) f.new }
{
    write!(f, ", {}\n", AnyValue { element })
}

fn write_notice<W: fmt::Write>(f: &mut fmt::Formatter<W>, notice: UserNotice<'_>) -> fmt::Result
    ensures { WritesOne W.Write.write_str_gives f.old result (IsNoticeText (notice_of notice.entry)) f.new }
{
    f.write_str("\n")?;
    write_optional_reference(f, notice.reference)?;
    write_optional_any(f, "          Explicit text: ", notice.explicit_text)
}

fn write_optional_reference<W: fmt::Write>(
    f: &mut fmt::Formatter<W>,
    reference: Option<NoticeReference<'_>>,
) -> fmt::Result
    ensures { WritesOne W.Write.write_str_gives f.old result
        (IsOptionalReference (option_map reference_of reference.entry)) f.new }
{
    match reference {
        Some(reference) => write_reference(f, reference),
        None => Ok(()),
    }
}

fn write_reference<W: fmt::Write>(
    f: &mut fmt::Formatter<W>,
    reference: NoticeReference<'_>,
) -> fmt::Result
    ensures { WritesOne W.Write.write_str_gives f.old result (IsReferenceText (reference_of reference.entry)) f.new }
{
    let element = reference.organization;
    write!(f, "          Organization: {}\n", AnyValue { element })?;
    write_numbers(f, reference.numbers)
}

/// Writes a line for each INTEGER.
fn write_numbers<W: fmt::Write>(f: &mut fmt::Formatter<W>, octets: &[u8]) -> fmt::Result
    ensures { WritesOne W.Write.write_str_gives f.old result (AreNumbers octets.now) f.new }
{
    let mut left = octets;
    while let Some((number, rest)) = first_number(left) {
        write_number(f, "          Number: ", number)?;
        left = rest;
    }
    Ok(())
}

/// The content octets of the first INTEGER, and the octets after it.
fn first_number(octets: &[u8]) -> Option<(&[u8], &[u8])>
    ensures { FindsNumber octets.now result }
{
    let mut list = Cursor::new(octets);
    let Ok(number) = read_number(&mut list) else {
        return None;
    };
    Some((number, list.remaining()))
}

fn read_number<'a>(list: &mut Cursor<'a>) -> Result<&'a [u8], ReadError<BerError>>
    ensures { ReadsField (Required Integer) (λ x. x.now) Never list.old result list.new }
{
    list.integer()
}
