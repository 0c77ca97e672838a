//! Fields inside explicit tags (RFC 4120 5.4.1).
ghost use Rattle.std.specs.Prelude.{pos, true};
ghost use Rattle.der_base.specs.declared.header.Class.{Class};
ghost use Rattle.der_cursor.specs.Cursors.{OpensAt};
ghost use Rattle.der_cursor.specs.Formats.{Constructed, Explicit, Never, Octets, Only, Opens, OptionalTagged};
ghost use Rattle.der_cursor.specs.Formats.{ReadsContent, ReadsField, Required, Sequence};
ghost use Rattle.messages.specs.Kerberos.Requests.{Exactly, Int32, KdcOptions, KerberosTime, Realm, UInt32};

use der_base::error::BerError;
use der_base::header::{Class, Tag};
use der_base::time::ASN1DateTime;
use der_cursor::{Cursor, ReadError};
use der_values::BitString;

/// Opens a SEQUENCE inside a tag of this class and number, with nothing after it.
pub(crate) fn open_last<'a>(
    mut fields: Cursor<'a>,
    class: Class,
    number: u32,
) -> Result<Cursor<'a>, ReadError<BerError>>
    ensures { Opens (Only (Required (Constructed class number (Only (Required (Sequence Octets))))))
        fields.entry result }
{
    let inside = fields.open(class, true, Tag(number))?;
    fields.end()?;
    open_sequence_alone(inside)
}

/// Opens a SEQUENCE with nothing after it.
pub(crate) fn open_sequence_alone<'a>(
    mut fields: Cursor<'a>,
) -> Result<Cursor<'a>, ReadError<BerError>>
    ensures { Opens (Only (Required (Sequence Octets))) fields.entry result }
{
    let inside = fields.open_sequence()?;
    fields.end()?;
    Ok(inside)
}

/// Opens a required field.
pub(crate) fn open_field<'a>(
    fields: &mut Cursor<'a>,
    number: u32,
) -> Result<Cursor<'a>, ReadError<BerError>>
    ensures { OpensAt Class.ContextSpecific true number fields.old result fields.new }
{
    fields.open(Class::ContextSpecific, true, Tag(number))
}

/// Reads a number that has to be `value`.
pub(crate) fn check_number(
    fields: &mut Cursor<'_>,
    number: u32,
    value: u32,
) -> Result<(), ReadError<BerError>>
    ensures { ReadsField (Required (Explicit number (Required (Exactly value)))) (λ _. pos value) Never
        fields.old result fields.new }
{
    let mut field = open_field(fields, number)?;
    check_value(&mut field, value)?;
    field.end()
}

fn check_value(field: &mut Cursor<'_>, value: u32) -> Result<(), ReadError<BerError>>
    ensures { ReadsField (Required (Exactly value)) (λ _. pos value) Never field.old result field.new }
{
    let before = *field;
    let read = field.u32()?;
    if read != value {
        return Err(before.refuse(BerError::BerValueError));
    }
    Ok(())
}

pub(crate) fn read_options<'a>(body: &mut Cursor<'a>) -> Result<BitString<'a>, ReadError<BerError>>
    ensures { ReadsField (Required (Explicit 0 (Required KdcOptions))) (λ x. (x.unused, x.octets.now)) Never
        body.old result body.new }
{
    let mut field = open_field(body, 0)?;
    let options = field.bits()?;
    field.end()?;
    Ok(options)
}

pub(crate) fn read_realm<'a>(body: &mut Cursor<'a>) -> Result<&'a str, ReadError<BerError>>
    ensures { ReadsField (Required (Explicit 2 (Required Realm))) (λ x. x.now) Never body.old result body.new }
{
    let mut field = open_field(body, 2)?;
    let realm = field.general_string()?;
    field.end()?;
    Ok(realm)
}

pub(crate) fn read_nonce(body: &mut Cursor<'_>) -> Result<u32, ReadError<BerError>>
    ensures { ReadsField (Required (Explicit 7 (Required UInt32))) pos Never body.old result body.new }
{
    let mut field = open_field(body, 7)?;
    let nonce = field.u32()?;
    field.end()?;
    Ok(nonce)
}

pub(crate) fn read_name_kind(fields: &mut Cursor<'_>) -> Result<i32, ReadError<BerError>>
    ensures { ReadsField (Required (Explicit 0 (Required Int32))) (λ n. n) Never fields.old result fields.new }
{
    let mut field = open_field(fields, 0)?;
    let kind = field.i32()?;
    field.end()?;
    Ok(kind)
}

pub(crate) fn read_till(body: &mut Cursor<'_>) -> Result<ASN1DateTime, ReadError<BerError>>
    ensures { ReadsField (Required (Explicit 5 (Required KerberosTime))) (λ t. t) Never body.old result body.new }
{
    read_last_time(open_field(body, 5)?)
}

/// Reads a time under this tag, if it is next.
pub(crate) fn read_time(
    body: &mut Cursor<'_>,
    number: u8,
) -> Result<Option<ASN1DateTime>, ReadError<BerError>>
    ensures { ReadsField (OptionalTagged number (Only (Required KerberosTime))) (λ x. x) Never
        body.old result body.new }
{
    match body.open_tagged(number)? {
        Some(field) => Ok(Some(read_last_time(field)?)),
        None => Ok(None),
    }
}

fn read_last_time(mut field: Cursor<'_>) -> Result<ASN1DateTime, ReadError<BerError>>
    ensures { ReadsContent (Only (Required KerberosTime)) (λ t. t) Never field.entry result }
{
    let time = field.generalized_time()?;
    field.end()?;
    Ok(time)
}
