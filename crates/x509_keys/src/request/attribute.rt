//! Attributes of a request (RFC 2986 4.1).
ghost use Rattle.std.specs.Prelude.{OnOk};
ghost use Rattle.der_cursor.specs.Elements.{element_of};
ghost use Rattle.x509_keys.specs.Request.Requests.{attribute, attribute_of, attributes, values, values_to_end};
ghost use Rattle.x509.specs.Formats.{any, list_of};
ghost use Rattle.x509.specs.Readers.{IsShorter, ReadsBy, ReadsToEnd, fault_of};

use der_base::any::Any;
use der_base::error::BerError;
use der_base::header::{Class, Tag};
use der_cursor::{Cursor, ReadError};
use der_values::ObjectIdentifier;

/// The attributes of a CSR, as their checked octets.
#[derive(Clone, Copy)]
pub struct Attributes<'a> {
    /// The encodings of the attributes, one after another.
    pub octets: &'a [u8],
}

/// An attribute.
#[derive(Drop)]
pub struct Attribute<'a> {
    /// The type of the attribute.
    pub identifier: ObjectIdentifier<'a>,
    pub values: Values<'a>,
}

/// The values of an attribute, at least one, as their checked octets.
#[derive(Clone, Copy)]
pub struct Values<'a> {
    /// The encodings of the values, one after another.
    pub octets: &'a [u8],
}

/// Reads the attributes of a CSR.
pub(crate) fn read_attributes<'a>(
    fields: &mut Cursor<'a>,
) -> Result<Attributes<'a>, ReadError<BerError>>
    ensures { ReadsBy fault_of (λ a. a.octets.now) attributes fields.old result fields.new }
{
    let list = fields.open(Class::ContextSpecific, true, Tag(0))?;
    check_attributes(list)?;
    Ok(Attributes {
        octets: list.remaining(),
    })
}

/// Reads attributes to the end of a set.
fn check_attributes(mut list: Cursor<'_>) -> Result<(), ReadError<BerError>>
    ensures { ReadsToEnd fault_of (λ u. u) (list_of attribute) list.entry result }
{
    while !list.is_empty() {
        read_attribute(&mut list)?;
    }
    Ok(())
}

/// Reads an Attribute.
pub(crate) fn read_attribute<'a>(
    list: &mut Cursor<'a>,
) -> Result<Attribute<'a>, ReadError<BerError>>
    ensures reads { ReadsBy fault_of attribute_of attribute list.old result list.new }
    ensures shorter { OnOk result (IsShorter list.old list.new) }
{
    let mut parts = list.open_sequence()?;
    let identifier = parts.oid()?;
    let values = read_values(&mut parts)?;
    parts.end()?;
    Ok(Attribute { identifier, values })
}

/// Reads the values of an attribute.
fn read_values<'a>(parts: &mut Cursor<'a>) -> Result<Values<'a>, ReadError<BerError>>
    ensures { ReadsBy fault_of (λ v. v.octets.now) values parts.old result parts.new }
{
    let list = parts.open_set()?;
    check_values(list)?;
    Ok(Values {
        octets: list.remaining(),
    })
}

/// Reads values to the end of a set, at least one.
fn check_values(mut list: Cursor<'_>) -> Result<(), ReadError<BerError>>
    ensures { ReadsToEnd fault_of (λ u. u) values_to_end list.entry result }
{
    if list.is_empty() {
        return Err(list.refuse(BerError::BerValueError));
    }
    while !list.is_empty() {
        read_value(&mut list)?;
    }
    Ok(())
}

/// Reads a value: an element of any type. Its content isn't checked.
pub(crate) fn read_value<'a>(list: &mut Cursor<'a>) -> Result<Any<'a>, ReadError<BerError>>
    ensures reads { ReadsBy fault_of element_of any list.old result list.new }
    ensures shorter { OnOk result (IsShorter list.old list.new) }
{
    list.any()
}
