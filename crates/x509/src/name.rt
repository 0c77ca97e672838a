//! Names (RFC 5280 4.1.2.4).
ghost use Rattle.std.specs.Prelude.{OnOk};
ghost use Rattle.x509.specs.Certificates.{attribute, attribute_of, attributes_to_end, name, relative_name};
ghost use Rattle.x509.specs.Formats.{list_of};
ghost use Rattle.x509.specs.Readers.{IsShorter, ReadsBy, ReadsToEnd, fault_of};

use der_base::any::Any;
use der_base::error::BerError;
use der_cursor::{Cursor, ReadError};
use der_values::ObjectIdentifier;

/// A distinguished name, as its checked octets.
#[derive(Clone, Copy)]
pub struct Name<'a> {
    /// The encodings of the relative names, one after another.
    pub octets: &'a [u8],
}

/// A relative name: a set of attributes, as its checked octets.
#[derive(Clone, Copy)]
pub struct RelativeDistinguishedName<'a> {
    /// The encodings of the attributes, one after another.
    pub octets: &'a [u8],
}

/// An attribute.
#[derive(Drop)]
pub struct AttributeTypeAndValue<'a> {
    /// Its type.
    pub identifier: ObjectIdentifier<'a>,
    /// The value, of any ASN.1 type. Only `Rule::DerValues` checks its content.
    pub value: Any<'a>,
}

/// Reads a Name.
pub fn read_name<'a>(fields: &mut Cursor<'a>) -> Result<Name<'a>, ReadError<BerError>>
    ensures { ReadsBy fault_of (λ n. n.octets.now) name fields.old result fields.new }
{
    let names = fields.open_sequence()?;
    check_relative_names(names)?;
    Ok(Name {
        octets: names.remaining(),
    })
}

/// Reads relative names to the end of a list.
fn check_relative_names(mut names: Cursor<'_>) -> Result<(), ReadError<BerError>>
    ensures { ReadsToEnd fault_of (λ u. u) (list_of relative_name) names.entry result }
{
    while !names.is_empty() {
        read_relative_name(&mut names)?;
    }
    Ok(())
}

/// Reads a RelativeDistinguishedName.
fn read_relative_name<'a>(
    names: &mut Cursor<'a>,
) -> Result<RelativeDistinguishedName<'a>, ReadError<BerError>>
    ensures reads { ReadsBy fault_of (λ n. n.octets.now) relative_name names.old result names.new }
    ensures shorter { OnOk result (IsShorter names.old names.new) }
{
    let attributes = names.open_set()?;
    check_attributes(attributes)?;
    Ok(RelativeDistinguishedName {
        octets: attributes.remaining(),
    })
}

/// Reads attributes to the end of a set, at least one.
fn check_attributes(mut attributes: Cursor<'_>) -> Result<(), ReadError<BerError>>
    ensures { ReadsToEnd fault_of (λ u. u) attributes_to_end attributes.entry result }
{
    if attributes.is_empty() {
        return Err(attributes.refuse(BerError::BerValueError));
    }
    while !attributes.is_empty() {
        read_attribute(&mut attributes)?;
    }
    Ok(())
}

/// Reads an AttributeTypeAndValue.
pub(crate) fn read_attribute<'a>(
    attributes: &mut Cursor<'a>,
) -> Result<AttributeTypeAndValue<'a>, ReadError<BerError>>
    ensures reads { ReadsBy fault_of attribute_of attribute attributes.old result attributes.new }
    ensures shorter { OnOk result (IsShorter attributes.old attributes.new) }
{
    let mut parts = attributes.open_sequence()?;
    let identifier = parts.oid()?;
    let value = parts.any()?;
    parts.end()?;
    Ok(AttributeTypeAndValue { identifier, value })
}
