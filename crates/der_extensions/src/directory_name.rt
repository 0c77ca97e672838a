//! Distinguished names (RFC 5280 4.1.2.4), whose readers have the contracts of fields.
ghost use Rattle.der_cursor.specs.Formats.{Never, ReadsField, Required};
ghost use Rattle.der_extensions.specs.GeneralNames.{AttributeTypeAndValue as AttributeFormat, Name as NameFormat};
ghost use Rattle.der_extensions.specs.GeneralNames.{RelativeDistinguishedName as RelativeFormat, attribute_of};

use crate::list::{Item, read_items, read_some};
use der_base::error::BerError;
use der_base::header::{Class, Tag};
use der_cursor::{Cursor, ReadError};
use x509::{AttributeTypeAndValue, Name, RelativeDistinguishedName};

/// Reads a Name.
pub(crate) fn read_name<'a>(fields: &mut Cursor<'a>) -> Result<Name<'a>, ReadError<BerError>>
    ensures { ReadsField (Required NameFormat) (λ n. n.octets.now) Never fields.old result fields.new }
{
    let octets = read_items::<RelativeDistinguishedName<'a>, BerError>(
        fields,
        Class::Universal,
        Tag::Sequence,
    )?;
    Ok(Name { octets })
}

impl<'a> Item<'a, BerError> for RelativeDistinguishedName<'a> {
    ghost use Rattle.std.specs.Prelude.{List, ℕ};
    ghost use Rattle.der_cursor.specs.Formats.{Required};
    ghost use Rattle.der_cursor.proofs.FormatLaws.{required_takes};
    ghost use Rattle.der_extensions.specs.GeneralNames.{RelativeDistinguishedName as RelativeFormat};

    ghost Value = { List ℕ };

    ghost field = { Required RelativeFormat };

    ghost view = { λ n. n.octets.now };

    fn read(names: &mut Cursor<'a>) -> Result<RelativeDistinguishedName<'a>, ReadError<BerError>> {
        read_relative_name(names)
    }

    ghost takes = { required_takes RelativeFormat };
}

/// Reads a RelativeDistinguishedName.
pub(crate) fn read_relative_name<'a>(
    names: &mut Cursor<'a>,
) -> Result<RelativeDistinguishedName<'a>, ReadError<BerError>>
    ensures { ReadsField (Required RelativeFormat) (λ n. n.octets.now) Never names.old result names.new }
{
    let list = read_some::<AttributeTypeAndValue<'a>, BerError>(names, Class::Universal, Tag::Set)?;
    Ok(RelativeDistinguishedName {
        octets: list.octets,
    })
}

impl<'a> Item<'a, BerError> for AttributeTypeAndValue<'a> {
    ghost use Rattle.der_cursor.specs.Formats.{Required};
    ghost use Rattle.der_cursor.proofs.FormatLaws.{required_takes};
    ghost use Rattle.der_extensions.specs.GeneralNames.{AttributeTypeAndValue as AttributeFormat};
    ghost use Rattle.der_extensions.specs.GeneralNames.{AttributeValue, attribute_of};

    ghost Value = { AttributeValue };

    ghost field = { Required AttributeFormat };

    ghost view = { attribute_of };

    fn read(attributes: &mut Cursor<'a>) -> Result<AttributeTypeAndValue<'a>, ReadError<BerError>> {
        read_attribute(attributes)
    }

    ghost takes = { required_takes AttributeFormat };
}

/// Reads an AttributeTypeAndValue.
fn read_attribute<'a>(
    attributes: &mut Cursor<'a>,
) -> Result<AttributeTypeAndValue<'a>, ReadError<BerError>>
    ensures { ReadsField (Required AttributeFormat) attribute_of Never attributes.old result attributes.new }
{
    let mut parts = attributes.open_sequence()?;
    let identifier = parts.oid()?;
    let value = parts.any()?;
    parts.end()?;
    Ok(AttributeTypeAndValue { identifier, value })
}
