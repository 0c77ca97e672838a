//! SubjectDirectoryAttributes: attributes of the subject (RFC 5280 4.2.1.8).
ghost use Rattle.der_base.specs.declared.rules.Rules.{Rules};
ghost use Rattle.der_cursor.specs.Formats.{Never, ReadsField, ReadsInput, Required};
ghost use Rattle.der_extensions.specs.Lists.{list_octets};
ghost use Rattle.der_extensions.specs.PolicyExtensions.{AttributeValues, DirectoryAttribute as AttributeFormat};
ghost use Rattle.der_extensions.specs.PolicyExtensions.{SubjectDirectoryAttributes as AttributesFormat};
ghost use Rattle.der_extensions.specs.PolicyExtensions.{directory_attribute_of};

use crate::list::{Item, SequenceOf, read_list, read_some};
use der_base::any::Any;
use der_base::error::BerError;
use der_base::header::{Class, Tag};
use der_cursor::{Cursor, ReadError};
use der_values::ObjectIdentifier;

/// At least one attribute.
pub type SubjectDirectoryAttributes<'a> = SequenceOf<'a, DirectoryAttribute<'a>>;

/// An attribute of the subject, such as the nationality.
#[derive(Drop)]
pub struct DirectoryAttribute<'a> {
    pub identifier: ObjectIdentifier<'a>,
    /// At least one value, of the type that the identifier names. Neither their contents nor their order is checked.
    pub values: SequenceOf<'a, Any<'a>>,
}

/// Reads the value of a SubjectDirectoryAttributes by DER: at least one attribute. Trailing data is an error. An
/// attribute may come twice.
pub fn read_subject_directory_attributes(
    octets: &[u8],
) -> Result<SubjectDirectoryAttributes<'_>, ReadError<BerError>>
    ensures { ReadsInput Rules.Der AttributesFormat list_octets Never octets.now result }
{
    match read_list::<DirectoryAttribute<'_>, BerError>(octets) {
        Ok(attributes) => Ok(attributes),
        Err(e) => Err(e.of_element(Cursor::new(octets), Class::Universal, true, Tag::Sequence)),
    }
}

impl<'a> Item<'a, BerError> for DirectoryAttribute<'a> {
    ghost use Rattle.der_cursor.specs.Formats.{Required};
    ghost use Rattle.der_cursor.proofs.FormatLaws.{required_takes};
    ghost use Rattle.der_extensions.specs.PolicyExtensions.{DirectoryAttribute as AttributeFormat};
    ghost use Rattle.der_extensions.specs.PolicyExtensions.{DirectoryAttributeValue, directory_attribute_of};

    ghost Value = { DirectoryAttributeValue };

    ghost field = { Required AttributeFormat };

    ghost view = { directory_attribute_of };

    fn read(list: &mut Cursor<'a>) -> Result<DirectoryAttribute<'a>, ReadError<BerError>> {
        read_attribute(list)
    }

    ghost takes = { required_takes AttributeFormat };
}

fn read_attribute<'a>(list: &mut Cursor<'a>) -> Result<DirectoryAttribute<'a>, ReadError<BerError>>
    ensures { ReadsField (Required AttributeFormat) directory_attribute_of Never list.old result list.new }
{
    let mut fields = list.open_sequence()?;
    let identifier = fields.oid()?;
    let values = read_values(&mut fields)?;
    fields.end()?;
    Ok(DirectoryAttribute { identifier, values })
}

/// Reads a SET OF with at least one value.
fn read_values<'a>(fields: &mut Cursor<'a>) -> Result<SequenceOf<'a, Any<'a>>, ReadError<BerError>>
    ensures { ReadsField (Required AttributeValues) list_octets Never fields.old result fields.new }
{
    read_some(fields, Class::Universal, Tag::Set)
}

impl<'a> Item<'a, BerError> for Any<'a> {
    ghost use Rattle.der_cursor.specs.Formats.{AnyElement, Element, element_of};
    ghost use Rattle.der_extensions.specs.Takes.{any_takes};

    ghost Value = { Element };

    ghost field = { AnyElement };

    ghost view = { element_of };

    fn read(values: &mut Cursor<'a>) -> Result<Any<'a>, ReadError<BerError>> {
        values.any()
    }

    ghost takes = { any_takes };
}
