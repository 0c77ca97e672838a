//! AuthorityInfoAccess and SubjectInfoAccess: where there is more about an issuer or a subject (RFC 5280 4.2.2.1,
//! 4.2.2.2).
ghost use Rattle.der_base.specs.declared.rules.Rules.{Rules};
ghost use Rattle.der_cursor.specs.Formats.{Never, ReadsField, ReadsInput, Required};
ghost use Rattle.der_extensions.specs.Extensions.{AccessDescription as AccessFormat, AuthorityInfoAccessSyntax};
ghost use Rattle.der_extensions.specs.Extensions.{access_of};
ghost use Rattle.der_extensions.specs.Lists.{list_octets};

use crate::general_name::{GeneralName, read_general_name};
use crate::list::{Item, SequenceOf, read_list};
use der_base::error::BerError;
use der_base::header::{Class, Tag};
use der_cursor::{Cursor, ReadError};
use der_values::ObjectIdentifier;

/// At least one description.
pub type InformationAccess<'a> = SequenceOf<'a, AccessDescription<'a>>;

/// A kind of information, and where it is found.
#[derive(Drop)]
pub struct AccessDescription<'a> {
    pub access_method: ObjectIdentifier<'a>,
    pub access_location: GeneralName<'a>,
}

/// Reads the value of an AuthorityInfoAccess or a SubjectInfoAccess by DER: at least one description. Trailing data is
/// an error.
pub fn read_information_access(octets: &[u8]) -> Result<InformationAccess<'_>, ReadError<BerError>>
    ensures { ReadsInput Rules.Der AuthorityInfoAccessSyntax list_octets Never octets.now result }
{
    match read_list::<AccessDescription<'_>, BerError>(octets) {
        Ok(descriptions) => Ok(descriptions),
        Err(e) => Err(e.of_element(Cursor::new(octets), Class::Universal, true, Tag::Sequence)),
    }
}

impl<'a> Item<'a, BerError> for AccessDescription<'a> {
    ghost use Rattle.der_cursor.specs.Formats.{Required};
    ghost use Rattle.der_cursor.proofs.FormatLaws.{required_takes};
    ghost use Rattle.der_extensions.specs.Extensions.{AccessDescription as AccessFormat, AccessValue, access_of};

    ghost Value = { AccessValue };

    ghost field = { Required AccessFormat };

    ghost view = { access_of };

    fn read(list: &mut Cursor<'a>) -> Result<AccessDescription<'a>, ReadError<BerError>> {
        read_access_description(list)
    }

    ghost takes = { required_takes AccessFormat };
}

fn read_access_description<'a>(
    list: &mut Cursor<'a>,
) -> Result<AccessDescription<'a>, ReadError<BerError>>
    ensures { ReadsField (Required AccessFormat) access_of Never list.old result list.new }
{
    let mut fields = list.open_sequence()?;
    let access_method = fields.oid()?;
    let access_location = read_general_name(&mut fields)?;
    fields.end()?;
    Ok(AccessDescription {
        access_method,
        access_location,
    })
}
