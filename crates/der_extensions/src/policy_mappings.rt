//! PolicyMappings: policies that an issuer takes to be the same (RFC 5280 4.2.1.5).
ghost use Rattle.der_base.specs.declared.rules.Rules.{Rules};
ghost use Rattle.der_cursor.specs.Formats.{Never, ReadsField, ReadsInput, Required};
ghost use Rattle.der_extensions.specs.Lists.{list_octets};
ghost use Rattle.der_extensions.specs.PolicyExtensions.{PolicyMapping as MappingFormat, mapping_of};
ghost use Rattle.der_extensions.specs.PolicyExtensions.{PolicyMappings as MappingsFormat};

use crate::list::{Item, SequenceOf, read_list};
use der_base::error::BerError;
use der_base::header::{Class, Tag};
use der_cursor::{Cursor, ReadError};
use der_values::ObjectIdentifier;

/// At least one pair of policies.
pub type PolicyMappings<'a> = SequenceOf<'a, PolicyMapping<'a>>;

/// A policy of the issuer, and the policy of the subject that is equivalent to it.
#[derive(Drop)]
pub struct PolicyMapping<'a> {
    pub issuer_domain_policy: ObjectIdentifier<'a>,
    pub subject_domain_policy: ObjectIdentifier<'a>,
}

/// Reads the value of a PolicyMappings by DER: at least one pair of policies. Trailing data is an error. A pair with
/// anyPolicy is allowed.
pub fn read_policy_mappings(octets: &[u8]) -> Result<PolicyMappings<'_>, ReadError<BerError>>
    ensures { ReadsInput Rules.Der MappingsFormat list_octets Never octets.now result }
{
    match read_list::<PolicyMapping<'_>, BerError>(octets) {
        Ok(mappings) => Ok(mappings),
        Err(e) => Err(e.of_element(Cursor::new(octets), Class::Universal, true, Tag::Sequence)),
    }
}

impl<'a> Item<'a, BerError> for PolicyMapping<'a> {
    ghost use Rattle.der_cursor.specs.Formats.{Required};
    ghost use Rattle.der_cursor.proofs.FormatLaws.{required_takes};
    ghost use Rattle.der_extensions.specs.PolicyExtensions.{MappingValue, PolicyMapping as MappingFormat, mapping_of};

    ghost Value = { MappingValue };

    ghost field = { Required MappingFormat };

    ghost view = { mapping_of };

    fn read(list: &mut Cursor<'a>) -> Result<PolicyMapping<'a>, ReadError<BerError>> {
        read_mapping(list)
    }

    ghost takes = { required_takes MappingFormat };
}

fn read_mapping<'a>(list: &mut Cursor<'a>) -> Result<PolicyMapping<'a>, ReadError<BerError>>
    ensures { ReadsField (Required MappingFormat) mapping_of Never list.old result list.new }
{
    let mut fields = list.open_sequence()?;
    let issuer_domain_policy = fields.oid()?;
    let subject_domain_policy = fields.oid()?;
    fields.end()?;
    Ok(PolicyMapping {
        issuer_domain_policy,
        subject_domain_policy,
    })
}
