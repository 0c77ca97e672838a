//! CertificatePolicies: the policies under which a certificate was issued (RFC 5280 4.2.1.4).
ghost use Rattle.std.specs.Option.{option_map};
ghost use Rattle.der_base.specs.declared.rules.Rules.{Rules};
ghost use Rattle.der_cursor.specs.Formats.{Never, Optional, ReadsField, ReadsInput, Required};
ghost use Rattle.der_extensions.specs.Extensions.{CertificatePolicies as PoliciesFormat};
ghost use Rattle.der_extensions.specs.Extensions.{PolicyInformation as PolicyFormat, PolicyQualifiers};
ghost use Rattle.der_extensions.specs.Extensions.{PolicyQualifierInfo as QualifierFormat, policy_of, qualifier_of};
ghost use Rattle.der_extensions.specs.Lists.{list_octets};

use crate::list::{Item, SequenceOf, read_list, read_optional};
use der_base::any::Any;
use der_base::error::BerError;
use der_base::header::{Class, Tag};
use der_cursor::{Cursor, ReadError};
use der_values::ObjectIdentifier;

/// At least one policy.
pub type CertificatePolicies<'a> = SequenceOf<'a, PolicyInformation<'a>>;

/// A policy.
#[derive(Drop)]
pub struct PolicyInformation<'a> {
    pub policy_identifier: ObjectIdentifier<'a>,
    /// At least one, if present.
    pub policy_qualifiers: Option<SequenceOf<'a, PolicyQualifierInfo<'a>>>,
}

/// A qualifier of a policy, such as where its statement is published.
#[derive(Drop)]
pub struct PolicyQualifierInfo<'a> {
    pub policy_qualifier_id: ObjectIdentifier<'a>,
    /// A value whose type the identifier names. Its content isn't checked.
    pub qualifier: Any<'a>,
}

/// Reads the value of a CertificatePolicies by DER: at least one policy. Trailing data is an error. A policy may come
/// twice.
pub fn read_certificate_policies(
    octets: &[u8],
) -> Result<CertificatePolicies<'_>, ReadError<BerError>>
    ensures { ReadsInput Rules.Der PoliciesFormat list_octets Never octets.now result }
{
    match read_list::<PolicyInformation<'_>, BerError>(octets) {
        Ok(policies) => Ok(policies),
        Err(e) => Err(e.of_element(Cursor::new(octets), Class::Universal, true, Tag::Sequence)),
    }
}

impl<'a> Item<'a, BerError> for PolicyInformation<'a> {
    ghost use Rattle.der_cursor.specs.Formats.{Required};
    ghost use Rattle.der_cursor.proofs.FormatLaws.{required_takes};
    ghost use Rattle.der_extensions.specs.Extensions.{PolicyInformation as PolicyFormat, PolicyValue, policy_of};

    ghost Value = { PolicyValue };

    ghost field = { Required PolicyFormat };

    ghost view = { policy_of };

    fn read(policies: &mut Cursor<'a>) -> Result<PolicyInformation<'a>, ReadError<BerError>> {
        read_policy(policies)
    }

    ghost takes = { required_takes PolicyFormat };
}

fn read_policy<'a>(policies: &mut Cursor<'a>) -> Result<PolicyInformation<'a>, ReadError<BerError>>
    ensures { ReadsField (Required PolicyFormat) policy_of Never policies.old result policies.new }
{
    let mut fields = policies.open_sequence()?;
    let policy_identifier = fields.oid()?;
    let policy_qualifiers = read_qualifiers(&mut fields)?;
    fields.end()?;
    Ok(PolicyInformation {
        policy_identifier,
        policy_qualifiers,
    })
}

fn read_qualifiers<'a>(
    fields: &mut Cursor<'a>,
) -> Result<Option<SequenceOf<'a, PolicyQualifierInfo<'a>>>, ReadError<BerError>>
    ensures { ReadsField (Optional PolicyQualifiers) (λ x. option_map list_octets x) Never
        fields.old result fields.new }
{
    read_optional(fields, Class::Universal, Tag::Sequence)
}

impl<'a> Item<'a, BerError> for PolicyQualifierInfo<'a> {
    ghost use Rattle.der_cursor.specs.Formats.{Required};
    ghost use Rattle.der_cursor.proofs.FormatLaws.{required_takes};
    ghost use Rattle.der_extensions.specs.Extensions.{PolicyQualifierInfo as QualifierFormat, QualifierValue};
    ghost use Rattle.der_extensions.specs.Extensions.{qualifier_of};

    ghost Value = { QualifierValue };

    ghost field = { Required QualifierFormat };

    ghost view = { qualifier_of };

    fn read(list: &mut Cursor<'a>) -> Result<PolicyQualifierInfo<'a>, ReadError<BerError>> {
        read_qualifier(list)
    }

    ghost takes = { required_takes QualifierFormat };
}

fn read_qualifier<'a>(list: &mut Cursor<'a>) -> Result<PolicyQualifierInfo<'a>, ReadError<BerError>>
    ensures { ReadsField (Required QualifierFormat) qualifier_of Never list.old result list.new }
{
    let mut fields = list.open_sequence()?;
    let policy_qualifier_id = fields.oid()?;
    let qualifier = fields.any()?;
    fields.end()?;
    Ok(PolicyQualifierInfo {
        policy_qualifier_id,
        qualifier,
    })
}
