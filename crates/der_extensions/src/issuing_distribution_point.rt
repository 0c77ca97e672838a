//! IssuingDistributionPoint: the certificates that a CRL covers (RFC 5280 5.2.5).
ghost use Rattle.std.specs.Prelude.{false};
ghost use Rattle.der_base.specs.declared.rules.Rules.{Rules};
ghost use Rattle.der_cursor.specs.Formats.{Boolean, Default, Implicit, Never, Only, ReadsField, ReadsInput};
ghost use Rattle.der_cursor.specs.Formats.{ReadsWhole, Required};
ghost use Rattle.der_extensions.specs.Revocation.{IssuingDistributionPoint as PointFormat, issuing_point_of};

use crate::distribution_points::{DistributionPointName, read_reasons, read_tagged_point_name};
use der_base::error::BerError;
use der_base::header::{Class, Tag};
use der_cursor::{Cursor, ReadError};
use der_values::BitString;

/// The value of the extension IssuingDistributionPoint.
#[derive(Drop)]
pub struct IssuingDistributionPoint<'a> {
    /// Where the CRL is published.
    pub distribution_point: Option<DistributionPointName<'a>>,
    /// Whether the CRL has only end entity certificates.
    pub only_contains_user_certs: bool,
    /// Whether the CRL has only CA certificates.
    pub only_contains_ca_certs: bool,
    /// The reasons for revocation that the CRL covers, a bit for each (4.2.1.13). If it is absent, the CRL covers all.
    pub only_some_reasons: Option<BitString<'a>>,
    /// Whether the CRL has certificates of other issuers.
    pub indirect_crl: bool,
    /// Whether the CRL has only attribute certificates.
    pub only_contains_attribute_certs: bool,
}

/// Reads the value of an IssuingDistributionPoint by DER. Trailing data is an error. A value without any field is
/// allowed, and so is one with fields that exclude each other.
pub fn read_issuing_distribution_point(
    octets: &[u8],
) -> Result<IssuingDistributionPoint<'_>, ReadError<BerError>>
    ensures { ReadsInput Rules.Der PointFormat issuing_point_of Never octets.now result }
{
    match read_whole_point(octets) {
        Ok(point) => Ok(point),
        Err(e) => Err(e.of_element(Cursor::new(octets), Class::Universal, true, Tag::Sequence)),
    }
}

fn read_whole_point(octets: &[u8]) -> Result<IssuingDistributionPoint<'_>, ReadError<BerError>>
    ensures { ReadsWhole (Only (Required PointFormat) Rules.Der octets.now) issuing_point_of Never result }
{
    let mut input = Cursor::new(octets);
    let point = read_point(&mut input)?;
    input.end()?;
    Ok(point)
}

fn read_point<'a>(
    input: &mut Cursor<'a>,
) -> Result<IssuingDistributionPoint<'a>, ReadError<BerError>>
    ensures { ReadsField (Required PointFormat) issuing_point_of Never input.old result input.new }
{
    let mut fields = input.open_sequence()?;
    let distribution_point = read_tagged_point_name(&mut fields)?;
    let only_contains_user_certs = read_flag(&mut fields, 1)?;
    let only_contains_ca_certs = read_flag(&mut fields, 2)?;
    let only_some_reasons = read_reasons(&mut fields, 3)?;
    let indirect_crl = read_flag(&mut fields, 4)?;
    let only_contains_attribute_certs = read_flag(&mut fields, 5)?;
    fields.end()?;
    Ok(IssuingDistributionPoint {
        distribution_point,
        only_contains_user_certs,
        only_contains_ca_certs,
        only_some_reasons,
        indirect_crl,
        only_contains_attribute_certs,
    })
}

/// Reads a BOOLEAN under an implicit tag with this number. It is false if that isn't next.
fn read_flag(fields: &mut Cursor<'_>, number: u32) -> Result<bool, ReadError<BerError>>
    ensures { ReadsField (Default (Implicit number Boolean) false) (λ x. x) Never fields.old result fields.new }
{
    fields.implicit(number).boolean_or(false)
}
