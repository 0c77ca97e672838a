//! CRLDistributionPoints: where CRLs are published (RFC 5280 4.2.1.13).
ghost use Rattle.std.specs.Prelude.{◌↔◌, IsTrue};
ghost use Rattle.std.specs.Option.{option_map};
ghost use Rattle.der_base.specs.declared.rules.Rules.{Rules};
ghost use Rattle.der_cursor.specs.Formats.{BitString as BitsFormat, Implicit, Never, Only, Optional, OptionalTagged};
ghost use Rattle.der_cursor.specs.Formats.{ReadsField, ReadsInput, Required};
ghost use Rattle.der_extensions.specs.Extensions.{CRLDistributionPoints, DistributionPoint as PointFormat};
ghost use Rattle.der_extensions.specs.Extensions.{DistributionPointName as PointNameFormat, IsShortest};
ghost use Rattle.der_extensions.specs.Extensions.{ReasonFlags as ReasonsFormat, full_name, name_relative_to_issuer};
ghost use Rattle.der_extensions.specs.Extensions.{point_name_of, point_of};
ghost use Rattle.der_extensions.specs.GeneralNames.{Chosen, GeneralNames as NamesFormat};
ghost use Rattle.der_extensions.specs.GeneralNames.{RelativeDistinguishedName as RelativeFormat};
ghost use Rattle.der_extensions.specs.Lists.{list_octets};
ghost use Rattle.x509.specs.Certificates.{bits_of};

use crate::general_name::{GeneralName, GeneralNames};
use crate::key_usage::ends_in_one;
use crate::list::{Item, SequenceOf, read_list, read_optional, read_some};
use der_base::error::BerError;
use der_base::header::{Class, Tag};
use der_cursor::{Cursor, ReadError};
use der_values::BitString;
use x509::{AttributeTypeAndValue, RelativeDistinguishedName};

/// At least one distribution point.
pub type CrlDistributionPoints<'a> = SequenceOf<'a, DistributionPoint<'a>>;

/// A distribution point: where a CRL is published.
#[derive(Drop)]
pub struct DistributionPoint<'a> {
    pub distribution_point: Option<DistributionPointName<'a>>,
    /// The reasons for revocation that the CRL covers, a bit for each (RFC 5280 4.2.1.13). If it is absent, the CRL
    /// covers all.
    pub reasons: Option<BitString<'a>>,
    /// The issuer of the CRL, if it isn't the issuer of the certificate. At least one name.
    pub crl_issuer: Option<GeneralNames<'a>>,
}

/// The name of a distribution point.
#[derive(Drop)]
pub enum DistributionPointName<'a> {
    FullName(GeneralNames<'a>),
    /// The rest of the name, which follows the name of the CRL's issuer.
    NameRelativeToCrlIssuer(RelativeDistinguishedName<'a>),
}

/// Reads the value of a CRLDistributionPoints or a FreshestCRL (4.2.1.15) by DER: at least one distribution point.
/// Trailing data is an error. A point with neither a name nor an issuer is allowed.
pub fn read_crl_distribution_points(
    octets: &[u8],
) -> Result<CrlDistributionPoints<'_>, ReadError<BerError>>
    ensures { ReadsInput Rules.Der CRLDistributionPoints list_octets Never octets.now result }
{
    match read_list::<DistributionPoint<'_>, BerError>(octets) {
        Ok(points) => Ok(points),
        Err(e) => Err(e.of_element(Cursor::new(octets), Class::Universal, true, Tag::Sequence)),
    }
}

impl<'a> Item<'a, BerError> for DistributionPoint<'a> {
    ghost use Rattle.der_cursor.specs.Formats.{Required};
    ghost use Rattle.der_cursor.proofs.FormatLaws.{required_takes};
    ghost use Rattle.der_extensions.specs.Extensions.{DistributionPoint as PointFormat, PointValue, point_of};

    ghost Value = { PointValue };

    ghost field = { Required PointFormat };

    ghost view = { point_of };

    fn read(points: &mut Cursor<'a>) -> Result<DistributionPoint<'a>, ReadError<BerError>> {
        read_distribution_point(points)
    }

    ghost takes = { required_takes PointFormat };
}

fn read_distribution_point<'a>(
    points: &mut Cursor<'a>,
) -> Result<DistributionPoint<'a>, ReadError<BerError>>
    ensures { ReadsField (Required PointFormat) point_of Never points.old result points.new }
{
    let mut fields = points.open_sequence()?;
    let distribution_point = read_tagged_point_name(&mut fields)?;
    let reasons = read_reasons(&mut fields, 1)?;
    let crl_issuer = read_crl_issuer(&mut fields)?;
    fields.end()?;
    Ok(DistributionPoint {
        distribution_point,
        reasons,
        crl_issuer,
    })
}

/// Reads a DistributionPointName in an explicit tag [0], if that is next.
pub(crate) fn read_tagged_point_name<'a>(
    fields: &mut Cursor<'a>,
) -> Result<Option<DistributionPointName<'a>>, ReadError<BerError>>
    ensures { ReadsField (OptionalTagged 0 (Only PointNameFormat)) (λ x. option_map point_name_of x) Never
        fields.old result fields.new }
{
    let Some(mut inside) = fields.open_tagged(0)? else {
        return Ok(None);
    };
    let name = read_point_name(&mut inside)?;
    inside.end()?;
    Ok(Some(name))
}

fn read_point_name<'a>(
    inside: &mut Cursor<'a>,
) -> Result<DistributionPointName<'a>, ReadError<BerError>>
    ensures { ReadsField PointNameFormat point_name_of Never inside.old result inside.new }
{
    if inside.is_next(Class::ContextSpecific, Tag(0)) {
        return read_full_name(inside);
    }
    read_relative_name(inside)
}

fn read_full_name<'a>(
    inside: &mut Cursor<'a>,
) -> Result<DistributionPointName<'a>, ReadError<BerError>>
    ensures { ReadsField (Chosen full_name (Required (Implicit 0 NamesFormat))) point_name_of Never
        inside.old result inside.new }
{
    let names = read_some::<GeneralName<'a>, BerError>(inside, Class::ContextSpecific, Tag(0))?;
    Ok(DistributionPointName::FullName(names))
}

fn read_relative_name<'a>(
    inside: &mut Cursor<'a>,
) -> Result<DistributionPointName<'a>, ReadError<BerError>>
    ensures { ReadsField (Chosen name_relative_to_issuer (Required (Implicit 1 RelativeFormat))) point_name_of Never
        inside.old result inside.new }
{
    let list = read_some::<AttributeTypeAndValue<'a>, BerError>(
        inside,
        Class::ContextSpecific,
        Tag(1),
    )?;
    let name = RelativeDistinguishedName {
        octets: list.octets,
    };
    Ok(DistributionPointName::NameRelativeToCrlIssuer(name))
}

/// Reads ReasonFlags under an implicit tag with this number, if they are next. A last bit of 0 is an error.
pub(crate) fn read_reasons<'a>(
    fields: &mut Cursor<'a>,
    number: u32,
) -> Result<Option<BitString<'a>>, ReadError<BerError>>
    ensures { ReadsField (Optional (Implicit number ReasonsFormat)) (λ x. option_map bits_of x) Never
        fields.old result fields.new }
{
    let before = *fields;
    let Some(bits) = read_bits(fields, number)? else {
        return Ok(None);
    };
    if !is_shortest(bits) {
        return Err(before.refuse(BerError::BerValueError));
    }
    Ok(Some(bits))
}

fn read_bits<'a>(
    fields: &mut Cursor<'a>,
    number: u32,
) -> Result<Option<BitString<'a>>, ReadError<BerError>>
    ensures { ReadsField (Optional (Implicit number BitsFormat)) (λ x. option_map bits_of x) Never
        fields.old result fields.new }
{
    fields.implicit(number).optional_bits()
}

/// Whether there is no bit, or the last one is 1.
fn is_shortest(bits: BitString<'_>) -> bool
    ensures { IsTrue result ↔ IsShortest (bits_of bits.entry) }
{
    bits.octets.is_empty() || ends_in_one(bits)
}

fn read_crl_issuer<'a>(
    fields: &mut Cursor<'a>,
) -> Result<Option<GeneralNames<'a>>, ReadError<BerError>>
    ensures { ReadsField (Optional (Implicit 2 NamesFormat)) (λ x. option_map list_octets x) Never
        fields.old result fields.new }
{
    read_optional(fields, Class::ContextSpecific, Tag(2))
}
