//! CRL distribution points (RFC 5280 4.2.1.13).
ghost use Rattle.std.specs.Option.{option_map};
ghost use Rattle.c_formats.specs.ExtensionLists.{HasPoint, HasPointName, IsPoint};
ghost use Rattle.c_formats.specs.Items.{Taken};
ghost use Rattle.der_extensions.specs.Extensions.{point_name_of, point_of};

use crate::lists::list_or_none;
use c_values::parts::{DmBits, optional_bits};
use der_extensions::{DistributionPoint, DistributionPointName};

/// A distribution point. Octets are slices of the value. At least one of the two names is empty.
#[repr(C)]
#[derive(Clone, Copy)]
pub struct DmDistributionPoint<'a> {
    /// The encodings of the general names of its fullName, one after another.
    pub full_name: &'a [u8],
    /// The encodings of the attributes of a name relative to the issuer's, one after another.
    pub relative_name: &'a [u8],
    /// A bit for each reason of revocation that the CRL covers.
    pub reasons: DmBits<'a>,
    /// The encodings of the CRL issuer's general names, one after another.
    pub crl_issuer: &'a [u8],
}

/// Writes a distribution point. Returns 1, or 0 if there is none.
pub fn write_point<'a>(
    found: Option<DistributionPoint<'a>>,
    point: &mut DmDistributionPoint<'a>,
) -> u32
    ensures { Taken IsPoint found.entry point.old point.new result }
{
    match found {
        Some(found) => {
            *point = point_fields(found);
            1
        }
        None => 0,
    }
}

/// The C struct of a distribution point.
fn point_fields<'a>(found: DistributionPoint<'a>) -> DmDistributionPoint<'a>
    ensures { HasPoint (point_of found.entry) result }
{
    let (full_name, relative_name) = name_octets(found.distribution_point);
    DmDistributionPoint {
        full_name,
        relative_name,
        reasons: optional_bits(found.reasons),
        crl_issuer: list_or_none(found.crl_issuer),
    }
}

/// The general names of a point, and the attributes of its relative name.
pub(crate) fn name_octets<'a>(name: Option<DistributionPointName<'a>>) -> (&'a [u8], &'a [u8])
    ensures { HasPointName (option_map point_name_of name.entry) result.0.now result.1.now }
{
    match name {
        Some(DistributionPointName::FullName(names)) => (names.octets, &[]),
        Some(DistributionPointName::NameRelativeToCrlIssuer(name)) => (&[], name.octets),
        None => (&[], &[]),
    }
}
