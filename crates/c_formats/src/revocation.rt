//! Values of extensions of CRLs and of their entries (RFC 5280 5.2, 5.3).
ghost use Rattle.c_formats.specs.RevokedLists.{HasIssuingPoint, IsIssuingPoint};
ghost use Rattle.c_values.specs.Cursors.{IsTime};
ghost use Rattle.c_values.specs.Faults.{Written, value_fault};
ghost use Rattle.der_extensions.specs.Revocation.{issuing_point_of};

use crate::point::name_octets;
use c_values::element::bit;
use c_values::fault::{DmFault, field_fault, no_fault};
use c_values::parts::{DmBits, optional_bits};
use c_values::time::{DmTime, time_fields};
use der_base::error::BerError;
use der_base::time::ASN1DateTime;
use der_cursor::ReadError;
use der_extensions::IssuingDistributionPoint;

/// The scope of a CRL (RFC 5280 5.2.5). Octets are slices of the value. At least one of the two names is empty.
#[repr(C)]
#[derive(Clone, Copy)]
pub struct DmIssuingDistributionPoint<'a> {
    /// The encodings of the general names of its fullName, one after another.
    pub full_name: &'a [u8],
    /// The encodings of the attributes of a name relative to the issuer's, one after another.
    pub relative_name: &'a [u8],
    /// A bit for each reason of revocation that the CRL covers.
    pub reasons: DmBits<'a>,
    /// 1 if the CRL has only certificates of end entities, else 0.
    pub only_contains_user_certs: u32,
    /// 1 if the CRL has only certificates of CAs, else 0.
    pub only_contains_ca_certs: u32,
    /// 1 if the CRL has certificates of other issuers, else 0.
    pub indirect_crl: u32,
    /// 1 if the CRL has only attribute certificates, else 0.
    pub only_contains_attribute_certs: u32,
}

/// Writes an IssuingDistributionPoint, or returns the fault.
pub fn write_point<'a>(
    found: Result<IssuingDistributionPoint<'a>, ReadError<BerError>>,
    point: &mut DmIssuingDistributionPoint<'a>,
) -> DmFault
    ensures { Written IsIssuingPoint value_fault found.entry point.old point.new result }
{
    match found {
        Ok(found) => {
            *point = point_fields(found);
            no_fault()
        }
        Err(e) => field_fault(0, e),
    }
}

/// The C struct of an IssuingDistributionPoint.
fn point_fields<'a>(found: IssuingDistributionPoint<'a>) -> DmIssuingDistributionPoint<'a>
    ensures { HasIssuingPoint (issuing_point_of found.entry) result }
{
    let (full_name, relative_name) = name_octets(found.distribution_point);
    DmIssuingDistributionPoint {
        full_name,
        relative_name,
        reasons: optional_bits(found.only_some_reasons),
        only_contains_user_certs: bit(found.only_contains_user_certs).into(),
        only_contains_ca_certs: bit(found.only_contains_ca_certs).into(),
        indirect_crl: bit(found.indirect_crl).into(),
        only_contains_attribute_certs: bit(found.only_contains_attribute_certs).into(),
    }
}

/// Writes an InvalidityDate, or returns the fault.
pub fn write_date(found: Result<ASN1DateTime, ReadError<BerError>>, date: &mut DmTime) -> DmFault
    ensures { Written IsTime value_fault found date.old date.new result }
{
    match found {
        Ok(found) => {
            *date = time_fields(found);
            no_fault()
        }
        Err(e) => field_fault(0, e),
    }
}
