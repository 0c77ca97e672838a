//! Calls that read values of extensions of CRLs and of their entries (RFC 5280 5.2, 5.3).
ghost use Rattle.std.specs.Prelude.{◌≡◌};
ghost use Rattle.c_formats.specs.ExtensionValues.{IsOctets};
ghost use Rattle.c_formats.specs.RevokedLists.{IsIssuingPoint};
ghost use Rattle.c_values.specs.Cursors.{IsTime};
ghost use Rattle.c_values.specs.Faults.{Reads, value_fault};
ghost use Rattle.der_base.specs.declared.rules.Rules.TheVariants.{Der};
ghost use Rattle.der_cursor.specs.Formats.{GeneralizedTime, Never, ReadsInput};
ghost use Rattle.der_extensions.specs.Revocation.{CRLNumber, IssuingDistributionPoint as PointFormat, issuing_point_of};

use c_formats::revocation::{DmIssuingDistributionPoint, write_date, write_point};
use c_formats::writing::write_octets;
use c_values::fault::DmFault;
use c_values::octets::DmOctets;
use c_values::time::DmTime;
use der_extensions::{read_crl_number, read_invalidity_date, read_issuing_distribution_point};

/// Reads a CRLNumber (RFC 5280 5.2.3) or deltaCRLIndicator (5.2.4) by DER: the content octets of the number. Returns
/// the fault's status.
#[unsafe(no_mangle)]
pub extern "C" fn dm_read_crl_number<'a>(
    value: &'a [u8],
    number: &mut DmOctets<'a>,
    fault: &mut DmFault,
) -> u32
    ensures exactly { Reads (ReadsInput Der CRLNumber (λ x. x.now) Never value.now) IsOctets value_fault
        number.old number.new fault.new }
    ensures status { result ≡ fault.new.status }
{
    *fault = write_octets(read_crl_number(value), number);
    fault.status
}

/// Reads an IssuingDistributionPoint by DER. Returns the fault's status.
#[unsafe(no_mangle)]
pub extern "C" fn dm_read_issuing_distribution_point<'a>(
    value: &'a [u8],
    point: &mut DmIssuingDistributionPoint<'a>,
    fault: &mut DmFault,
) -> u32
    ensures exactly { Reads (ReadsInput Der PointFormat issuing_point_of Never value.now) IsIssuingPoint value_fault
        point.old point.new fault.new }
    ensures status { result ≡ fault.new.status }
{
    *fault = write_point(read_issuing_distribution_point(value), point);
    fault.status
}

/// Reads an InvalidityDate (RFC 5280 5.3.2) by DER. Returns the fault's status.
#[unsafe(no_mangle)]
pub extern "C" fn dm_read_invalidity_date(
    value: &[u8],
    date: &mut DmTime,
    fault: &mut DmFault,
) -> u32
    ensures exactly { Reads (ReadsInput Der GeneralizedTime (λ x. x) Never value.now) IsTime value_fault
        date.old date.new fault.new }
    ensures status { result ≡ fault.new.status }
{
    *fault = write_date(read_invalidity_date(value), date);
    fault.status
}
