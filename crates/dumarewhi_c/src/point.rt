//! Calls that read CRL distribution points (RFC 5280 4.2.1.13).
ghost use Rattle.std.specs.Prelude.{◌≡◌};
ghost use Rattle.c_formats.specs.ExtensionLists.{HasItems, IsPoint, points_octets};
ghost use Rattle.c_formats.specs.Items.{Takes, left};
ghost use Rattle.c_values.specs.Faults.{Reads, value_fault};
ghost use Rattle.der_base.specs.declared.rules.Rules.TheVariants.{Der};
ghost use Rattle.der_cursor.specs.Formats.{Never, ReadsInput, Required};
ghost use Rattle.der_extensions.specs.Extensions.{CRLDistributionPoints as PointsFormat};
ghost use Rattle.der_extensions.specs.Extensions.{DistributionPoint as PointFormat, point_of};
ghost use Rattle.der_extensions.specs.Lists.{YieldsNext};

use c_formats::lists::next_item;
use c_formats::point::{DmDistributionPoint, write_point};
use c_formats::writing::write_list;
use c_values::fault::DmFault;
use c_values::octets::DmOctets;
use der_base::error::BerError;
use der_extensions::{DistributionPoint, read_crl_distribution_points};

/// Reads the points of a CRLDistributionPoints or FreshestCRL (RFC 5280 4.2.1.15) by DER. Returns the fault's status.
#[unsafe(no_mangle)]
pub extern "C" fn dm_read_distribution_points<'a>(
    value: &'a [u8],
    points: &mut DmOctets<'a>,
    fault: &mut DmFault,
) -> u32
    ensures exactly { Reads (ReadsInput Der PointsFormat points_octets Never value.now) HasItems value_fault
        points.old points.new fault.new }
    ensures status { result ≡ fault.new.status }
{
    *fault = write_list(read_crl_distribution_points(value), points);
    fault.status
}

/// Takes the next point. Returns 1, or 0 if there is none.
#[unsafe(no_mangle)]
pub extern "C" fn dm_next_distribution_point<'a>(
    points: &mut DmOctets<'a>,
    point: &mut DmDistributionPoint<'a>,
) -> u32
    ensures { Takes (λ r. YieldsNext left point_of (Required PointFormat) points.old r points.new)
        IsPoint point.old point.new result }
{
    write_point(next_item::<DistributionPoint<'a>, BerError>(points), point)
}
