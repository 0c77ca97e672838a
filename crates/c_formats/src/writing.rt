//! Writes values for C, or their faults.
ghost use Rattle.c_formats.specs.ExtensionLists.{HasItems};
ghost use Rattle.c_formats.specs.ExtensionValues.{IsOctets};
ghost use Rattle.c_values.specs.Cursors.{IsSame};
ghost use Rattle.c_values.specs.Faults.{Written, value_fault};

use c_values::fault::{DmFault, field_fault, no_fault};
use c_values::octets::DmOctets;
use der_base::error::BerError;
use der_cursor::ReadError;
use der_extensions::SequenceOf;

/// Writes the octets of a list, or returns the fault.
pub fn write_list<'a, T: Drop>(
    found: Result<SequenceOf<'a, T>, ReadError<BerError>>,
    list: &mut DmOctets<'a>,
) -> DmFault
    ensures { Written HasItems value_fault found.entry list.old list.new result }
{
    match found {
        Ok(found) => {
            list.octets = found.octets;
            no_fault()
        }
        Err(e) => field_fault(0, e),
    }
}

/// Writes a value as it is, or returns the fault.
pub fn write_value<V: Copy>(found: Result<V, ReadError<BerError>>, value: &mut V) -> DmFault
    ensures { Written IsSame value_fault found value.old value.new result }
{
    match found {
        Ok(found) => {
            *value = found;
            no_fault()
        }
        Err(e) => field_fault(0, e),
    }
}

/// Writes octets, or returns the fault.
pub fn write_octets<'a>(
    found: Result<&'a [u8], ReadError<BerError>>,
    octets: &mut DmOctets<'a>,
) -> DmFault
    ensures { Written IsOctets value_fault found.entry octets.old octets.new result }
{
    match found {
        Ok(found) => {
            octets.octets = found;
            no_fault()
        }
        Err(e) => field_fault(0, e),
    }
}
