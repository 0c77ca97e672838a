//! Access to information of a CA or of the subject (RFC 5280 4.2.2).
ghost use Rattle.c_formats.specs.ExtensionLists.{HasAccess, IsAccess};
ghost use Rattle.c_formats.specs.Items.{Taken};
ghost use Rattle.der_extensions.specs.Extensions.{access_of};

use crate::items::{DmGeneralName, general_name};
use c_values::parts::identifier_octets;
use der_extensions::AccessDescription;

/// The kind of information, and its location. Octets are slices of the value.
#[repr(C)]
#[derive(Clone, Copy)]
pub struct DmAccessDescription<'a> {
    /// The content octets of the OID of the kind.
    pub method: &'a [u8],
    /// The location.
    pub location: DmGeneralName<'a>,
}

/// Writes a description. Returns 1, or 0 if there is none.
pub fn write_description<'a>(
    found: Option<AccessDescription<'a>>,
    description: &mut DmAccessDescription<'a>,
) -> u32
    ensures { Taken IsAccess found.entry description.old description.new result }
{
    match found {
        Some(found) => {
            *description = access_fields(found);
            1
        }
        None => 0,
    }
}

/// The C struct of a description.
fn access_fields<'a>(found: AccessDescription<'a>) -> DmAccessDescription<'a>
    ensures { HasAccess (access_of found.entry) result }
{
    DmAccessDescription {
        method: identifier_octets(found.access_method),
        location: general_name(found.access_location),
    }
}
