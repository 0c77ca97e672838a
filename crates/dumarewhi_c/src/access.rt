//! Calls that read access to information (RFC 5280 4.2.2).
ghost use Rattle.std.specs.Prelude.{◌≡◌};
ghost use Rattle.c_formats.specs.ExtensionLists.{HasItems, IsAccess, descriptions_octets};
ghost use Rattle.c_formats.specs.Items.{Takes, left};
ghost use Rattle.c_values.specs.Faults.{Reads, value_fault};
ghost use Rattle.der_base.specs.declared.rules.Rules.TheVariants.{Der};
ghost use Rattle.der_cursor.specs.Formats.{Never, ReadsInput, Required};
ghost use Rattle.der_extensions.specs.Extensions.{AccessDescription as AccessFormat, AuthorityInfoAccessSyntax};
ghost use Rattle.der_extensions.specs.Extensions.{access_of};
ghost use Rattle.der_extensions.specs.Lists.{YieldsNext};

use c_formats::access::{DmAccessDescription, write_description};
use c_formats::lists::next_item;
use c_formats::writing::write_list;
use c_values::fault::DmFault;
use c_values::octets::DmOctets;
use der_base::error::BerError;
use der_extensions::{AccessDescription, read_information_access};

/// Reads the descriptions of an AuthorityInfoAccess or SubjectInfoAccess by DER. Returns the fault's status.
#[unsafe(no_mangle)]
pub extern "C" fn dm_read_information_access<'a>(
    value: &'a [u8],
    descriptions: &mut DmOctets<'a>,
    fault: &mut DmFault,
) -> u32
    ensures exactly { Reads (ReadsInput Der AuthorityInfoAccessSyntax descriptions_octets Never value.now)
        HasItems value_fault descriptions.old descriptions.new fault.new }
    ensures status { result ≡ fault.new.status }
{
    *fault = write_list(read_information_access(value), descriptions);
    fault.status
}

/// Takes the next description. Returns 1, or 0 if there is none.
#[unsafe(no_mangle)]
pub extern "C" fn dm_next_access_description<'a>(
    descriptions: &mut DmOctets<'a>,
    description: &mut DmAccessDescription<'a>,
) -> u32
    ensures { Takes (λ r. YieldsNext left access_of (Required AccessFormat) descriptions.old r descriptions.new)
        IsAccess description.old description.new result }
{
    write_description(
        next_item::<AccessDescription<'a>, BerError>(descriptions),
        description,
    )
}
