//! Calls that read directory attributes of the subject (RFC 5280 4.2.1.8).
ghost use Rattle.std.specs.Prelude.{◌≡◌};
ghost use Rattle.c_formats.specs.Directory.{IsAttribute, attributes_octets};
ghost use Rattle.c_formats.specs.ExtensionLists.{HasItems};
ghost use Rattle.c_formats.specs.Items.{Takes, left};
ghost use Rattle.c_values.specs.Faults.{Reads, value_fault};
ghost use Rattle.der_base.specs.declared.rules.Rules.TheVariants.{Der};
ghost use Rattle.der_cursor.specs.Formats.{Never, ReadsInput, Required};
ghost use Rattle.der_extensions.specs.Lists.{YieldsNext};
ghost use Rattle.der_extensions.specs.PolicyExtensions.{DirectoryAttribute as AttributeFormat, directory_attribute_of};
ghost use Rattle.der_extensions.specs.PolicyExtensions.{SubjectDirectoryAttributes as AttributesFormat};

use c_formats::directory::write_attribute;
use c_formats::lists::next_item;
use c_formats::request::DmRequestAttribute;
use c_formats::writing::write_list;
use c_values::fault::DmFault;
use c_values::octets::DmOctets;
use der_base::error::BerError;
use der_extensions::{DirectoryAttribute, read_subject_directory_attributes};

/// Reads the attributes of a SubjectDirectoryAttributes by DER. Returns the fault's status.
#[unsafe(no_mangle)]
pub extern "C" fn dm_read_directory_attributes<'a>(
    value: &'a [u8],
    attributes: &mut DmOctets<'a>,
    fault: &mut DmFault,
) -> u32
    ensures exactly { Reads (ReadsInput Der AttributesFormat attributes_octets Never value.now) HasItems value_fault
        attributes.old attributes.new fault.new }
    ensures status { result ≡ fault.new.status }
{
    *fault = write_list(read_subject_directory_attributes(value), attributes);
    fault.status
}

/// Takes the next attribute. Returns 1, or 0 if there is none.
#[unsafe(no_mangle)]
pub extern "C" fn dm_next_directory_attribute<'a>(
    attributes: &mut DmOctets<'a>,
    attribute: &mut DmRequestAttribute<'a>,
) -> u32
    ensures { Takes (λ r. YieldsNext left directory_attribute_of (Required AttributeFormat) attributes.old r
        attributes.new) IsAttribute attribute.old attribute.new result }
{
    write_attribute(
        next_item::<DirectoryAttribute<'a>, BerError>(attributes),
        attribute,
    )
}
