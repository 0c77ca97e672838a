//! Directory attributes of the subject (RFC 5280 4.2.1.8).
ghost use Rattle.c_formats.specs.Directory.{HasAttribute, IsAttribute};
ghost use Rattle.c_formats.specs.Items.{Taken};
ghost use Rattle.der_extensions.specs.PolicyExtensions.{directory_attribute_of};

use crate::request::DmRequestAttribute;
use c_values::parts::identifier_octets;
use der_extensions::DirectoryAttribute;

/// Writes an attribute. Returns 1, or 0 if there is none.
pub fn write_attribute<'a>(
    found: Option<DirectoryAttribute<'a>>,
    attribute: &mut DmRequestAttribute<'a>,
) -> u32
    ensures { Taken IsAttribute found.entry attribute.old attribute.new result }
{
    match found {
        Some(found) => {
            *attribute = attribute_fields(found);
            1
        }
        None => 0,
    }
}

/// The C struct of an attribute.
fn attribute_fields<'a>(found: DirectoryAttribute<'a>) -> DmRequestAttribute<'a>
    ensures { HasAttribute (directory_attribute_of found.entry) result }
{
    DmRequestAttribute {
        identifier: identifier_octets(found.identifier),
        values: found.values.octets,
    }
}
