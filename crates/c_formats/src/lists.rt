//! Writes items of the lists of a certificate, for C.
ghost use Rattle.std.specs.Prelude.{◌≡◌, []};
ghost use Rattle.std.specs.Option.{option_map, unwrap_or};
ghost use Rattle.c_formats.specs.Items.{IsAttribute, IsExtension, IsGeneralName, IsPurpose, IsRelativeName, Taken};
ghost use Rattle.c_formats.specs.Items.{left};
ghost use Rattle.der_extensions.specs.Lists.{YieldsNext as YieldsItem, list_octets};
ghost use Rattle.x509.specs.Certificates.{extension as extension_format, extension_of};
ghost use Rattle.x509.specs.Lists.{YieldsNext};

use crate::items::{DmAttribute, DmExtension, DmGeneralName, attribute, extension, general_name};
use c_values::octets::DmOctets;
use c_values::parts::identifier_octets;
use der_cursor::Cursor;
use der_extensions::{FromRefusal, GeneralName, Item, SequenceOf};
use der_values::ObjectIdentifier;
use x509::parts::read_extension;
use x509::{AttributeTypeAndValue, Extension, RelativeDistinguishedName};

/// Writes a relative name. Returns 1, or 0 if there is none.
pub fn write_relative_name<'a>(
    found: Option<RelativeDistinguishedName<'a>>,
    attributes: &mut DmOctets<'a>,
) -> u32
    ensures { Taken IsRelativeName found.entry attributes.old attributes.new result }
{
    match found {
        Some(found) => {
            attributes.octets = found.octets;
            1
        }
        None => 0,
    }
}

/// Writes an attribute. Returns 1, or 0 if there is none.
pub fn write_attribute<'a>(
    found: Option<AttributeTypeAndValue<'a>>,
    written: &mut DmAttribute<'a>,
) -> u32
    ensures { Taken IsAttribute found.entry written.old written.new result }
{
    match found {
        Some(found) => {
            *written = attribute(&found);
            1
        }
        None => 0,
    }
}

/// Writes an extension. Returns 1, or 0 if there is none.
pub fn write_extension<'a>(found: Option<Extension<'a>>, written: &mut DmExtension<'a>) -> u32
    ensures { Taken IsExtension found.entry written.old written.new result }
{
    match found {
        Some(found) => {
            *written = extension(&found);
            1
        }
        None => 0,
    }
}

/// Takes the next extension from the list.
pub fn next_extension<'a>(extensions: &mut DmOctets<'a>) -> Option<Extension<'a>>
    ensures { YieldsNext left extension_of extension_format extensions.old result extensions.new }
{
    let mut list = Cursor::new(extensions.octets);
    let Ok(extension) = read_extension(&mut list) else {
        return None;
    };
    extensions.octets = list.remaining();
    Some(extension)
}

/// Writes a general name. Returns 1, or 0 if there is none.
pub fn write_general_name<'a>(
    found: Option<GeneralName<'a>>,
    written: &mut DmGeneralName<'a>,
) -> u32
    ensures { Taken IsGeneralName found.entry written.old written.new result }
{
    match found {
        Some(found) => {
            *written = general_name(found);
            1
        }
        None => 0,
    }
}

/// Writes a key purpose. Returns 1, or 0 if there is none.
pub fn write_purpose<'a>(found: Option<ObjectIdentifier<'a>>, identifier: &mut DmOctets<'a>) -> u32
    ensures { Taken IsPurpose found.entry identifier.old identifier.new result }
{
    match found {
        Some(found) => {
            identifier.octets = identifier_octets(found);
            1
        }
        None => 0,
    }
}

/// The octets of a list; empty if there is none.
pub(crate) fn list_or_none<'a, T: Drop>(list: Option<SequenceOf<'a, T>>) -> &'a [u8]
    ensures { result.now ≡ unwrap_or (option_map list_octets list.entry) [] }
{
    match list {
        Some(list) => list.octets,
        None => &[],
    }
}

/// Takes the next item from the list.
pub fn next_item<'a, T: Item<'a, E>, E: FromRefusal>(list: &mut DmOctets<'a>) -> Option<T>
    ensures { YieldsItem left T.view T.field list.old result list.new }
{
    let mut items = Cursor::new(list.octets);
    let Ok(value) = T::read(&mut items) else {
        return None;
    };
    list.octets = items.remaining();
    Some(value)
}
