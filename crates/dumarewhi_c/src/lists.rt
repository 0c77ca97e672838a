//! Calls that take items of the lists of a certificate. A call takes the first item from the octets.
ghost use Rattle.c_formats.specs.Found.{FindsExtension, TakesDns};
ghost use Rattle.c_formats.specs.Items.{IsAttribute, IsExtension, IsGeneralName, IsPurpose, IsRelativeName, Takes};
ghost use Rattle.c_formats.specs.Items.{left};
ghost use Rattle.der_cursor.specs.Formats.{ObjectIdentifier as IdentifierFormat, Required};
ghost use Rattle.der_extensions.specs.GeneralNames.{AttributeTypeAndValue as AttributeFormat, GeneralName as AnyName};
ghost use Rattle.der_extensions.specs.GeneralNames.{RelativeDistinguishedName as RelativeFormat, attribute_of, name_of};
ghost use Rattle.der_extensions.specs.Lists.{YieldsNext as YieldsItem};
ghost use Rattle.der_values.specs.Kinds.{borrowed_octets};
ghost use Rattle.x509.specs.Certificates.{extension as extension_format, extension_of};
ghost use Rattle.x509.specs.Lists.{YieldsNext};

use c_formats::found::{find_extension, take_dns_name};
use c_formats::items::{DmAttribute, DmExtension, DmGeneralName, attribute, extension};
use c_formats::lists::{
    next_extension, next_item, write_attribute, write_extension, write_general_name, write_purpose,
    write_relative_name,
};
use c_values::octets::DmOctets;
use der_base::error::BerError;
use der_extensions::GeneralName;
use der_values::ObjectIdentifier;
use x509::{AttributeTypeAndValue, RelativeDistinguishedName};

/// Takes the next relative name of a name: the encodings of its attributes. Returns 1, or 0 if there is none.
#[unsafe(no_mangle)]
pub extern "C" fn dm_next_relative_name<'a>(
    names: &mut DmOctets<'a>,
    attributes: &mut DmOctets<'a>,
) -> u32
    ensures { Takes (λ r. YieldsItem left (λ n. n.octets.now) (Required RelativeFormat) names.old r names.new)
        IsRelativeName attributes.old attributes.new result }
{
    write_relative_name(
        next_item::<RelativeDistinguishedName<'a>, BerError>(names),
        attributes,
    )
}

/// Takes the next attribute of a relative name. Returns 1, or 0 if there is none.
#[unsafe(no_mangle)]
pub extern "C" fn dm_next_attribute<'a>(
    attributes: &mut DmOctets<'a>,
    attribute: &mut DmAttribute<'a>,
) -> u32
    ensures { Takes (λ r. YieldsItem left attribute_of (Required AttributeFormat) attributes.old r attributes.new)
        IsAttribute attribute.old attribute.new result }
{
    write_attribute(
        next_item::<AttributeTypeAndValue<'a>, BerError>(attributes),
        attribute,
    )
}

/// Takes the next extension. Returns 1, or 0 if there is none.
#[unsafe(no_mangle)]
pub extern "C" fn dm_next_extension<'a>(
    extensions: &mut DmOctets<'a>,
    extension: &mut DmExtension<'a>,
) -> u32
    ensures { Takes (λ r. YieldsNext left extension_of extension_format extensions.old r extensions.new)
        IsExtension extension.old extension.new result }
{
    write_extension(next_extension(extensions), extension)
}

/// Finds the first extension of this kind in a list. Returns 1, or 0 if there is none.
#[unsafe(no_mangle)]
pub extern "C" fn dm_find_extension<'a>(
    extensions: &DmOctets<'a>,
    kind: u32,
    extension: &mut DmExtension<'a>,
) -> u32
    ensures { FindsExtension kind extensions.now.octets.now extension.old extension.new result }
{
    find_extension(*extensions, kind, extension)
}

/// Takes the next general name. Returns 1, or 0 if there is none.
#[unsafe(no_mangle)]
pub extern "C" fn dm_next_general_name<'a>(
    names: &mut DmOctets<'a>,
    name: &mut DmGeneralName<'a>,
) -> u32
    ensures { Takes (λ r. YieldsItem left name_of AnyName names.old r names.new)
        IsGeneralName name.old name.new result }
{
    write_general_name(next_item::<GeneralName<'a>, BerError>(names), name)
}

/// Takes the names up to the next DNS name, and writes its text. Returns 1, or 0 if there is none; then nothing is taken.
#[unsafe(no_mangle)]
pub extern "C" fn dm_next_dns_name<'a>(names: &mut DmOctets<'a>, text: &mut DmOctets<'a>) -> u32
    ensures { TakesDns names.old names.new text.old text.new result }
{
    take_dns_name(names, text)
}

/// Takes the next key purpose: the content octets of its OID. Returns 1, or 0 if there is none.
#[unsafe(no_mangle)]
pub extern "C" fn dm_next_key_purpose<'a>(
    purposes: &mut DmOctets<'a>,
    identifier: &mut DmOctets<'a>,
) -> u32
    ensures { Takes (λ r. YieldsItem left borrowed_octets (Required IdentifierFormat) purposes.old r purposes.new)
        IsPurpose identifier.old identifier.new result }
{
    write_purpose(
        next_item::<ObjectIdentifier<'a>, BerError>(purposes),
        identifier,
    )
}
