//! Distinguished names as text (RFC 4514).
ghost use Rattle.std.specs.Prelude.{◌≡◌, Some};
ghost use Rattle.std.specs.Fmt.{DisplaysOnOk};
ghost use Rattle.std.specs.Option.{option_map};
ghost use Rattle.der_base.specs.Octets.{shortest_length};
ghost use Rattle.der_cursor.specs.Elements.{element_of};
ghost use Rattle.der_print.specs.Writes.{WritesOne};
ghost use Rattle.x509.specs.Certificates.{attribute_of};
ghost use Rattle.x509.specs.Lists.{attributes_left, names_left};
ghost use Rattle.extension_text.specs.Names.Names.{AreBackwards, AreFurther, HasNames, IsAfterPlus, IsAttribute};
ghost use Rattle.extension_text.specs.Names.Names.{IsName, IsNameLine, IsRelativeName, IsShortName, IsTypeName, Passes};
ghost use Rattle.extension_text.specs.Names.Names.{element_hex, has_whole_characters, header_hex, value_text};
ghost use Rattle.extension_text.specs.Names.Names.{x520_name};
ghost use Rattle.extension_text.specs.Names.Values.{hex};

use crate::names::element::is_string;
use crate::names::escaped::write_escaped;
use der_base::any::Any;
use der_print::{Arcs, Hex, Limit};
use der_values::octets::header::{length_octet_count, write_length};
use oid_names::name_of;
use std::fmt;
use x509::{
    AttributeTypeAndValue, Attributes, Name, RelativeDistinguishedName, RelativeNames,
    absolute_octets,
};

/// The most length octets of a length.
const MOST_LENGTH_OCTETS: usize = 9;

/// domainComponent: 0.9.2342.19200300.100.1.25.
const DOMAIN_COMPONENT: &[u8] = b"\x09\x92\x26\x89\x93\xf2\x2c\x64\x01\x19";

/// userId: 0.9.2342.19200300.100.1.1.
const USER_ID: &[u8] = b"\x09\x92\x26\x89\x93\xf2\x2c\x64\x01\x01";

/// emailAddress: 1.2.840.113549.1.9.1.
const EMAIL_ADDRESS: &[u8] = b"\x2a\x86\x48\x86\xf7\x0d\x01\x09\x01";

/// A name as text (RFC 4514), the last relative name first.
#[derive(Clone, Copy)]
pub struct NameText<'a> {
    pub name: Name<'a>,
}

impl fmt::Display for NameText<'_> {
    fn fmt<W: fmt::Write>(&self, f: &mut fmt::Formatter<W>) -> fmt::Result {
        write_name(f, self.name)
    }
}

/// Writes a line with a name.
pub fn write_name_line<W: fmt::Write>(
    f: &mut fmt::Formatter<W>,
    label: &str,
    name: Name<'_>,
) -> fmt::Result
    ensures { WritesOne W.Write.write_str_gives f.old result (IsNameLine label.now name.entry.octets.now) f.new }
{
    f.write_str(label)?;
    write_name(f, name)?;
    write!(f, "\n")
}

/// Writes a name in UTF-8 (RFC 4514), the last relative name first. It takes `n log n` steps for `n` relative names.
pub fn write_name<W: fmt::Write>(f: &mut fmt::Formatter<W>, name: Name<'_>) -> fmt::Result
    ensures { WritesOne W.Write.write_str_gives f.old result (IsName name.entry.octets.now) f.new }
{
    let names = name.relative_names();
    let (_, count) = pass(names, name.octets.len());
    write_backwards(f, names, count)
}

/// Writes the first `count` relative names, the last one first: those of the second half, then those of the first.
fn write_backwards<W: fmt::Write>(
    f: &mut fmt::Formatter<W>,
    names: RelativeNames<'_>,
    count: usize,
) -> fmt::Result
    requires { HasNames count (names_left names) }
    ensures { WritesOne W.Write.write_str_gives f.old result (AreBackwards count (names_left names.entry)) f.new }
{
    if count == 0 {
        return Ok(());
    }
    if count == 1 {
        return write_first(f, names);
    }
    let half = count / 2;
    let (behind, _) = pass(names, half);
    write_backwards(f, behind, count - half)?;
    write!(f, ",")?;
    write_backwards(f, names, half)
}

/// Writes the first relative name.
fn write_first<W: fmt::Write>(f: &mut fmt::Formatter<W>, names: RelativeNames<'_>) -> fmt::Result
    requires { HasNames 1 (names_left names) }
    ensures { WritesOne W.Write.write_str_gives f.old result (AreBackwards 1 (names_left names.entry)) f.new }
{
    let mut rest = names;
    match rest.next() {
        Some(name) => write_relative_name(f, name),
        None => Ok(()),
    }
}

/// Passes up to `most` relative names. Returns those after them, and how many were passed.
fn pass(names: RelativeNames<'_>, most: usize) -> (RelativeNames<'_>, usize)
    ensures { Passes most (names_left names.entry) (names_left result.0) result.1 }
{
    let mut left = names;
    let mut count = 0;
    while count < most {
        let Some(_) = left.next() else {
            return (left, count);
        };
        count += 1;
    }
    (left, count)
}

/// Writes the attributes of a relative name, with plus signs between them.
pub fn write_relative_name<W: fmt::Write>(
    f: &mut fmt::Formatter<W>,
    name: RelativeDistinguishedName<'_>,
) -> fmt::Result
    ensures { WritesOne W.Write.write_str_gives f.old result (IsRelativeName name.entry.octets.now) f.new }
{
    let mut attributes = name.attributes();
    let Some(first) = attributes.next() else {
        return Ok(());
    };
    write_attribute(f, &first)?;
    write_further(f, attributes)
}

/// Writes attributes, each after a plus sign.
fn write_further<W: fmt::Write>(
    f: &mut fmt::Formatter<W>,
    attributes: Attributes<'_>,
) -> fmt::Result
    ensures { WritesOne W.Write.write_str_gives f.old result (AreFurther (attributes_left attributes.entry)) f.new }
{
    for attribute in attributes {
        write_after_plus(f, &attribute)?;
    }
    Ok(())
}

/// Writes an attribute after a plus sign.
fn write_after_plus<W: fmt::Write>(
    f: &mut fmt::Formatter<W>,
    attribute: &AttributeTypeAndValue<'_>,
) -> fmt::Result
    ensures { WritesOne W.Write.write_str_gives f.old result (IsAfterPlus (attribute_of attribute.now)) f.new }
{
    write!(f, "+")?;
    write_attribute(f, attribute)
}

/// Writes the type and the value of an attribute. If the type has no name, the value is `#` and the element in
/// hexadecimal (RFC 4514 2.4).
fn write_attribute<W: fmt::Write>(
    f: &mut fmt::Formatter<W>,
    attribute: &AttributeTypeAndValue<'_>,
) -> fmt::Result
    ensures { WritesOne W.Write.write_str_gives f.old result (IsAttribute (attribute_of attribute.now)) f.new }
{
    let octets = absolute_octets(&attribute.identifier);
    match type_name(octets) {
        Some(name) => {
            write!(f, "{name}=")?;
            write_value(f, &attribute.value)
        }
        None => {
            let relative = false;
            write!(f, "{}=", Arcs { octets, relative })?;
            write_element(f, &attribute.value)
        }
    }
}

/// The name of a type: its short name, or else the one that it has in the table of identifiers.
fn type_name(octets: &[u8]) -> Option<&'static str>
    ensures { IsTypeName octets.now (option_map (λ n. n.now) result) }
{
    match short_name(octets) {
        Some(name) => Some(name),
        None => name_of(octets),
    }
}

/// The short name of a type (RFC 4514 3), or the one in common use (RFC 4519).
fn short_name(octets: &[u8]) -> Option<&'static str>
    ensures { IsShortName octets.now (option_map (λ n. n.now) result) }
{
    if octets == DOMAIN_COMPONENT {
        return Some("DC");
    }
    if octets == USER_ID {
        return Some("UID");
    }
    if octets == EMAIL_ADDRESS {
        return Some("emailAddress");
    }
    match octets {
        [0x55, 0x04, number] => x520_name(*number),
        _ => None,
    }
}

/// The short name of the type 2.5.4.n.
fn x520_name(number: u8) -> Option<&'static str>
    ensures { option_map (λ n. n.now) result ≡ x520_name number }
{
    match number {
        3 => Some("CN"),
        4 => Some("SN"),
        5 => Some("serialNumber"),
        6 => Some("C"),
        7 => Some("L"),
        8 => Some("ST"),
        9 => Some("STREET"),
        10 => Some("O"),
        11 => Some("OU"),
        12 => Some("title"),
        42 => Some("GN"),
        97 => Some("organizationIdentifier"),
        _ => None,
    }
}

/// Writes the value of an attribute: its characters if it is a primitive string, else `#` and the element in
/// hexadecimal (RFC 4514 2.4).
fn write_value<W: fmt::Write>(f: &mut fmt::Formatter<W>, value: &Any<'_>) -> fmt::Result
    ensures { DisplaysOnOk W.Write.write_str_gives f.old result (Some (value_text (element_of value.now))) f.new }
{
    let number = value.tag().0;
    if is_string(value) && has_whole_characters(number, value.bytes) {
        return write_escaped(f, number, value.bytes);
    }
    write_element(f, value)
}

/// Returns whether the octets of a BMPString or a UniversalString are whole characters.
fn has_whole_characters(number: u32, octets: &[u8]) -> bool
    ensures { result ≡ has_whole_characters number octets.now }
{
    match number {
        28 => octets.len() % 4 == 0,
        30 => octets.len() % 2 == 0,
        _ => true,
    }
}

/// Writes an element in hexadecimal: identifier, length and content octets.
fn write_element<W: fmt::Write>(f: &mut fmt::Formatter<W>, value: &Any<'_>) -> fmt::Result
    ensures { DisplaysOnOk W.Write.write_str_gives f.old result (Some (element_hex (element_of value.now))) f.new }
{
    let limit = Limit::Whole;
    write!(f, "#")?;
    write_header(f, value)?;
    let octets = value.bytes;
    write!(f, "{}", Hex { octets, limit })
}

/// Writes the identifier and length octets of an element.
fn write_header<W: fmt::Write>(f: &mut fmt::Formatter<W>, value: &Any<'_>) -> fmt::Result
    ensures { DisplaysOnOk W.Write.write_str_gives f.old result (Some (header_hex (element_of value.now))) f.new }
{
    let limit = Limit::Whole;
    let octets = value.header.raw_tag().unwrap_or(&[]);
    write!(f, "{}", Hex { octets, limit })?;
    write_length_octets(f, value.bytes.len())
}

/// Writes the fewest length octets of this length (X.690 10.1).
fn write_length_octets<W: fmt::Write>(f: &mut fmt::Formatter<W>, length: usize) -> fmt::Result
    ensures { DisplaysOnOk W.Write.write_str_gives f.old result (Some (hex (shortest_length length))) f.new }
{
    let mut room = [0; MOST_LENGTH_OCTETS];
    let count = length_octet_count(length);
    write_length(&mut room, count, length);
    let limit = Limit::Whole;
    let octets = &room[..count];
    write!(f, "{}", Hex { octets, limit })
}
