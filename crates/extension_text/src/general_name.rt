//! General names (RFC 5280 4.2.1.6).
ghost use Rattle.std.specs.Prelude.{Some};
ghost use Rattle.std.specs.Fmt.{DisplaysOnOk};
ghost use Rattle.der_extensions.specs.GeneralNames.{name_of, other_name_of};
ghost use Rattle.der_print.specs.Writes.{WritesOne};
ghost use Rattle.extension_text.specs.GeneralNames.{AreGeneralNames, IsGeneralName, IsNameByKind, IsOtherName};
ghost use Rattle.extension_text.specs.GeneralNames.{address_line};

use crate::address::write_address;
use crate::names::element::AnyValue;
use crate::names::identifier::{write_identifier, write_identifier_line};
use crate::names::lines::{write_octets, write_plain};
use crate::names::name::write_name_line;
use der_extensions::{GeneralName, GeneralNames, OtherName};
use std::fmt;

/// Writes a line for each name, with an indentation.
pub fn write_general_names<W: fmt::Write>(
    f: &mut fmt::Formatter<W>,
    indent: &str,
    names: &GeneralNames<'_>,
) -> fmt::Result
    ensures { WritesOne W.Write.write_str_gives f.old result
        (AreGeneralNames indent.now names.now.octets.now) f.new }
{
    for name in names.iter() {
        write_general_name(f, indent, &name)?;
    }
    Ok(())
}

/// Writes the line of a name.
pub(crate) fn write_general_name<W: fmt::Write>(
    f: &mut fmt::Formatter<W>,
    indent: &str,
    name: &GeneralName<'_>,
) -> fmt::Result
    ensures { WritesOne W.Write.write_str_gives f.old result (IsGeneralName indent.now (name_of name.now)) f.new }
{
    f.write_str(indent)?;
    write_by_kind(f, name)
}

/// Writes the line of a name after the indentation.
fn write_by_kind<W: fmt::Write>(f: &mut fmt::Formatter<W>, name: &GeneralName<'_>) -> fmt::Result
    ensures { WritesOne W.Write.write_str_gives f.old result (IsNameByKind (name_of name.now)) f.new }
{
    match name {
        GeneralName::OtherName(name) => write_other_name(f, name),
        GeneralName::Rfc822Name(text) => write_plain(f, "Email: ", text),
        GeneralName::DnsName(text) => write_plain(f, "DNS name: ", text),
        GeneralName::X400Address(octets) => write_octets(f, "X.400 address: ", octets),
        GeneralName::DirectoryName(name) => write_name_line(f, "Directory name: ", *name),
        GeneralName::EdiPartyName(octets) => write_octets(f, "EDI party name: ", octets),
        GeneralName::UniformResourceIdentifier(text) => write_plain(f, "URI: ", text),
        GeneralName::IpAddress(octets) => write_address_line(f, octets),
        GeneralName::RegisteredId(identifier) => {
            write_identifier_line(f, "Registered ID: ", identifier)
        }
    }
}

/// Writes an otherName.
fn write_other_name<W: fmt::Write>(f: &mut fmt::Formatter<W>, name: &OtherName<'_>) -> fmt::Result
    ensures { WritesOne W.Write.write_str_gives f.old result (IsOtherName (other_name_of name.now)) f.new }
{
    f.write_str("Other name: ")?;
    write_identifier(f, &name.type_id)?;
    let element = name.value;
    write!(f, ", {}\n", AnyValue { element })
}

/// Writes a line with an IP address.
fn write_address_line<W: fmt::Write>(f: &mut fmt::Formatter<W>, octets: &[u8]) -> fmt::Result
    ensures { DisplaysOnOk W.Write.write_str_gives f.old result (Some (address_line octets.now)) f.new }
{
    f.write_str("IP address: ")?;
    write_address(f, octets)?;
    write!(f, "\n")
}
