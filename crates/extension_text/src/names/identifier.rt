//! Identifiers with their names.
ghost use Rattle.der_print.specs.Writes.{WritesOne};
ghost use Rattle.der_values.specs.Kinds.{borrowed_octets};
ghost use Rattle.extension_text.specs.Names.Identifiers.{IsIdentifier, IsIdentifierLine};

use der_print::Arcs;
use der_values::ObjectIdentifier;
use oid_names::name_of;
use std::fmt;
use x509::absolute_octets;

/// Writes an identifier: its name, if it has one, and its arcs.
pub fn write_identifier<W: fmt::Write>(
    f: &mut fmt::Formatter<W>,
    identifier: &ObjectIdentifier<'_>,
) -> fmt::Result
    ensures { WritesOne W.Write.write_str_gives f.old result (IsIdentifier (borrowed_octets identifier.now)) f.new }
{
    write_octets(f, absolute_octets(identifier))
}

/// Writes the identifier with these content octets.
fn write_octets<W: fmt::Write>(f: &mut fmt::Formatter<W>, octets: &[u8]) -> fmt::Result
    ensures { WritesOne W.Write.write_str_gives f.old result (IsIdentifier octets.now) f.new }
{
    let arcs = Arcs {
        octets,
        relative: false,
    };
    match name_of(octets) {
        Some(name) => write!(f, "{name} ({arcs})"),
        None => write!(f, "{arcs}"),
    }
}

/// Writes a line with an identifier.
pub fn write_identifier_line<W: fmt::Write>(
    f: &mut fmt::Formatter<W>,
    label: &str,
    identifier: &ObjectIdentifier<'_>,
) -> fmt::Result
    ensures { WritesOne W.Write.write_str_gives f.old result
        (IsIdentifierLine label.now (borrowed_octets identifier.now)) f.new }
{
    f.write_str(label)?;
    write_identifier(f, identifier)?;
    write!(f, "\n")
}
