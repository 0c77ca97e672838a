//! Extensions (RFC 5280 4.2).
ghost use Rattle.std.specs.Prelude.{◌≡◌};
ghost use Rattle.der_print.specs.Writes.{WritesOne};
ghost use Rattle.x509.specs.Certificates.{extension_of};
ghost use Rattle.extension_text.specs.Extensions.{AreExtensions, IsExtension, IsExtensionList, IsHeading};
ghost use Rattle.extension_text.specs.Extensions.{critical_text};

use crate::names::identifier::write_identifier;
use crate::value::write_extension_value;
use std::fmt;
use x509::{Extension, Extensions};

/// Writes extensions after a heading; nothing if there are none.
pub fn write_extensions<W: fmt::Write>(
    f: &mut fmt::Formatter<W>,
    heading: &str,
    extensions: Extensions<'_>,
) -> fmt::Result
    ensures { WritesOne W.Write.write_str_gives f.old result
        (IsExtensionList heading.now extensions.entry.octets.now) f.new }
{
    if extensions.octets.is_empty() {
        return Ok(());
    }
    f.write_str(heading)?;
    write_each(f, extensions)
}

/// Writes extensions, each with its value.
fn write_each<W: fmt::Write>(f: &mut fmt::Formatter<W>, extensions: Extensions<'_>) -> fmt::Result
    ensures { WritesOne W.Write.write_str_gives f.old result (AreExtensions extensions.entry.octets.now) f.new }
{
    for extension in extensions.iter() {
        write_extension(f, &extension)?;
    }
    Ok(())
}

fn write_extension<W: fmt::Write>(
    f: &mut fmt::Formatter<W>,
    extension: &Extension<'_>,
) -> fmt::Result
    ensures { WritesOne W.Write.write_str_gives f.old result (IsExtension (extension_of extension.now)) f.new }
{
    write_heading(f, "    ", extension)?;
    write_extension_value(f, extension)
}

/// Writes the identifier of an extension and whether it is critical, with an indentation.
pub fn write_heading<W: fmt::Write>(
    f: &mut fmt::Formatter<W>,
    indent: &str,
    extension: &Extension<'_>,
) -> fmt::Result
    ensures { WritesOne W.Write.write_str_gives f.old result
        (IsHeading indent.now (extension_of extension.now)) f.new }
{
    f.write_str(indent)?;
    write_identifier(f, &extension.identifier)?;
    write!(f, "{}\n", critical_word(extension.critical))
}

/// The remark on a critical extension.
fn critical_word(critical: bool) -> &'static str
    ensures { result.now ≡ critical_text critical }
{
    if critical { ", critical" } else { "" }
}
