//! The position of an element in a type, as text.
ghost use Rattle.der_print.specs.Writes.{WritesOne};
ghost use Rattle.der_show.specs.PlaceTexts.{IsExtensionText, IsPathText};

use crate::place::Place;
use der_print::Arcs;
use oid_names::name_of;
use std::fmt;

/// Whether a position tells more than the field of a reader: the element has a name, or is in an extension.
pub(crate) fn tells_more(place: &Place<'_>) -> bool {
    place.element.depth > 0 && (place.name.is_some() || place.extension.is_some())
}

/// Writes the path to an element, and the extension that it is in.
pub(crate) fn write_path<W: fmt::Write>(f: &mut fmt::Formatter<W>, place: &Place<'_>) -> fmt::Result
    ensures { WritesOne W.Write.write_str_gives f.old result (IsPathText place.now) f.new }
{
    write!(f, "{}", place.path)?;
    match place.extension {
        Some(identifier) => write_extension(f, identifier),
        None => Ok(()),
    }
}

/// Writes the extension: its name, if it has one, and the arcs of its identifier.
fn write_extension<W: fmt::Write>(f: &mut fmt::Formatter<W>, identifier: &[u8]) -> fmt::Result
    ensures { WritesOne W.Write.write_str_gives f.old result (IsExtensionText identifier.now) f.new }
{
    let arcs = Arcs {
        octets: identifier,
        relative: false,
    };
    match name_of(identifier) {
        Some(name) => write!(f, " of {name} ({arcs})"),
        None => write!(f, " of {arcs}"),
    }
}
