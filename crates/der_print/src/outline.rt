//! An element's line without its value.
ghost use Rattle.std.specs.Prelude.{OnOk};
ghost use Rattle.std.specs.Io.KnownBytes.{Appends};
ghost use Rattle.der_elements.specs.Walked.{visited_of};
ghost use Rattle.der_print.specs.Lines.{outline};

use crate::front::put_front;
use crate::room::Room;
use crate::style::Style;
use der_elements::Element;
use std::io;
use std::io::Write;

/// As `write_field_line`, with `text` instead of what follows the type; the content octets aren't written. The text is
/// written as it is, so it must not have a line end.
pub fn write_outline<W: Write>(
    out: &mut W,
    room: &mut Room,
    element: &Element<'_>,
    field: &str,
    ending: &str,
    style: Style,
) -> io::Result<()>
    ensures { OnOk result (Appends (W.contents out.old) (W.contents out.new)
        (outline ending.now field.now style (visited_of element.now))) }
{
    let line = &mut room.line;
    line.clear();
    let mut left = style.limit;
    put_front(line, &mut left, element, field, style.colours)?;
    line.put_part(ending.as_bytes(), &mut left)?;
    line.push(b'\n')?;
    out.write_all(line.as_bytes())?;
    Ok(())
}
