//! The line of an element.
ghost use Rattle.std.specs.Prelude.{OnOk};
ghost use Rattle.der_elements.specs.Walked.{visited_of};
ghost use Rattle.der_print.specs.Lines.{AddsFieldLine, AddsLine, AddsLineOf, AddsNamedLine};
ghost use Rattle.der_print.specs.Names.{table_of};
ghost use Rattle.der_print.specs.Texts.{content_of};

use crate::front::put_front;
use crate::room::Room;
use crate::style::Style;
use der_elements::Element;
use oid_names::OwnNames;
use std::io;
use std::io::Write;

/// Writes an element's line: its offset, the octets of its header and content, its type, indented by two columns for
/// each element around it, and its value. If `style` limits the columns, the line has no more characters. `room` is a
/// buffer that the next line can use again.
pub fn write_line<W: Write>(
    out: &mut W,
    room: &mut Room,
    element: &Element<'_>,
    style: Style,
) -> io::Result<()>
    ensures { OnOk result (AddsLine style (visited_of element.now) (content_of element.now)
        (W.contents out.old) (W.contents out.new)) }
{
    write_line_of(out, room, element, "", style, None)
}

/// As `write_line`, with the field name and a space before the type. An empty name adds nothing. The name is written as
/// it is, so it must not have a line end.
pub fn write_field_line<W: Write>(
    out: &mut W,
    room: &mut Room,
    element: &Element<'_>,
    field: &str,
    style: Style,
) -> io::Result<()>
    ensures { OnOk result (AddsFieldLine field.now style (visited_of element.now) (content_of element.now)
        (W.contents out.old) (W.contents out.new)) }
{
    write_line_of(out, room, element, field, style, None)
}

/// As `write_line`. `own` names an OBJECT IDENTIFIER before the built-in table does.
pub fn write_named_line<'n, W: Write>(
    out: &mut W,
    room: &mut Room,
    element: &Element<'_>,
    style: Style,
    own: Option<&'n OwnNames<'n>>,
) -> io::Result<()>
    ensures { OnOk result (AddsNamedLine (table_of own.entry) style (visited_of element.now) (content_of element.now)
        (W.contents out.old) (W.contents out.new)) }
{
    write_line_of(out, room, element, "", style, own)
}

/// As `write_field_line` and `write_named_line` together.
pub fn write_line_of<'n, W: Write>(
    out: &mut W,
    room: &mut Room,
    element: &Element<'_>,
    field: &str,
    style: Style,
    own: Option<&'n OwnNames<'n>>,
) -> io::Result<()>
    ensures { OnOk result (AddsLineOf (table_of own.entry) field.now style (visited_of element.now)
        (content_of element.now) (W.contents out.old) (W.contents out.new)) }
{
    let line = &mut room.line;
    line.clear();
    let mut left = style.limit;
    put_front(line, &mut left, element, field, style.colours)?;
    line.put_ending(element, left, own)?;
    line.push(b'\n')?;
    out.write_all(line.as_bytes())?;
    Ok(())
}
