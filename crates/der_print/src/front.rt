//! The part of an element's line before the value.
ghost use Rattle.std.specs.Prelude.{◌≡◌, ◌+◌, ◌*◌, ◌≤◌, ◌++◌, IfOk, OnOk, min};
ghost use Rattle.der_elements.specs.TypeNames.{type_text};
ghost use Rattle.der_elements.specs.Walked.{visited_of};
ghost use Rattle.der_print.specs.Lines.{at_left, field_text, front_text, length_text, letters, limit_of, margin_text};
ghost use Rattle.der_print.specs.Lines.{most_spaces};
ghost use Rattle.der_print.specs.Parts.{AddsPart};
ghost use Rattle.der_print.specs.Texts.{octets_in, row_text};

use crate::line_octets::LineOctets;
use crate::row::Row;
use crate::style::Limit;
use der_elements::{Element, MAX_DEPTH, TypeName};
use std::alloc::AllocError;

/// Begins dim text (ECMA-48 8.3.117), after an escape character.
const DIM: &[u8] = b"[2m";

/// Begins bold text.
const BOLD: &[u8] = b"[1m";

/// Ends dim or bold text.
const PLAIN: &[u8] = b"[0m";

/// The columns for the offset.
const OFFSET: usize = 7;

/// The columns for the number of header octets.
const HEADER: usize = 2;

/// The columns for the number of content octets.
const LENGTH: usize = 7;

/// The columns of the numbers, up to 10 million.
const NUMBERS: usize = 19;

/// The most spaces that are put at once with the numbers.
const NEAR: usize = 40;

/// The most spaces before the field name and the type: an element is inside 100 others at most.
const MOST_SPACES: usize = 2 * MAX_DEPTH;

/// Puts the offset, the octets of header and content, two spaces for each element around, the field name, and the type
/// or tag, as far as the limit allows.
pub(crate) fn put_front(
    line: &mut LineOctets,
    left: &mut Limit,
    element: &Element<'_>,
    field: &str,
    colours: bool,
) -> Result<(), AllocError>
    ensures { let v = visited_of element.now in OnOk result (
        (octets_in line.new ≡ octets_in line.old ++ front_text colours left.old field.now v)
        × (left.new ≡ limit_of left.old field.now v)) }
{
    put_letters(line, colours, DIM)?;
    put_margin(line, left, element)?;
    put_letters(line, colours, PLAIN)?;
    put_field(line, left, field)?;
    put_letters(line, colours, BOLD)?;
    put_type(line, left, element.name())?;
    put_letters(line, colours, PLAIN)
}

/// Begins or ends dim or bold text, if there are colours.
#[inline(always)]
fn put_letters(line: &mut LineOctets, colours: bool, code: &[u8]) -> Result<(), AllocError>
    ensures { OnOk result (octets_in line.new ≡ octets_in line.old ++ letters colours code.now) }
{
    if colours {
        return line.put_escaped(code);
    }
    Ok(())
}

/// Puts the offset, the octets of header and content, and two spaces for each element around.
fn put_margin(
    line: &mut LineOctets,
    left: &mut Limit,
    element: &Element<'_>,
) -> Result<(), AllocError>
    ensures { let text = margin_text left.old (visited_of element.now) in
        OnOk result (AddsPart left.old text (octets_in line.old) (octets_in line.new) left.new) }
{
    let spaces = spaces_of(element.depth, *left);
    let near = spaces.min(NEAR);
    let mut row = Row::new();
    row.put_spaces(near);
    row.put(b' ');
    put_length(&mut row, element.length);
    row.put(b'+');
    row.put_at_right(HEADER, element.header);
    row.put(b' ');
    row.put_at_right(OFFSET, element.offset);
    let start = line.len();
    line.put(row.as_bytes())?;
    line.put_spaces(spaces - near)?;
    line.end_part(start, left)
}

/// The number of spaces before the field name and the type.
fn spaces_of(depth: usize, limit: Limit) -> usize
    ensures spaces { result ≡ min (depth * 2) (most_spaces limit) }
    ensures few { result ≤ 200 }
{
    let most = match limit {
        Limit::Columns(columns) => MOST_SPACES.min(columns.saturating_sub(NUMBERS) / 2),
        Limit::Whole | Limit::Front => MOST_SPACES,
    };
    depth.saturating_mul(2).min(most)
}

/// Puts the number of content octets before a text.
fn put_length(row: &mut Row, length: Option<usize>)
    requires { 20 ≤ row.old.start }
    ensures text { row_text row.new ≡ at_left 7 (length_text length) ++ row_text row.old }
    ensures room { row.old.start ≤ row.new.start + 20 }
{
    match length {
        Some(length) => row.put_number_at_left(LENGTH, length),
        None => row.put_at_left(LENGTH, b"inf"),
    }
}

/// Puts the field name and a space, or nothing if the name is empty.
fn put_field(line: &mut LineOctets, left: &mut Limit, field: &str) -> Result<(), AllocError>
    ensures { let text = field_text field.now in
        OnOk result (AddsPart left.old text (octets_in line.old) (octets_in line.new) left.new) }
{
    if field.is_empty() {
        return Ok(());
    }
    line.put_word(field.as_bytes(), left)
}

/// Puts a type or tag.
fn put_type(line: &mut LineOctets, left: &mut Limit, name: TypeName) -> Result<(), AllocError>
    ensures { let text = type_text name.class name.number in
        OnOk result (AddsPart left.old text (octets_in line.old) (octets_in line.new) left.new) }
{
    if let Some(text) = name.known() {
        return line.put_part(text.as_bytes(), left);
    }
    let start = line.len();
    line.put_text(name)?;
    line.end_part(start, left)
}
