//! Lines with the names of fields.
ghost use Rattle.std.specs.Prelude.{◌≡◌, ◌↔◌, IfOk, OnOk};
ghost use Rattle.text_json.specs.Fields.Fields.{label_text, left_past};
ghost use Rattle.text_json.specs.Fields.Lines.{AddsExposed, WritesFields};
ghost use Rattle.der_print.specs.Names.{table_of};
ghost use Rattle.der_schema.specs.Known.{IsOfType};
ghost use Rattle.der_schema.specs.Meaning.{root_of};
ghost use Rattle.der_print.specs.Texts.{content_of};
ghost use Rattle.der_schema.specs.Steps.{label_of};
ghost use Rattle.der_elements.specs.Walked.{visited_of};

use crate::fields::named::{Named, ended, refused};
use crate::fields::secrets::{Exposure, SECRET, Secrets};
use der_base::rules::Rules;
use der_elements::{Element, Walk};
use der_print::{Room, Style, write_line_of, write_outline};
use der_schema::{Name, Namer, Schema};
use oid_names::OwnNames;
use std::alloc::Global;
use std::io;
use std::io::Write;

/// Writes a line for each element of an input, with the name of its field in a type, up to the end of the input or to
/// the first error. Returns how the input matches the type.
///
/// An element that isn't in the type has no name. Nor has any element inside it, or after it in the same content.
/// Strings that contain an element are entered. By BER, a value that breaks a rule of its type is no error.
///
/// The name of an OBJECT IDENTIFIER comes from `own` if that has it, else from the built-in table. The value of an
/// element that the type marks as secret isn't written, and neither is any element inside it.
///
/// # Examples
///
/// ```
/// let types = KnownTypes::new();
/// let schema = types.type_named("Certificate").context("a known type")?;
/// match write_fields(rt.alloc(), &input, schema, Rules::Der, style, None, &mut out)? {
///     Named::Whole => {}
///     Named::Lacks => writeln!(err, "a mandatory component lacks")?,
///     Named::Left(offset) => writeln!(err, "not in {} from {offset} on", schema.name)?,
///     Named::Refused(end) => writeln!(err, "at {}", end.refusal.offset)?,
/// }
/// ```
pub fn write_fields<'a, 'n, W: Write>(
    alloc: Global,
    input: &'a [u8],
    schema: Schema<'_>,
    rules: Rules,
    style: Style,
    own: Option<&'n OwnNames<'n>>,
    out: &mut W,
) -> io::Result<Named<'a>>
    ensures writes { IfOk result (λ named. WritesFields (root_of schema.entry) rules (table_of own.entry) style
        input.now named (W.contents out.old) (W.contents out.new)) }
    ensures whole { IfOk result (λ named. (named ≡ Named.Whole) ↔ IsOfType (root_of schema.entry) rules input.now) }
{
    let mut walk = Walk::new(input, rules, true).keeping_values();
    let mut namer = Namer::new(input, schema);
    let mut room = Room::new(alloc);
    let mut secrets = Secrets::new();
    let mut left = None;
    'elements: loop {
        match walk.next_element() {
            Ok(Some(element)) => {
                let name = namer.name_of(&element);
                left = left_past(left, name, element.offset);
                let exposure = secrets.pass(&element, name);
                let field = text_of(name);
                write_exposed(out, &mut room, &element, field, exposure, style, own)?;
            }
            Ok(None) => return Ok(ended(left, namer.is_whole())),
            Err(refusal) => return Ok(refused(walk, refusal, left)),
        }
    }
}

/// Writes as much of the line of an element as may be printed.
pub fn write_exposed<'n, W: Write>(
    out: &mut W,
    room: &mut Room,
    element: &Element<'_>,
    field: &str,
    exposure: Exposure,
    style: Style,
    own: Option<&'n OwnNames<'n>>,
) -> io::Result<()>
    ensures { OnOk result (AddsExposed (table_of own.entry) field.now style (visited_of element.now)
        (content_of element.now) exposure (W.contents out.old) (W.contents out.new)) }
{
    match exposure {
        Exposure::Full => write_line_of(out, room, element, field, style, own),
        Exposure::Outline => write_outline(out, room, element, field, SECRET, style),
        Exposure::Nothing => Ok(()),
    }
}

/// The text of a name. Empty if the element isn't in the type.
fn text_of(name: Option<Name>) -> &'static str
    ensures { result.now ≡ label_text (label_of name) }
{
    match name {
        Some(name) => name.text,
        None => "",
    }
}

/// The offset of the first element that isn't in the type, after one more element with this name at this offset.
pub(crate) fn left_past(left: Option<usize>, name: Option<Name>, offset: usize) -> Option<usize>
    ensures { result ≡ left_past left (label_of name) offset }
{
    match name {
        Some(_) => left,
        None => left.or(Some(offset)),
    }
}
