//! The elements of an input, as lines.
ghost use Rattle.std.specs.Prelude.{◌≡◌, IfOk, IsTrue, MatchBool, OnOk, false};
ghost use Rattle.der_actions.specs.Outputs.{AddsExposedJson, AddsLineOf, RefusesLines, WritesLines};
ghost use Rattle.text_json.specs.Fields.Lines.{AddsExposed};
ghost use Rattle.der_print.specs.Names.{table_of};
ghost use Rattle.der_print.specs.Texts.{content_of};
ghost use Rattle.der_elements.specs.Walked.{visited_of};

use crate::fields::{Field, Fields};
use crate::listing::Listing;
use crate::naming::schema_of;
use crate::options::Options;
use crate::origin::Origin;
use crate::report::{report_end, report_refusal};
use crate::source::{Names, source_of};
use der_elements::{Element, Walk};
use der_print::Room;
use std::alloc::Global;
use std::io;
use std::io::Write;
use text_json::fields::{Exposure, write_exposed};
use text_json::{Paths, write_json, write_secret};

/// The kind of lines.
#[derive(Clone, Copy, Debug, PartialEq)]
pub enum Lines {
    /// A line of a tree.
    Tree,
    /// An object of JSON.
    Json,
}

/// An element that is visited.
#[derive(Clone, Copy)]
struct Visit {
    /// Whether the element is listed.
    is_listed: bool,
    /// What the type tells about the element, if there is a type.
    field: Field,
}

/// The octets whose elements are printed.
#[derive(Clone, Copy)]
struct Printed<'a> {
    lines: Lines,
    origin: Origin<'a>,
    octets: &'a [u8],
}

/// The state that is kept from line to line.
#[derive(Drop)]
struct Kept {
    /// The memory for a line of a tree.
    room: Room,
    /// The paths for lines of JSON.
    paths: Paths,
}

/// Writes a line for each listed element, with the name of its field, and reports on `err` why the octets aren't valid.
/// Returns whether all of these hold: the octets are valid to their end, at least one element is listed, and the octets
/// have the type of the options, if there is one.
pub fn print_lines<W: Write, X: Write>(
    alloc: Global,
    options: &Options<'_>,
    lines: Lines,
    origin: Origin<'_>,
    octets: &[u8],
    out: &mut W,
    err: &mut X,
) -> io::Result<bool>
    ensures read { IfOk result (λ ok. IsTrue ok
        → WritesLines lines options.now octets.now (W.contents out.old) (W.contents out.new)) }
    ensures refused { IfOk result (λ ok. ok ≡ false
        → RefusesLines lines options.now octets.now (W.contents out.old) (W.contents out.new)) }
{
    let printed = Printed {
        lines,
        origin,
        octets,
    };
    let mut walk = Walk::new(octets, options.rules, options.enters_strings).keeping_values();
    let mut listing = Listing::new(alloc, options);
    let mut fields = Fields::new(octets, schema_of(options.naming, options.rules, octets));
    let mut kept = Kept::new(alloc);
    'elements: loop {
        match walk.next_element() {
            Ok(Some(element)) => {
                let field = fields.field_of(&element);
                let is_listed = listing.takes(alloc, &element, &fields)?;
                let visit = Visit { is_listed, field };
                pass(
                    alloc, options, printed, visit, &fields, &mut kept, &element, out,
                )?;
            }
            Ok(None) => return report_end(alloc, options, origin, octets, &listing, out, err),
            Err(refusal) => return report_refusal(origin, &walk, &refusal, out, err),
        }
    }
}

impl Kept {
    /// The state before the first element.
    fn new(alloc: Global) -> Kept {
        Kept {
            room: Room::new(alloc),
            paths: Paths::new(alloc),
        }
    }
}

/// Moves on to the next element, and writes its line if it is listed.
fn pass<W: Write>(
    alloc: Global,
    options: &Options<'_>,
    printed: Printed<'_>,
    visit: Visit,
    fields: &Fields<'_>,
    kept: &mut Kept,
    element: &Element<'_>,
    out: &mut W,
) -> io::Result<()>
    ensures { OnOk result (MatchBool visit.is_listed
        (AddsLineOf printed.entry.lines visit.field.name.now options.now (visited_of element.now)
        (content_of element.now) visit.field.exposure (W.contents out.old) (W.contents out.new))
        (W.contents out.new ≡ W.contents out.old)) }
{
    match printed.lines {
        Lines::Tree => pass_in_tree(options, visit, &mut kept.room, element, out),
        Lines::Json => pass_in_json(alloc, options, printed, visit, fields, kept, element, out),
    }
}

/// Writes the line of an element in a tree, if it is listed.
fn pass_in_tree<W: Write>(
    options: &Options<'_>,
    visit: Visit,
    room: &mut Room,
    element: &Element<'_>,
    out: &mut W,
) -> io::Result<()>
    ensures { let o = options.now in OnOk result (MatchBool visit.is_listed
        (AddsExposed (table_of o.own_names) visit.field.name.now o.style (visited_of element.now)
        (content_of element.now) visit.field.exposure (W.contents out.old) (W.contents out.new))
        (W.contents out.new ≡ W.contents out.old)) }
{
    if !visit.is_listed {
        return Ok(());
    }
    let (style, own) = (options.style, options.own_names);
    let field = visit.field;
    write_exposed(out, room, element, field.name, field.exposure, style, own)
}

/// Moves on to the path of an element, and writes its JSON object if it is listed.
fn pass_in_json<W: Write>(
    alloc: Global,
    options: &Options<'_>,
    printed: Printed<'_>,
    visit: Visit,
    fields: &Fields<'_>,
    kept: &mut Kept,
    element: &Element<'_>,
    out: &mut W,
) -> io::Result<()>
    ensures { OnOk result (MatchBool visit.is_listed
        (AddsExposedJson visit.field.name.now options.now (visited_of element.now) (content_of element.now)
        visit.field.exposure (W.contents out.old) (W.contents out.new))
        (W.contents out.new ≡ W.contents out.old)) }
{
    kept.paths.enter(alloc, element)?;
    if visit.is_listed {
        let field_path = fields.path(alloc)?;
        let field = visit.field;
        let names = Names {
            path: kept.paths.last(),
            field: field.name,
            field_path: &field_path,
        };
        return write_object(alloc, options, printed, names, field.exposure, element, out);
    }
    Ok(())
}

/// Writes the JSON object of an element, as far as it may be printed.
fn write_object<W: Write>(
    alloc: Global,
    options: &Options<'_>,
    printed: Printed<'_>,
    names: Names<'_>,
    exposure: Exposure,
    element: &Element<'_>,
    out: &mut W,
) -> io::Result<()>
    ensures { OnOk result (AddsExposedJson names.entry.field.now options.now (visited_of element.now)
        (content_of element.now) exposure (W.contents out.old) (W.contents out.new)) }
{
    let source = source_of(options, printed.origin, names, printed.octets, element);
    match exposure {
        Exposure::Full => write_json(alloc, source, element, options.own_names, out),
        Exposure::Outline => write_secret(alloc, source, element, out),
        Exposure::Nothing => Ok(()),
    }
}
