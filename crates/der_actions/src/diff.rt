//! The elements in which two inputs differ.
ghost use Rattle.std.specs.Prelude.{◌≡◌, ◌≤◌, ◌↔◌, ◌∷◌, IfOk, IsTrue, List, MatchOption, OnOk, [], length};
ghost use Rattle.std.specs.Prelude.{if◌then◌else◌, map, slice_range, ℕ};
ghost use Rattle.std.specs.Io.KnownBytes.{Appends};
ghost use Rattle.der_actions.specs.Differences.{AreElementsOf, Compares, IsLineBehind, IsNoSide, WritesChanges};
ghost use Rattle.der_actions.specs.Differences.{WritesDifference, compared, is_entered, outlined, style_behind};
ghost use Rattle.der_actions.specs.Namings.{IsAsAsked};
ghost use Rattle.der_actions.specs.Outputs.{IsRefusedAfter};
ghost use Rattle.der_elements.specs.Visits.{Visited};
ghost use Rattle.der_print.specs.Texts.{content_of};

use crate::fields::{Field, Fields};
use crate::naming::{is_as_asked, schema_of};
use crate::options::Options;
use crate::origin::Origin;
use crate::pairing::partners_of;
use crate::report::{report, report_type};
use der_elements::{Element, Walk};
use der_print::{Limit, Room, Style, octets_or_none};
use std::alloc::Global;
use std::io;
use std::io::Write;
use text_json::fields::{Exposure, write_exposed};

/// Two inputs and their names.
#[derive(Clone, Copy)]
pub struct Sides<'a> {
    pub names: (&'a str, &'a str),
    pub old: &'a [u8],
    pub new: &'a [u8],
}

/// An element, and what the type of its input tells about it.
#[derive(Clone, Copy)]
pub(crate) struct NamedElement<'a> {
    pub element: Element<'a>,
    pub field: Field,
}

/// Whether two inputs differ.
#[derive(Clone, Copy, Debug, PartialEq)]
pub enum Difference {
    Same,
    Different,
}

/// Compares the elements of two inputs, and writes those that differ as lines of a tree: after `-` one of the old
/// input, after `+` one of the new. None if an input isn't valid or doesn't have the type of the options, which is reported.
pub fn compare<W: Write, X: Write>(
    alloc: Global,
    options: &Options<'_>,
    sides: Sides<'_>,
    out: &mut W,
    err: &mut X,
) -> io::Result<Option<Difference>>
    ensures finds { IfOk result (Compares options.now sides.entry.old.now sides.entry.new.now) }
    ensures writes { IfOk result (WritesDifference options.now sides.entry.old.now sides.entry.new.now
        (W.contents out.old) (W.contents out.new)) }
{
    let Some(old) = side_of(alloc, options, sides.names.0, sides.old, err)? else {
        return Ok(None);
    };
    let Some(new) = side_of(alloc, options, sides.names.1, sides.new, err)? else {
        return Ok(None);
    };
    if are_alike(&old, &new) {
        return Ok(Some(Difference::Same));
    }
    write_changes(alloc, options, &old, &new, out)?;
    Ok(Some(Difference::Different))
}

/// The elements of an input. None if it isn't valid or doesn't have the type of the options, which is reported.
fn side_of<'a, X: Write>(
    alloc: Global,
    options: &Options<'_>,
    name: &str,
    octets: &'a [u8],
    err: &mut X,
) -> io::Result<Option<Vec<NamedElement<'a>>>>
    ensures { IfOk result (λ r. MatchOption r (IsNoSide options.now octets.now)
        (λ elements. AreElementsOf options.now octets.now elements.items)) }
{
    let origin = Origin { name, block: None };
    if is_as_asked(options.naming, options.rules, octets) {
        return elements_of(alloc, options, origin, octets, err);
    }
    report_type(options, origin, octets, err)?;
    Ok(None)
}

/// The elements of an input. None if it isn't valid, which is reported.
fn elements_of<'a, X: Write>(
    alloc: Global,
    options: &Options<'_>,
    origin: Origin<'_>,
    octets: &'a [u8],
    err: &mut X,
) -> io::Result<Option<Vec<NamedElement<'a>>>>
    ensures { IfOk result (λ r. MatchOption r ((vs : List Visited) × IsRefusedAfter options.now octets.now vs)
        (λ elements. IsAsAsked options.now.naming options.now.rules octets.now
        → AreElementsOf options.now octets.now elements.items)) }
{
    let mut walk = Walk::new(octets, options.rules, options.enters_strings).keeping_values();
    let mut fields = Fields::new(octets, schema_of(options.naming, options.rules, octets));
    let mut kept = Vec::new(alloc);
    'elements: loop {
        match walk.next_element() {
            Ok(Some(element)) => {
                let field = fields.field_of(&element);
                kept.push(NamedElement { element, field })?;
            }
            Ok(None) => return Ok(Some(kept)),
            Err(refusal) => {
                report(origin, &walk, &refusal, err)?;
                return Ok(None);
            }
        }
    }
}

/// Whether two lists of elements are alike, element by element.
fn are_alike(old: &[NamedElement<'_>], new: &[NamedElement<'_>]) -> bool
    ensures { IsTrue result ↔ (map compared old.now ≡ map compared new.now) }
{
    if old.len() != new.len() {
        return false;
    }
    for index in 0..old.len() {
        if !is_alike(&old[index], &new[index]) {
            return false;
        }
    }
    true
}

/// Whether two elements have the same depth, class, number and form, and the same content unless it is elements.
fn is_alike(old: &NamedElement<'_>, new: &NamedElement<'_>) -> bool
    ensures { IsTrue result ↔ (compared old.now ≡ compared new.now) }
{
    let (old, new) = (&old.element, &new.element);
    old.depth == new.depth
        && old.class == new.class
        && old.number == new.number
        && old.constructed == new.constructed
        && old.holds == new.holds
        && own_content(old) == own_content(new)
}

/// The content octets of an element. Empty if they are elements.
pub(crate) fn own_content<'a>(element: &Element<'a>) -> &'a [u8]
    ensures { result.now ≡ (if is_entered element.now.constructed element.now.holds then []
        else content_of element.now) }
{
    if element.constructed || element.holds.is_some() {
        return &[];
    }
    octets_or_none(element.content)
}

/// Writes the changes that turn the old elements into the new ones.
fn write_changes<W: Write>(
    alloc: Global,
    options: &Options<'_>,
    old: &[NamedElement<'_>],
    new: &[NamedElement<'_>],
    out: &mut W,
) -> io::Result<()>
    ensures { OnOk result (WritesChanges options.now old.now new.now (W.contents out.old) (W.contents out.new)) }
{
    let partners = partners_of(alloc, old, new)?;
    let mut room = Room::new(alloc);
    let mut passed = 0;
    for index in 0..old.len() {
        let partner = partners.get(index).copied().flatten();
        passed = pass(options, &old[index], new, passed, partner, &mut room, out)?;
    }
    write_added(options, &new[passed..], &mut room, out)
}

/// Writes the changes from an old element to new ones, behind those that were passed: up to its partner, if that isn't
/// one of these. Returns how many are passed then.
fn pass<W: Write>(
    options: &Options<'_>,
    element: &NamedElement<'_>,
    new: &[NamedElement<'_>],
    passed: usize,
    partner: Option<usize>,
    room: &mut Room,
    out: &mut W,
) -> io::Result<usize>
    requires { passed ≤ length new.now }
    ensures { IfOk result (λ n. (passed ≤ n) × (n ≤ length new.now)
        × WritesChanges options.now (element.now ∷ []) (slice_range new.now passed n)
        (W.contents out.old) (W.contents out.new)) }
{
    match partner {
        Some(partner) if passed <= partner && partner < new.len() => {
            write_added(options, &new[passed..partner], room, out)?;
            write_pair(options, element, &new[partner], room, out)?;
            Ok(partner + 1)
        }
        _ => {
            write_removed(options, element, room, out)?;
            Ok(passed)
        }
    }
}

/// Writes the changes from an element to another: nothing if they are alike.
fn write_pair<W: Write>(
    options: &Options<'_>,
    old: &NamedElement<'_>,
    new: &NamedElement<'_>,
    room: &mut Room,
    out: &mut W,
) -> io::Result<()>
    ensures { OnOk result (WritesChanges options.now (old.now ∷ []) (new.now ∷ []) (W.contents out.old)
        (W.contents out.new)) }
{
    if is_alike(old, new) {
        return Ok(());
    }
    write_removed(options, old, room, out)?;
    write_one_added(options, new, room, out)
}

/// Writes a line for each element that only the new input has.
fn write_added<W: Write>(
    options: &Options<'_>,
    new: &[NamedElement<'_>],
    room: &mut Room,
    out: &mut W,
) -> io::Result<()>
    ensures { OnOk result (WritesChanges options.now [] new.now (W.contents out.old) (W.contents out.new)) }
{
    for index in 0..new.len() {
        write_one_added(options, &new[index], room, out)?;
    }
    Ok(())
}

/// Writes the line of an element that only the new input has.
fn write_one_added<W: Write>(
    options: &Options<'_>,
    element: &NamedElement<'_>,
    room: &mut Room,
    out: &mut W,
) -> io::Result<()>
    ensures { OnOk result (WritesChanges options.now [] (element.now ∷ []) (W.contents out.old)
        (W.contents out.new)) }
{
    write_behind(b"+ ", options, element, room, out)
}

/// Writes the line of an element that only the old input has.
fn write_removed<W: Write>(
    options: &Options<'_>,
    element: &NamedElement<'_>,
    room: &mut Room,
    out: &mut W,
) -> io::Result<()>
    ensures { OnOk result (WritesChanges options.now (element.now ∷ []) [] (W.contents out.old)
        (W.contents out.new)) }
{
    write_behind(b"- ", options, element, room, out)
}

/// Writes a sign, and the line of an element.
fn write_behind<W: Write>(
    sign: &[u8],
    options: &Options<'_>,
    element: &NamedElement<'_>,
    room: &mut Room,
    out: &mut W,
) -> io::Result<()>
    ensures { OnOk result ((text : List ℕ) × IsLineBehind sign.now options.now element.now text
        × Appends (W.contents out.old) (W.contents out.new) text) }
{
    out.write_all(sign)?;
    let style = style_behind(sign, options.style);
    let field = element.field;
    let exposure = outlined(field.exposure);
    write_exposed(
        out,
        room,
        &element.element,
        field.name,
        exposure,
        style,
        options.own_names,
    )
}

/// How much of an element that differs may be printed: also of one inside a secret the outline.
fn outlined(exposure: Exposure) -> Exposure
    ensures { result ≡ outlined exposure }
{
    match exposure {
        Exposure::Full => Exposure::Full,
        Exposure::Outline | Exposure::Nothing => Exposure::Outline,
    }
}

/// The style of a line behind a sign.
fn style_behind(sign: &[u8], style: Style) -> Style
    ensures { result ≡ style_behind sign.now style }
{
    let limit = match style.limit {
        Limit::Columns(columns) => Limit::Columns(columns.saturating_sub(sign.len())),
        limit => limit,
    };
    Style { limit, ..style }
}
