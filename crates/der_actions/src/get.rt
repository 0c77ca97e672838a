//! The octets of an element.
ghost use Rattle.std.specs.Prelude.{◌≡◌, IfOk, IsTrue, List, false, ℕ};
ghost use Rattle.der_actions.specs.Namings.{IsAsAsked};
ghost use Rattle.der_actions.specs.Outputs.{RefusesPart, WritesPart};
ghost use Rattle.der_actions.specs.Parts.{AreOctetsOf, AreWrittenOf};
ghost use Rattle.der_elements.specs.Walked.{visited_of};

use crate::fields::Fields;
use crate::naming::{is_as_asked, schema_of};
use crate::options::Options;
use crate::origin::Origin;
use crate::part::{octets_of, part_of};
use crate::place::is_asked;
use crate::report::{report, report_first, report_missing, report_type};
use crate::trail::Trail;
use der_elements::{Element, Walk};
use std::alloc::Global;
use std::io;
use std::io::Write;

/// Writes the octets of the first element at the place. Returns whether they were written. If not, reports why on
/// `err`: there is no such element, an error comes before it, it is incomplete, or the input doesn't have the type of
/// the options.
pub fn write_part<W: Write, X: Write>(
    alloc: Global,
    options: &Options<'_>,
    origin: Origin<'_>,
    octets: &[u8],
    out: &mut W,
    err: &mut X,
) -> io::Result<bool>
    ensures read { IfOk result (λ ok. IsTrue ok
        → WritesPart options.now octets.now (W.contents out.old) (W.contents out.new)) }
    ensures refused { IfOk result (λ ok. ok ≡ false
        → RefusesPart options.now octets.now (W.contents out.old) (W.contents out.new)) }
{
    if is_as_asked(options.naming, options.rules, octets) {
        return write_first(alloc, options, origin, octets, out, err);
    }
    report_type(options, origin, octets, err)?;
    Ok(false)
}

/// Writes the octets of the first element at the place, or reports that there is none.
fn write_first<W: Write, X: Write>(
    alloc: Global,
    options: &Options<'_>,
    origin: Origin<'_>,
    octets: &[u8],
    out: &mut W,
    err: &mut X,
) -> io::Result<bool>
    ensures read { IsAsAsked options.now.naming options.now.rules octets.now → IfOk result (λ ok. IsTrue ok
        → WritesPart options.now octets.now (W.contents out.old) (W.contents out.new)) }
    ensures refused { IfOk result (λ ok. ok ≡ false
        → RefusesPart options.now octets.now (W.contents out.old) (W.contents out.new)) }
{
    let mut walk = Walk::new(octets, options.rules, options.enters_strings).keeping_values();
    let mut trail = Trail::new(alloc);
    let mut fields = Fields::new(octets, schema_of(options.naming, options.rules, octets));
    'elements: loop {
        match walk.next_element() {
            Ok(Some(element)) => {
                trail.enter(&element)?;
                fields.field_of(&element);
                let asked = is_asked(alloc, options.place, &element, &trail, &fields)?;
                if asked {
                    return write_octets(options, origin, octets, &element, out, err);
                }
            }
            Ok(None) => {
                report_missing(alloc, options, origin, octets, err)?;
                return Ok(false);
            }
            Err(refusal) => {
                report(origin, &walk, &refusal, err)?;
                return Ok(false);
            }
        }
    }
}

/// Writes the octets of an element, or reports the error that makes it incomplete.
fn write_octets<W: Write, X: Write>(
    options: &Options<'_>,
    origin: Origin<'_>,
    input: &[u8],
    element: &Element<'_>,
    out: &mut W,
    err: &mut X,
) -> io::Result<bool>
    ensures read { IfOk result (λ ok. IsTrue ok → AreWrittenOf options.now input.now (visited_of element.now)
        (W.contents out.old) (W.contents out.new)) }
    ensures refused { IfOk result (λ ok. ok ≡ false
        → ((w : List ℕ) → AreOctetsOf input.now (visited_of element.now) w → ⊥)
        × (W.contents out.new ≡ W.contents out.old)) }
{
    match octets_of(input, element) {
        Some(octets) => {
            out.write_all(part_of(element, octets, options.is_content))?;
            Ok(true)
        }
        None => {
            report_first(options, origin, input, err)?;
            Ok(false)
        }
    }
}
