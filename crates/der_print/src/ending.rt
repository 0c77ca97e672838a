//! The part of an element's line after the type.
ghost use Rattle.std.specs.Prelude.{◌≡◌, ℕ, IsTrue, List, None, Some, true};
ghost use Rattle.der_elements.specs.Walked.{visited_of};
ghost use Rattle.der_print.specs.Lines.{IsEnding, IsValueSaid, limit_beside};
ghost use Rattle.der_print.specs.Names.{table_of};
ghost use Rattle.der_print.specs.Texts.{content_of};
ghost use Rattle.der_print.specs.Writes.{WritesOne};

use crate::remark::Remark;
use crate::style::Limit;
use crate::value::write_value;
use der_base::rules::Rules;
use der_elements::Element;
use oid_names::OwnNames;
use std::fmt;

/// Returns whether nothing follows the type on an element's line, as for a SEQUENCE.
pub(crate) fn ends_with_type(element: &Element<'_>) -> bool
    ensures { IsTrue result → (element.now.holds ≡ None) × (element.now.constructed ≡ true) }
{
    element.constructed && element.holds.is_none()
}

/// Writes what follows the type on an element's line: the value, and a remark if it breaks its type.
pub(crate) fn write_ending<'n, W: fmt::Write>(
    f: &mut fmt::Formatter<W>,
    element: &Element<'_>,
    limit: Limit,
    own: Option<&'n OwnNames<'n>>,
) -> fmt::Result
    ensures { let v = visited_of element.now in let w = content_of element.now in
        WritesOne W.Write.write_str_gives f.old result (IsEnding (table_of own.entry) limit v w) f.new }
{
    match element.holds {
        Some(Rules::Ber) => write!(f, " holding BER"),
        Some(Rules::Der) => write!(f, " holding DER"),
        None if element.constructed => Ok(()),
        None => write_value_said(f, element, limit, own),
    }
}

/// Writes a value, and a remark if it breaks its type.
fn write_value_said<'n, W: fmt::Write>(
    f: &mut fmt::Formatter<W>,
    element: &Element<'_>,
    limit: Limit,
    own: Option<&'n OwnNames<'n>>,
) -> fmt::Result
    ensures { let v = visited_of element.now in let w = content_of element.now in
        WritesOne W.Write.write_str_gives f.old result (IsValueSaid (table_of own.entry) limit v w) f.new }
{
    match Remark::on(element) {
        Some(remark) => {
            write_value(f, element, beside(limit), own)?;
            write!(f, "  {remark}")
        }
        None => write_value(f, element, limit, own),
    }
}

/// The limit of a value beside a remark, which takes half of the columns.
fn beside(limit: Limit) -> Limit
    ensures { (remark : List ℕ) → result ≡ limit_beside limit (Some remark) }
{
    match limit {
        Limit::Columns(columns) => Limit::Columns(columns / 2),
        Limit::Whole | Limit::Front => limit,
    }
}
