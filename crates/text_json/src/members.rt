//! The members of an element's object that its content determines.
ghost use Rattle.std.specs.Prelude.{◌≡◌, ◌<◌, ◌^◌, ℕ, IfOk, IfSome, Some, option_map, string_bytes};
ghost use Rattle.der_base.specs.declared.header.Class.{Class};
ghost use Rattle.text_json.specs.Json.{AreBitsOf, AreMembersOf, IsBitCount, IsNameMember, IsTimestamp, IsTimestampOf};
ghost use Rattle.der_print.specs.Names.{table_of};
ghost use Rattle.der_print.specs.Remarks.{IsRemark};
ghost use Rattle.der_print.specs.Texts.{content_of};
ghost use Rattle.der_elements.specs.Walked.{visited_of};

use crate::moment::timestamp_of;
use crate::value::value_of;
use der_base::header::{Class, Tag};
use der_base::time::read_time;
use der_elements::Element;
use der_print::{Remark, octets_or_none};
use oid_names::{OwnNames, name_among};
use serde_json::Value;
use std::alloc::{AllocError, Global};

/// The members of an object that the element's content determines.
#[derive(Drop)]
pub(crate) struct Members<'n> {
    pub value: Value,
    /// The number of bits of a BIT STRING.
    pub bits: Option<usize>,
    /// A time in the form of RFC 3339.
    pub time: Option<String>,
    /// The name of an OBJECT IDENTIFIER.
    pub name: Option<&'n str>,
    /// The remark on a value that breaks its type.
    pub fault: Option<String>,
}

/// The members of an element's object. `own` names an OBJECT IDENTIFIER before the built-in table does.
pub(crate) fn members_of<'n>(
    alloc: Global,
    element: &Element<'_>,
    own: Option<&'n OwnNames<'n>>,
) -> Result<Members<'n>, AllocError>
    ensures { IfOk result (AreMembersOf (table_of own.entry) (visited_of element.now) (content_of element.now)) }
{
    let value = value_of(alloc, element)?;
    let time = time_in(alloc, element)?;
    let fault = fault_in(alloc, element)?;
    Ok(Members {
        value,
        bits: bits_in(element),
        time,
        name: name_in(element, own),
        fault,
    })
}

/// The number of bits of a BIT STRING.
fn bits_in(element: &Element<'_>) -> Option<usize>
    ensures { AreBitsOf (visited_of element.now) (content_of element.now) result }
{
    if element.constructed || element.holds.is_some() || !element.is_universal(3) {
        return None;
    }
    bit_count(octets_or_none(element.content))
}

/// The number of bits, from the content octets of a BIT STRING (X.690 8.6.2).
fn bit_count(content: &[u8]) -> Option<usize>
    ensures some { IfSome result (IsBitCount content.now) }
    ensures only { (n : ℕ) → IsBitCount content.now n → n < 2 ^ 60 → result ≡ Some n }
{
    let [unused, octets @ ..] = content else {
        return None;
    };
    if *unused > 7 {
        return None;
    }
    octets
        .len()
        .checked_mul(8)?
        .checked_sub(usize::from(*unused))
}

/// A time in the form of RFC 3339. None for another type, and for a time without that form.
fn time_in(alloc: Global, element: &Element<'_>) -> Result<Option<String>, AllocError>
    ensures { IfOk result (λ time. IsTimestampOf (visited_of element.now) (content_of element.now)
        (option_map string_bytes time)) }
{
    if element.constructed || element.class != Class::Universal {
        return Ok(None);
    }
    timestamp(alloc, element.number, octets_or_none(element.content))
}

/// A time of a universal type in the form of RFC 3339.
pub(crate) fn timestamp(
    alloc: Global,
    number: u32,
    octets: &[u8],
) -> Result<Option<String>, AllocError>
    ensures { IfOk result (λ time. IsTimestamp number octets.now (option_map string_bytes time)) }
{
    if number != Tag::UtcTime.0 && number != Tag::GeneralizedTime.0 {
        return Ok(None);
    }
    let Some(time) = read_time(Tag(number), octets) else {
        return Ok(None);
    };
    match timestamp_of(time, number == Tag::UtcTime.0) {
        Some(timestamp) => Ok(Some(format!(in alloc; "{timestamp}")?)),
        None => Ok(None),
    }
}

/// The name of an OBJECT IDENTIFIER.
fn name_in<'n>(element: &Element<'_>, own: Option<&'n OwnNames<'n>>) -> Option<&'n str>
    ensures { IsNameMember (table_of own.entry) (visited_of element.now) (content_of element.now)
        (option_map (λ name. name.now) result) }
{
    if element.constructed || !element.is_universal(6) {
        return None;
    }
    name_among(own, octets_or_none(element.content))
}

/// The remark on a value that breaks its type.
fn fault_in(alloc: Global, element: &Element<'_>) -> Result<Option<String>, AllocError>
    ensures { IfOk result (λ fault.
        IsRemark (visited_of element.now) (content_of element.now) (option_map string_bytes fault)) }
{
    match Remark::on(element) {
        Some(remark) => Ok(Some(format!(in alloc; "{remark}")?)),
        None => Ok(None),
    }
}
