//! The first fault of a list inside a string.
ghost use Rattle.std.specs.Prelude.{◌↔◌, ℕ, IsTrue, MatchOption, Some};
ghost use Rattle.der_elements.specs.Inside.{IsFaultInside, IsListFrame, IsListOf};
ghost use Rattle.der_elements.specs.Reading.{FindsString, octets_or_none};
ghost use Rattle.der_elements.specs.Walked.{visited_of};

use crate::check::is_element;
use crate::element::Element;
use crate::fault::first_fault;
use der_base::header::{Class, Header, Length, Tag};
use der_base::rules::Rules;

/// How many elements may be nested in a list.
const MOST_INSIDE: usize = 101;

/// The offset in the input of the first element that isn't valid by BER in a list inside a string. None if the string
/// doesn't contain a SEQUENCE or SET by its header and length, or if that is valid.
///
/// An offset above `usize::MAX` is given as `usize::MAX`.
pub fn fault_inside(element: &Element<'_>) -> Option<usize>
    ensures { let v = visited_of element.now in let w = octets_or_none element.now.content in
        MatchOption result ((n : ℕ) → ¬ IsFaultInside v w n) (λ n. IsFaultInside v w n) }
{
    match element.string_octets() {
        Some(octets) => fault_in(element, octets),
        None => None,
    }
}

/// The first fault of a list that is the content of a string.
#[inline(never)]
fn fault_in(element: &Element<'_>, octets: &[u8]) -> Option<usize>
    requires { FindsString element.now (Some octets) }
    ensures { let v = visited_of element.now in let w = octets_or_none element.now.content in
        MatchOption result ((n : ℕ) → ¬ IsFaultInside v w n) (λ n. IsFaultInside v w n) }
{
    if !is_list_frame(octets) || is_element(octets, Rules::Ber, MOST_INSIDE) {
        return None;
    }
    let fault = first_fault(octets, Rules::Ber, MOST_INSIDE);
    let content = element.offset.saturating_add(element.header);
    let list = content.saturating_add(element.string_front());
    Some(list.saturating_add(fault.offset))
}

/// Whether octets have the header of a SEQUENCE or SET and as many content octets as its definite length.
fn is_list_frame(octets: &[u8]) -> bool
    ensures { IsTrue result ↔ IsListFrame octets.now }
{
    match Rules::Ber.read_header(octets) {
        Ok(found) => is_list_of(&found.1, found.0.len()),
        Err(_) => false,
    }
}

/// Whether a header is that of a SEQUENCE or SET with this definite length.
fn is_list_of(header: &Header<'_>, length: usize) -> bool
    ensures { IsTrue result ↔ IsListOf header.now length }
{
    let tag = header.tag();
    header.class() == Class::Universal
        && header.constructed()
        && (tag == Tag::Sequence || tag == Tag::Set)
        && header.length() == Length::Definite(length)
}
