//! The octets of an element.
ghost use Rattle.std.specs.Prelude.{◌≡◌, ◌+◌, ◌++◌, ◌-◌, ◌<◌, List, MatchOption, drop, length, take, ℕ};
ghost use Rattle.der_base.specs.declared.rules.Rules.{Rules};
ghost use Rattle.der_elements.specs.Check.Elements.{IsElement};
ghost use Rattle.der_actions.specs.Parts.{AreOctetsOf, part_of};
ghost use Rattle.der_elements.specs.Walked.{visited_of};

use der_elements::check::check_element;
use der_elements::{Element, MAX_DEPTH, Rules};

/// The number of end-of-contents octets (X.690 8.1.5).
const END_MARKER: usize = 2;

/// The octets of an element: as many as its header says. With an indefinite length, they end with the end-of-contents
/// octets. None if the input is truncated, or if an element with an indefinite length isn't valid BER.
pub(crate) fn octets_of<'a>(input: &'a [u8], element: &Element<'_>) -> Option<&'a [u8]>
    ensures { MatchOption result ((w : List ℕ) → AreOctetsOf input.now (visited_of element.now) w → ⊥)
        (λ w. AreOctetsOf input.now (visited_of element.now) w.now) }
{
    let here = octets_from(input, element.offset);
    match element.length {
        Some(length) => first_octets(here, element.header, length),
        None => first_element(here),
    }
}

/// The octets from an offset on.
fn octets_from(input: &[u8], offset: usize) -> &[u8]
    ensures { result.now ≡ drop offset input.now }
{
    if offset < input.len() {
        &input[offset..]
    } else {
        &[]
    }
}

/// The octets of a header and of a content at the start. None if there are fewer.
fn first_octets(here: &[u8], header: usize, content: usize) -> Option<&[u8]>
    ensures { MatchOption result (length here.now < header + content)
        (λ w. (rest : List ℕ) × (here.now ≡ w.now ++ rest) × (length w.now ≡ header + content)) }
{
    let Some(number) = header.checked_add(content) else {
        return None;
    };
    if number > here.len() {
        return None;
    }
    let (octets, _) = here.split_at(number);
    Some(octets)
}

/// The octets of the BER element at the start. None if there is none.
fn first_element(here: &[u8]) -> Option<&[u8]>
    ensures { MatchOption result ((w rest : List ℕ) → here.now ≡ w ++ rest → IsElement Rules.Ber 101 w → ⊥)
        (λ w. (rest : List ℕ) × (here.now ≡ w.now ++ rest) × IsElement Rules.Ber 101 w.now) }
{
    let Some(rest) = check_element(here, Rules::Ber, MAX_DEPTH + 1) else {
        return None;
    };
    let (octets, _) = here.split_at(here.len() - rest.len());
    Some(octets)
}

/// The octets of an element, or of its content only.
pub(crate) fn part_of<'a>(element: &Element<'_>, octets: &'a [u8], is_content: bool) -> &'a [u8]
    ensures { result.now ≡ part_of is_content (visited_of element.now) octets.now }
{
    if !is_content {
        return octets;
    }
    let content = octets_from(octets, element.header);
    match element.length {
        Some(_) => content,
        None => without_last(content, END_MARKER),
    }
}

/// The octets without the last `number` ones.
fn without_last(octets: &[u8], number: usize) -> &[u8]
    ensures { result.now ≡ take (length octets.now - number) octets.now }
{
    let (front, _) = octets.split_at(octets.len().saturating_sub(number));
    front
}
