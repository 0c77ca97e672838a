//! Signs that tell a type from others that may have the same elements.
ghost use Rattle.std.specs.Prelude.{◌≡◌, List, length, option_map, slice_get};
ghost use Rattle.std.specs.List.{list_all, list_any};
ghost use Rattle.der_base.specs.TreeEquality.{same_octets};
ghost use Rattle.der_schema.specs.Known.{all_extras};
ghost use Rattle.der_schema.specs.Signs.{contents_in, has_components, has_sign, is_long, is_odd, is_odd_positive};
ghost use Rattle.der_schema.specs.Signs.{is_positive, meets, selects};
ghost use Rattle.der_elements.specs.Visits.{Visited, Visits};

use crate::matching::{content_of, is_same, selected_by};
use crate::schema::{Component, Selection};
use der_base::rules::Rules;
use der_elements::Walk;

/// Something in the content octets of an element by which a type can be told from others.
#[derive(Clone, Copy)]
pub struct Sign {
    /// The number of the element in preorder. The outermost element has 0.
    pub element: usize,
    pub content: Requirement,
}

/// Content octets.
#[derive(Clone, Copy)]
pub struct Octets {
    pub octets: &'static [u8],
}

/// What the content octets have to be.
#[derive(Clone, Copy)]
pub enum Requirement {
    /// One of these.
    OneOf(&'static [Octets]),
    /// None of these.
    NoneOf(&'static [Octets]),
    /// An identifier that selects something.
    Selects(&'static [Selection]),
    /// This many octets at least, and this many at most.
    Length(usize, usize),
    /// An INTEGER that is positive and odd.
    OddPositive,
}

/// Whether an input has all these signs.
pub(crate) fn has_signs(input: &[u8], rules: Rules, signs: &'static [Sign]) -> bool
    ensures { (vs : List Visited) → Visits all_extras rules 101 0 0 input.now vs
        → result ≡ list_all (has_sign (contents_in input.now vs)) signs.now }
{
    let mut ahead = signs;
    while let Some((sign, rest)) = ahead.split_first() {
        if !has_sign(input, rules, sign) {
            return false;
        }
        ahead = rest;
    }
    true
}

/// Whether an input has this sign.
fn has_sign(input: &[u8], rules: Rules, sign: &Sign) -> bool
    ensures { (vs : List Visited) → Visits all_extras rules 101 0 0 input.now vs
        → result ≡ has_sign (contents_in input.now vs) sign.now }
{
    meets(sign.content, content_at(input, rules, sign.element))
}

/// The content octets of the element with this number in preorder, if there is one.
fn content_at<'a>(input: &'a [u8], rules: Rules, number: usize) -> Option<&'a [u8]>
    ensures { (vs : List Visited) → Visits all_extras rules 101 0 0 input.now vs
        → option_map (λ octets. octets.now) result ≡ slice_get (contents_in input.now vs) number }
{
    let mut walk = Walk::new(input, rules, true).keeping_values();
    let mut before = number;
    'elements: loop {
        match walk.next_element() {
            Ok(Some(element)) => {
                if before == 0 {
                    return Some(content_of(input, &element));
                }
                before -= 1;
            }
            Ok(None) => return None,
            Err(_) => return None,
        }
    }
}

/// Whether there is an element whose content octets meet this requirement.
fn meets(requirement: Requirement, content: Option<&[u8]>) -> bool
    ensures { result ≡ meets requirement (option_map (λ octets. octets.now) content.entry) }
{
    let Some(octets) = content else {
        return false;
    };
    match requirement {
        Requirement::OneOf(these) => is_among(these, octets),
        Requirement::NoneOf(these) => !is_among(these, octets),
        Requirement::Selects(selections) => selects(selections, octets),
        Requirement::Length(least, most) => is_long(octets, least, most),
        Requirement::OddPositive => is_odd_positive(octets),
    }
}

/// Whether these octets are in a list.
fn is_among(these: &'static [Octets], octets: &[u8]) -> bool
    ensures { result ≡ list_any (λ one. same_octets one.octets.now octets.now) these.now }
{
    let mut ahead = these;
    while let Some((one, rest)) = ahead.split_first() {
        if is_same(one.octets, octets) {
            return true;
        }
        ahead = rest;
    }
    false
}

/// Whether an identifier with these content octets selects something.
fn selects(selections: &'static [Selection], identifier: &[u8]) -> bool
    ensures { result ≡ selects selections.now identifier.now }
{
    match selected_by(selections, identifier) {
        Some(selection) => has_components(selection.components),
        None => false,
    }
}

fn has_components(components: &'static [Component]) -> bool
    ensures { result ≡ has_components components.now }
{
    match components {
        [] => false,
        [_, ..] => true,
    }
}

/// Whether there are at least `least` and at most `most` octets.
fn is_long(octets: &[u8], least: usize, most: usize) -> bool
    ensures { result ≡ is_long least most octets.now }
{
    let size = octets.len();
    least <= size && size <= most
}

/// Whether these are the content octets of an INTEGER that is positive and odd.
fn is_odd_positive(octets: &[u8]) -> bool
    ensures { result ≡ is_odd_positive octets.now }
{
    is_positive(octets) && is_odd(octets)
}

/// Whether the first bit is 0.
fn is_positive(octets: &[u8]) -> bool
    ensures { result ≡ is_positive octets.now }
{
    match octets.first() {
        Some(octet) => *octet < 128,
        None => false,
    }
}

/// Whether the last bit is 1.
fn is_odd(octets: &[u8]) -> bool
    ensures { result ≡ is_odd octets.now }
{
    match octets.last() {
        Some(octet) => *octet % 2 == 1,
        None => false,
    }
}
