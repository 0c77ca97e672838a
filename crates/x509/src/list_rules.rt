//! Rules that compare the items of a list.
ghost use Rattle.std.specs.Prelude.{◌≡◌, ◌≢◌, ◌↔◌, IsTrue, [], true};
ghost use Rattle.x509.specs.Certificates.{extension_of};
ghost use Rattle.x509.specs.Rules.{AttributesDescend, DescendsNext, HasCriticalList, HasDescent, IsFilled};

use crate::extension::{Extension, Extensions};
use crate::first_element::first_element;
use crate::identifier::absolute_octets;
use crate::name::Name;
use der_base::header::Tag;
use der_base::set_of_order::descends;

/// Returns whether attributes of a relative name are out of order: as a SET OF they ascend (X.690 11.6).
pub fn has_descent(name: Name<'_>) -> bool
    ensures { IsTrue result ↔ HasDescent name.entry.octets.now }
{
    let mut left = name.octets;
    while let Some(relative_name) = first_element(left, true, Tag::Set) {
        if attributes_descend(relative_name.content) {
            return true;
        }
        left = relative_name.rest;
    }
    false
}

/// Returns whether an attribute is greater than the one after it.
fn attributes_descend(attributes: &[u8]) -> bool
    ensures { IsTrue result ↔ AttributesDescend attributes.now }
{
    let mut left = attributes;
    while let Some(attribute) = first_element(left, true, Tag::Sequence) {
        if descends_next(attribute.octets, attribute.rest) {
            return true;
        }
        left = attribute.rest;
    }
    false
}

/// Returns whether an attribute is greater than the first of those after it.
fn descends_next(attribute: &[u8], rest: &[u8]) -> bool
    ensures { IsTrue result ↔ DescendsNext attribute.now rest.now }
{
    match first_element(rest, true, Tag::Sequence) {
        Some(next) => descends(attribute, next.octets),
        None => false,
    }
}

/// Returns whether one of the extensions has this identifier, is critical and has a SEQUENCE with items as its value.
pub(crate) fn has_critical_list(extensions: Extensions<'_>, identifier: &[u8]) -> bool
    ensures { IsTrue result ↔ HasCriticalList identifier.now extensions.entry.octets.now }
{
    for extension in extensions.iter() {
        if is_critical_list(&extension, identifier) {
            return true;
        }
    }
    false
}

/// Returns whether the extension has this identifier, is critical and has a SEQUENCE with items as its value.
fn is_critical_list(extension: &Extension<'_>, identifier: &[u8]) -> bool
    ensures { let e = extension_of extension.now in
        IsTrue result ↔ (e.identifier ≡ identifier.now) × (e.critical ≡ true) × IsFilled e.value }
{
    extension.critical
        && absolute_octets(&extension.identifier) == identifier
        && is_filled(extension.value)
}

/// Returns whether the octets are a SEQUENCE with items.
fn is_filled(octets: &[u8]) -> bool
    ensures { IsTrue result ↔ IsFilled octets.now }
{
    match first_element(octets, true, Tag::Sequence) {
        Some(list) => is_filled_to_end(list.content, list.rest),
        None => false,
    }
}

fn is_filled_to_end(content: &[u8], rest: &[u8]) -> bool
    ensures { IsTrue result ↔ ((rest.now ≡ []) × (content.now ≢ [])) }
{
    rest.is_empty() && !content.is_empty()
}
