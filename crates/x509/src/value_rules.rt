//! The rule that values of any type are DER (X.690 10). Nothing is copied.
ghost use Rattle.std.specs.Prelude.{◌↔◌, IsTrue};
ghost use Rattle.x509.specs.Certificates.{algorithm_of};
ghost use Rattle.x509.specs.Rules.{AttributesBreakDer, IsDer, NameBreaksDer, ParametersBreakDer, ValueBreaksDer};

use crate::algorithm::AlgorithmIdentifier;
use crate::first_element::first_element;
use crate::name::Name;
use der_base::MAX_RECURSION;
use der_base::header::Tag;
use der_base::rules::Rules;
use der_elements::check::is_element;

/// Returns whether the algorithm has parameters that aren't one DER element.
pub fn parameters_break_der(algorithm: &AlgorithmIdentifier<'_>) -> bool
    ensures { IsTrue result ↔ ParametersBreakDer (algorithm_of algorithm.now) }
{
    !algorithm.parameters.is_empty() && !is_der(algorithm.parameters)
}

/// Returns whether an attribute of the name has a value that isn't one DER element.
pub fn name_breaks_der(name: Name<'_>) -> bool
    ensures { IsTrue result ↔ NameBreaksDer name.entry.octets.now }
{
    let mut left = name.octets;
    while let Some(relative_name) = first_element(left, true, Tag::Set) {
        if attributes_break_der(relative_name.content) {
            return true;
        }
        left = relative_name.rest;
    }
    false
}

/// Returns whether one of the attributes has a value that isn't one DER element.
fn attributes_break_der(attributes: &[u8]) -> bool
    ensures { IsTrue result ↔ AttributesBreakDer attributes.now }
{
    let mut left = attributes;
    while let Some(attribute) = first_element(left, true, Tag::Sequence) {
        if value_breaks_der(attribute.content) {
            return true;
        }
        left = attribute.rest;
    }
    false
}

/// Returns whether the attribute with this content has a value that isn't one DER element.
fn value_breaks_der(attribute: &[u8]) -> bool
    ensures { IsTrue result ↔ ValueBreaksDer attribute.now }
{
    match first_element(attribute, false, Tag::Oid) {
        Some(identifier) => !is_der(identifier.rest),
        None => false,
    }
}

/// Returns whether octets are one DER element, nested to `MAX_RECURSION`.
fn is_der(octets: &[u8]) -> bool
    ensures { IsTrue result ↔ IsDer octets.now }
{
    is_element(octets, Rules::Der, MAX_RECURSION)
}
