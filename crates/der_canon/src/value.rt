//! Values of BER that DER has no form of.
ghost use Rattle.std.specs.Prelude.{◌≡◌, ℕ, List, false};
ghost use Rattle.der_elements.specs.Walked.{HasOctets, visited_of};
ghost use Rattle.der_canon.specs.NoDer.{ChecksForm, ChecksValue, rules_of};
ghost use Rattle.der_canon.specs.Same.{content_of};

use der_base::header::Class;
use der_base::rules::Rules;
use der_contents::check_content;
use der_elements::{Cause, Element};

/// Checks that DER has a form of a primitive element of BER that is no part of a string.
pub(crate) fn check_value(element: &Element<'_>) -> Result<(), Cause>
    ensures { (i : List ℕ) → HasOctets i element.now → element.now.constructed ≡ false
        → ChecksValue element.now.class element.now.number (content_of i (visited_of element.now)) result }
{
    match element.content {
        Some(content) if element.class == Class::Universal => check_form(element.number, content),
        _ => Ok(()),
    }
}

/// Checks that DER has a form of the content of a universal type with this number.
fn check_form(number: u32, content: &[u8]) -> Result<(), Cause>
    ensures { ChecksForm number content.now result }
{
    match check_content(rules_of(number), number, content) {
        Ok(()) => Ok(()),
        Err(e) => Err(Cause::Value(e)),
    }
}

/// The rules that a content has to keep before it is written. DER's form of a BOOLEAN and of unused bits is made when
/// they are written.
fn rules_of(number: u32) -> Rules
    ensures { result ≡ rules_of number }
{
    match number {
        1 | 3 => Rules::Ber,
        _ => Rules::Der,
    }
}
