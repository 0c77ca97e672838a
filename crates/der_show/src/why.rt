//! More exact reasons than those of the readers' errors.
ghost use Rattle.std.specs.Option.{option_copied};
ghost use Rattle.std.specs.Prelude.{◌↔◌, IsTrue};
ghost use Rattle.der_show.specs.Why.{IsDefault, IsWhy, IsWhyWrong};

use crate::place::Place;
use crate::refused::Refused;
use certificate_text::{Why, why_of};
use der_elements::Element;
use der_print::octets_or_none;

/// The reason for the error of a reader at the element with this position.
pub(crate) fn why_at(refused: &Refused, place: Option<&Place<'_>>) -> Why
    ensures { IsWhy refused.now (option_copied place.entry) result }
{
    match place {
        Some(place) => {
            let element = &place.element;
            let wrong = why_wrong(refused, element);
            why_of(refused.refusal(), Some(element.name()), wrong)
        }
        None => why_of(refused.refusal(), None, Why::AsRead),
    }
}

/// The reason for the error at an element with a wrong value.
fn why_wrong(refused: &Refused, element: &Element<'_>) -> Why
    ensures { IsWhyWrong refused.now element.now result }
{
    if is_default(refused, element) {
        Why::Default
    } else {
        Why::AsRead
    }
}

/// Whether an element with a wrong value is a written default: FALSE, or the version 0 of a certificate.
fn is_default(refused: &Refused, element: &Element<'_>) -> bool
    ensures { IsTrue result ↔ IsDefault refused.now element.now }
{
    match octets_or_none(element.content) {
        [0] => element.is_universal(1) || (element.is_universal(2) && refused.is_version()),
        _ => false,
    }
}
