//! Constructed strings. When one ends, its content is checked as it was written.
ghost use Rattle.std.specs.Prelude.{◌≡◌, IfErr, OnOk};
ghost use Rattle.der_base.specs.declared.rules.Rules.{Rules};
ghost use Rattle.der_contents.specs.ContentRules.{IsContent, IsFirstBroken, content_rules};
ghost use Rattle.der_canon.specs.Strings.{IsBrokenIn, IsKeptIn, IsStringIn};
ghost use Rattle.der_elements.specs.declared.cause.Cause.TheVariants.{Value};
ghost use Rattle.der_elements.specs.Walked.{visited_of};

use crate::error::NotCanonical;
use crate::piece::{is_in_parts, refuse};
use crate::writer::Writer;
use der_base::rules::Rules;
use der_contents::{ContentError, check_content};
use der_elements::{Cause, Element, ElementError, Walk};

/// A string of which more parts may follow.
#[derive(Clone, Copy)]
pub(crate) struct InParts {
    /// Where it begins, in octets from the start of the input.
    offset: usize,
    /// Its tag number.
    number: u32,
}

/// A constructed string whose content breaks a rule of its type.
#[derive(Clone, Copy)]
pub(crate) struct Broken {
    offset: usize,
    error: ContentError,
}

/// The string that an element begins, if it is a constructed string.
pub(crate) fn string_in(element: &Element<'_>) -> Option<InParts>
    ensures { IsStringIn (visited_of element.now) result }
{
    if is_in_parts(element) {
        Some(InParts {
            offset: element.offset,
            number: element.number,
        })
    } else {
        None
    }
}

/// Checks the content of a string that ends here.
pub(crate) fn check_string(
    string: Option<InParts>,
    writer: &Writer,
    out: &[u8],
) -> Result<(), Broken>
    ensures broken { IfErr result (IsBrokenIn string writer.now out.now) }
    ensures kept { OnOk result (IsKeptIn string writer.now out.now) }
{
    let Some(string) = string else {
        return Ok(());
    };
    match writer.innermost(out) {
        Some(content) => check_content_of(string, content),
        None => Ok(()),
    }
}

fn check_content_of(string: InParts, content: &[u8]) -> Result<(), Broken>
    ensures broken { IfErr result (λ b. (b.offset ≡ string.offset)
        × IsFirstBroken (content_rules Rules.Der string.number content.now) b.error) }
    ensures kept { OnOk result (IsContent Rules.Der string.number content.now) }
{
    match check_content(Rules::Der, string.number, content) {
        Ok(()) => Ok(()),
        Err(error) => Err(Broken {
            offset: string.offset,
            error,
        }),
    }
}

/// The error of a string.
pub(crate) fn refuse_string(octets: &[u8], broken: Broken) -> NotCanonical
    ensures offset { result.offset ≡ broken.offset }
    ensures cause { result.cause ≡ Value broken.error }
{
    let refusal = ElementError {
        offset: broken.offset,
        step: None,
        cause: Cause::Value(broken.error),
    };
    refuse(&walk_to(octets, broken.offset), &refusal)
}

/// A walk that has come to the element at an offset.
fn walk_to(octets: &[u8], offset: usize) -> Walk<'_> {
    let mut walk = Walk::new(octets, Rules::Ber, false);
    // An element has an octet at least, so the loop ends at the end of the input.
    for _ in 0..=octets.len() {
        match walk.next_element() {
            Ok(Some(element)) if element.offset != offset => {}
            _ => break,
        }
    }
    walk
}
