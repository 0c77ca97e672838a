//! The parts of an element.
ghost use Rattle.std.specs.Prelude.{◌≡◌, ◌↔◌, ℕ, List, IfSome, IsTrue, MatchOption, Some};
ghost use Rattle.der_text.specs.Encoded.{length_octets};
ghost use Rattle.der_text.specs.Looks.{HasFirst, IsContent, IsElementOf, IsFirst, IsOnlyFirst};
ghost use Rattle.der_base.specs.Header.{length_of};
ghost use Rattle.der_text.specs.declared.item.Form.{Form};

use crate::item::Form;
use crate::length::{MOST, length_octets};
use der_base::header::{Header, Length, ber_read_element_header};

/// The first element of octets. If its length is indefinite, the content is all that follows.
#[derive(Clone, Copy)]
pub struct Element<'a> {
    pub header: Header<'a>,
    pub identifier: &'a [u8],
    pub form: Form,
    pub length: &'a [u8],
    pub content: &'a [u8],
    pub rest: &'a [u8],
}

/// The first element of octets by BER, if all its content is there, and its length octets have a form.
pub(crate) fn split_element(octets: &[u8]) -> Option<Element<'_>>
    ensures first { MatchOption result (¬ HasFirst octets.now) (IsFirst octets.now) }
    ensures only { IfSome result (IsOnlyFirst octets.now) }
{
    let Ok((behind, header)) = ber_read_element_header(octets) else {
        return None;
    };
    let Some(identifier) = header.raw_tag() else {
        return None;
    };
    let length = &octets[identifier.len()..octets.len() - behind.len()];
    split_content(header, identifier, length, behind)
}

/// An element, given the parts of its header and what is behind that.
fn split_content<'a>(
    header: Header<'a>,
    identifier: &'a [u8],
    length: &'a [u8],
    behind: &'a [u8],
) -> Option<Element<'a>>
    ensures { MatchOption result
        ((content rest : List ℕ) (f : Form) → ¬ IsContent (length_of header.entry) length.now behind.now content rest f)
        (λ x. IsElementOf header.entry identifier.now length.now behind.now x) }
{
    let size = match header.length() {
        Length::Definite(size) => size,
        Length::Indefinite => behind.len(),
    };
    let Some((content, rest)) = behind.split_at_checked(size) else {
        return None;
    };
    let Some(form) = form_of(length, content.len()) else {
        return None;
    };
    Some(Element {
        header,
        identifier,
        form,
        length,
        content,
        rest,
    })
}

/// The form of length octets, if they encode this content length.
fn form_of(length: &[u8], content: usize) -> Option<Form>
    ensures { MatchOption result ((f : Form) → ¬ (length_octets f content ≡ Some length.now))
        (λ f. length_octets f content ≡ Some length.now) }
{
    if has_form(length, Form::Shortest, content) {
        return Some(Form::Shortest);
    }
    if has_form(length, Form::Indefinite, content) {
        return Some(Form::Indefinite);
    }
    long_form(length, content)
}

/// The long form with the same number of octets, if they encode this content length.
fn long_form(length: &[u8], content: usize) -> Option<Form>
    ensures { MatchOption result ((count : ℕ) → ¬ (length_octets (Form.Long count) content ≡ Some length.now))
        (λ f. length_octets f content ≡ Some length.now) }
{
    let Ok(count) = u8::try_from(length.len().saturating_sub(1)) else {
        return None;
    };
    let form = Form::Long(count);
    if has_form(length, form, content) {
        return Some(form);
    }
    None
}

/// Returns whether length octets have this form and encode this content length.
fn has_form(length: &[u8], form: Form, content: usize) -> bool
    ensures { IsTrue result ↔ (length_octets form content ≡ Some length.now) }
{
    let mut room = [0; MOST];
    match length_octets(&mut room, form, content) {
        Some(octets) => octets == length,
        None => false,
    }
}
