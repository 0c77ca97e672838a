//! The elements of an input, as they are to be written.
ghost use Rattle.std.specs.Prelude.{◌≡◌, ◌&&◌, ◌==◌, ℕ, Option, None, List, [], false, true, IfOk, MatchResult};
ghost use Rattle.der_base.specs.declared.rules.Rules.{Rules};
ghost use Rattle.der_elements.specs.Visits.{Visited};
ghost use Rattle.der_elements.specs.Walked.{HasOctets, HasVisited, visited_of};
ghost use Rattle.der_canon.specs.Errors.{AreParts, FindsForm, FindsPart, HasRead, IsNoPartAfter, IsPartAfter};
ghost use Rattle.der_canon.specs.Errors.{IsAll, IsStepTo, IsToldOf, ReadsOn};
ghost use Rattle.der_canon.specs.NoDer.{string_after, unused_after, unused_of};
ghost use Rattle.der_canon.specs.Pieces.{IsForm, KeepsForm, PieceNext, depth_of, has_header};
ghost use Rattle.der_canon.specs.Same.{is_in_parts, is_string, no_extras};

use crate::error::NotCanonical;
use crate::value::check_value;
use der_base::header::{Class, Tag};
use der_base::rules::Rules;
use der_base::text::is_text_type;
use der_elements::{Cause, Element, ElementError, Walk};

/// How an element is written.
#[derive(Clone, Copy, Debug, PartialEq)]
pub(crate) enum Form {
    /// As a primitive element.
    Primitive,
    /// As a constructed element.
    Constructed,
    /// As a primitive element, whose content is that of the parts of a constructed string (X.690 8.6.4, 8.7.3).
    Joined,
    /// As a part of a string, without a header.
    Part,
}

/// An element and how it is written.
#[derive(Clone, Copy)]
pub(crate) struct Piece<'a> {
    pub element: Element<'a>,
    pub form: Form,
}

impl Piece<'_> {
    /// Whether its header is written.
    pub(crate) fn has_header(&self) -> bool
        ensures { result ≡ has_header self.now.form }
    {
        match self.form {
            Form::Part => false,
            Form::Primitive | Form::Constructed | Form::Joined => true,
        }
    }
}

/// A constructed string whose parts are read.
#[derive(Clone, Copy)]
struct Parts {
    /// How many elements are around the string.
    depth: usize,
    /// The tag number of its parts: BIT STRING for a BIT STRING, else OCTET STRING.
    number: u32,
    /// How many bits are unused at the end of the last part of a BIT STRING.
    unused: u8,
}

/// The elements of an input by BER in preorder, each with the form that DER gives it.
#[derive(Drop)]
pub(crate) struct Pieces<'a> {
    walk: Walk<'a>,
    /// The string whose parts come next, if there is one.
    parts: Option<Parts>,
}

impl<'a> Pieces<'a> {
    pub(crate) fn new(octets: &'a [u8]) -> Pieces<'a>
        ensures walk { HasVisited no_extras Rules.Ber octets.now result.walk [] }
        ensures parts { depth_of result.parts ≡ None }
        ensures read { HasRead octets.now [] result }
    {
        Pieces {
            walk: Walk::new(octets, Rules::Ber, false),
            parts: None,
        }
    }

    /// The next element. None at the end of the input.
    pub(crate) fn next_piece(&mut self) -> Result<Option<Piece<'a>>, ElementError>
        ensures next { (i : List ℕ) (vs : List Visited) → HasVisited no_extras Rules.Ber i self.old.walk vs
            → PieceNext i vs self.old.parts self.new result }
        ensures errors { (i : List ℕ) (vs : List Visited) → HasRead i vs self.old → ReadsOn i vs self.new result }
    {
        let Some(element) = self.walk.next_element()? else {
            return Ok(None);
        };
        match form_in_der(&element, self.parts) {
            Ok((form, parts)) => {
                self.parts = parts;
                Ok(Some(Piece { element, form }))
            }
            Err(cause) => Err(refuse_element(&element, cause)),
        }
    }

    /// Where and why the input isn't written.
    pub(crate) fn refuse(&self, refusal: &ElementError) -> NotCanonical
        ensures { IsToldOf self.now.walk refusal.now result }
    {
        refuse(&self.walk, refusal)
    }
}

/// Where and why a walk ends before its input does.
pub(crate) fn refuse(walk: &Walk<'_>, refusal: &ElementError) -> NotCanonical
    ensures { IsToldOf walk.now refusal.now result }
{
    NotCanonical {
        offset: refusal.offset,
        path: walk.path(refusal),
        cause: refusal.cause,
    }
}

/// Rejects all elements, at offset 0.
pub(crate) fn refuse_all(walk: &Walk<'_>) -> NotCanonical
    ensures { IsAll result }
{
    let refusal = ElementError {
        offset: 0,
        step: None,
        cause: Cause::NotDer,
    };
    refuse(walk, &refusal)
}

/// The form of an element, and the constructed string whose parts may follow it. An error if DER has no form of it.
fn form_in_der(element: &Element<'_>, parts: Option<Parts>) -> Result<(Form, Option<Parts>), Cause>
    ensures form { IfOk result (λ x. IsForm parts (visited_of element.now) x.0 x.1) }
    ensures kept { (i : List ℕ) → HasOctets i element.now
        → IfOk result (λ x. KeepsForm i (visited_of element.now) x.0) }
    ensures der { (i : List ℕ) (vs : List Visited) → HasOctets i element.now
        → AreParts parts (string_after vs) (unused_after i vs) → FindsForm i vs element.now result }
{
    match form_of(element, parts) {
        Ok((form, following)) if form != Form::Primitive => Ok((form, following)),
        Ok((form, following)) => match check_value(element) {
            Ok(()) => Ok((form, following)),
            Err(cause) => Err(cause),
        },
        Err(cause) => Err(cause),
    }
}

/// The form of an element, and the constructed string whose parts may follow it.
fn form_of(element: &Element<'_>, parts: Option<Parts>) -> Result<(Form, Option<Parts>), Cause>
    ensures form { IfOk result (λ x. IsForm parts (visited_of element.now) x.0 x.1) }
    ensures part { (i : List ℕ) (s : Option Visited) (u : ℕ) → HasOctets i element.now → AreParts parts s u
        → FindsPart i s u element.now result }
{
    match parts {
        Some(around) if element.depth > around.depth => match after_part(element, around) {
            Ok(next) => Ok((Form::Part, Some(next))),
            Err(cause) => Err(cause),
        },
        _ if !element.constructed => Ok((Form::Primitive, None)),
        _ if is_in_parts(element) => {
            let parts = Parts {
                depth: element.depth,
                number: if element.number == 3 { 3 } else { 4 },
                unused: 0,
            };
            Ok((Form::Joined, Some(parts)))
        }
        _ => Ok((Form::Constructed, None)),
    }
}

/// The string after one more of its parts.
fn after_part(element: &Element<'_>, around: Parts) -> Result<Parts, Cause>
    ensures depth { IfOk result (λ p. p.depth ≡ around.depth) }
    ensures part { MatchResult result
        (λ p. IsPartAfter element.now around p)
        (λ c. IsNoPartAfter element.now around c) }
{
    if !element.is_universal(around.number) {
        return Err(Cause::OtherPart);
    }
    if around.unused != 0 {
        return Err(Cause::UnusedBitsInside);
    }
    Ok(Parts {
        unused: unused_in(element),
        ..around
    })
}

/// How many bits are unused at the end of a primitive part of a BIT STRING.
fn unused_in(element: &Element<'_>) -> u8
    ensures { (i : List ℕ) → HasOctets i element.now → result ≡ unused_of i (visited_of element.now) }
{
    match element.content {
        Some([unused, ..]) if !element.constructed && element.number == 3 => *unused,
        _ => 0,
    }
}

/// Whether an element is a constructed string.
pub(crate) fn is_in_parts(element: &Element<'_>) -> bool
    ensures { result ≡ is_in_parts (visited_of element.now) }
{
    element.constructed && element.class == Class::Universal && is_string(element.number)
}

/// Whether an element is a constructed BIT STRING.
pub(crate) fn is_bits_in_parts(element: &Element<'_>) -> bool
    ensures { result ≡ (is_in_parts (visited_of element.now) && (element.now.number == 3)) }
{
    is_in_parts(element) && element.number == 3
}

/// Whether the universal type with this number is a string or a time.
fn is_string(number: u32) -> bool
    ensures { result ≡ is_string number }
{
    is_text_type(Tag(number)) || matches!(number, 3 | 4 | 23 | 24 | 28 | 30)
}

/// The error of an element that was read. A constructed one is open, so it is in the path already.
fn refuse_element(element: &Element<'_>, cause: Cause) -> ElementError
    ensures told { (result.offset ≡ element.now.offset) × (result.cause ≡ cause) }
    ensures step { IsStepTo (visited_of element.now) element.now.index result.step }
{
    let step = if element.constructed {
        None
    } else {
        Some(element.step())
    };
    ElementError {
        offset: element.offset,
        step,
        cause,
    }
}
