//! The text of octets.
ghost use Rattle.std.specs.Prelude.{◌≡◌, ◌↔◌, ◌⊎◌, ◌+◌, ◌*◌, ◌<◌, ◌≤◌, [], ◌∷◌, ◌++◌, Ok, Some, IfOk, IsTrue};
ghost use Rattle.std.specs.Prelude.{MatchOption, OnOk, codes, length};
ghost use Rattle.der_base.specs.Pretty.{spaces};
ghost use Rattle.der_text.specs.Encoded.{length_octets};
ghost use Rattle.der_text.specs.Looks.{BeginsWithEnd, BracesText, ContentText, ElementText, ElementsText, HasElements};
ghost use Rattle.der_text.specs.Looks.{IsList, IsToEnd, LineText, ToEndText, ValueText, WritesName, WritesWordOf};
ghost use Rattle.der_text.specs.Printed.{Adds, MayPut, Prints, Puts};
ghost use Rattle.der_text.specs.Texts.{octets_of_text};

use crate::element::{Element, split_element};
use crate::item::Form;
use crate::parts::write_octets;
use crate::value::{tag_text, value_word};
use crate::word::type_name;
use crate::write::{write_close, write_line_end, write_open, write_spaces, write_tag, write_word};
use der_base::header::Tag;
use std::alloc::{AllocError, Global};

/// The most elements inside each other. Deeper content is written in hexadecimal.
const LIMIT: usize = 100;

/// The text of octets (docs/TEXT.md): elements as far as possible, and hexadecimal. `octets_of` returns the same
/// octets. The only error is a failed allocation.
///
/// ```
/// let text = text_of(alloc, &[0x30, 0x03, 0x02, 0x01, 0x05])?;
/// assert_eq!(text.as_slice(), b"SEQUENCE {\n  INTEGER { 5 }\n}\n");
/// ```
pub fn text_of(alloc: Global, octets: &[u8]) -> Result<Vec<u8>, AllocError>
    ensures octets { IfOk result (λ text. octets_of_text text.items ≡ Ok octets.now) }
    ensures looks { IfOk result (λ text. ElementsText 0 octets.now text.items) }
{
    let mut out = Vec::new(alloc);
    write_elements(&mut out, alloc, octets, 0)?;
    Ok(out)
}

/// Writes octets as elements at this depth.
#[cycle(elements)]
fn write_elements(
    out: &mut Vec<u8>,
    alloc: Global,
    octets: &[u8],
    depth: usize,
) -> Result<(), AllocError>
    requires { depth ≤ 100 }
    ensures puts { OnOk result (Puts out.old.items out.new.items octets.now) }
    ensures text { OnOk result (Adds out.old.items out.new.items (ElementsText depth octets.now)) }
{
    if depth == LIMIT {
        write_octets(out, octets, indent_of(depth))?;
        return Ok(());
    }
    let mut rest = octets;
    'elements: while !rest.is_empty() {
        rest = write_element(out, alloc, rest, depth)?;
    }
    Ok(())
}

/// Writes elements up to the end-of-contents octets, or all. Returns the octets after them.
#[cycle(elements)]
fn write_to_end<'a>(
    out: &mut Vec<u8>,
    alloc: Global,
    octets: &'a [u8],
    depth: usize,
) -> Result<&'a [u8], AllocError>
    requires { depth ≤ 100 }
    ensures prints { IfOk result (λ rest. Prints out.old.items out.new.items octets.now rest.now) }
    ensures text { IfOk result (λ rest. Adds out.old.items out.new.items (ToEndText depth octets.now rest.now)) }
{
    let mut rest = octets;
    'elements: while !rest.is_empty() {
        if let Some(after) = after_end_marker(rest) {
            write_end(out, depth)?;
            return Ok(after);
        }
        if depth == LIMIT {
            write_octets(out, rest, indent_of(depth))?;
            return Ok(&[]);
        }
        rest = write_element(out, alloc, rest, depth)?;
    }
    Ok(rest)
}

/// The octets after end-of-contents octets, if these are first (X.690 8.1.5).
fn after_end_marker(octets: &[u8]) -> Option<&[u8]>
    ensures { MatchOption result (¬ BeginsWithEnd octets.now) (λ rest. octets.now ≡ 0 ∷ 0 ∷ rest.now) }
{
    match octets {
        [0, 0, rest @ ..] => Some(rest),
        _ => None,
    }
}

/// Writes end-of-contents octets (X.690 8.1.5).
fn write_end(out: &mut Vec<u8>, depth: usize) -> Result<(), AllocError>
    requires { depth ≤ 100 }
    ensures puts { OnOk result (Puts out.old.items out.new.items (0 ∷ 0 ∷ [])) }
    ensures text { OnOk result (out.new.items ≡ out.old.items ++ (spaces (2 * depth) ++ codes "END\n")) }
{
    write_spaces(out, 2 * depth)?;
    out.extend_from_slice(b"END\n")?;
    Ok(())
}

/// Writes the first element, or all octets if there is none. Returns the octets after it.
#[cycle(elements)]
fn write_element<'a>(
    out: &mut Vec<u8>,
    alloc: Global,
    octets: &'a [u8],
    depth: usize,
) -> Result<&'a [u8], AllocError>
    requires some { 0 < length octets.now }
    requires limited { depth < 100 }
    ensures prints { IfOk result (λ rest. Prints out.old.items out.new.items octets.now rest.now) }
    ensures fewer { IfOk result (λ rest. length rest.now < length octets.now) }
    ensures text { IfOk result (λ rest. Adds out.old.items out.new.items (ElementText depth octets.now rest.now)) }
{
    write_spaces(out, 2 * depth)?;
    let Some(element) = split_element(octets) else {
        write_line(out, octets, indent_of(depth))?;
        return Ok(&[]);
    };
    if !write_identifier(out, alloc, &element)? {
        write_line(out, octets, indent_of(depth))?;
        return Ok(&[]);
    }
    let rest = write_after_identifier(out, alloc, &element, depth)?;
    Ok(rest)
}

/// Writes the rest of an element after its identifier octets. Returns the octets after the element.
#[cycle(elements)]
fn write_after_identifier<'a>(
    out: &mut Vec<u8>,
    alloc: Global,
    element: &Element<'a>,
    depth: usize,
) -> Result<&'a [u8], AllocError>
    requires limited { depth < 100 }
    requires form { length_octets element.now.form (length element.now.content.now) ≡ Some element.now.length.now }
    ensures prints { let x = element.now in IfOk result (λ rest. Prints out.old.items out.new.items
        (x.length.now ++ (x.content.now ++ x.rest.now)) rest.now) }
    ensures text { IfOk result (λ rest. Adds out.old.items out.new.items (BracesText depth element.now rest.now)) }
{
    write_open(out, alloc, element.form)?;
    if is_to_end(element) {
        write_line_end(out)?;
        let rest = write_to_end(out, alloc, element.content, depth + 1)?;
        write_spaces(out, 2 * depth)?;
        write_close(out)?;
        return Ok(rest);
    }
    write_content(out, alloc, element, depth)?;
    write_close(out)?;
    Ok(element.rest)
}

/// Returns whether an element has an indefinite length, and all that follows as its content.
fn is_to_end(element: &Element<'_>) -> bool
    ensures { IsTrue result ↔ IsToEnd element.now }
{
    matches!(element.form, Form::Indefinite) && element.rest.is_empty()
}

/// Writes the content of an element.
#[cycle(elements)]
fn write_content(
    out: &mut Vec<u8>,
    alloc: Global,
    element: &Element<'_>,
    depth: usize,
) -> Result<(), AllocError>
    requires { depth < 100 }
    ensures puts { OnOk result (Puts out.old.items out.new.items element.now.content.now) }
    ensures text { OnOk result (Adds out.old.items out.new.items (ContentText depth element.now)) }
{
    if has_elements(element) {
        write_line_end(out)?;
        write_elements(out, alloc, element.content, depth + 1)?;
        write_spaces(out, 2 * depth)?;
        return Ok(());
    }
    write_spaces(out, 1)?;
    write_value(out, alloc, element, indent_of(depth))?;
    Ok(())
}

/// Returns whether the content of an element is written as elements.
fn has_elements(element: &Element<'_>) -> bool
    ensures { IsTrue result ↔ HasElements element.now }
{
    if element.header.is_constructed() {
        return true;
    }
    let is_octet_string = element.header.is_universal() && element.header.tag() == Tag::OctetString;
    is_octet_string && is_list(element.content)
}

/// Returns whether octets are a SEQUENCE or a SET, by the header.
fn is_list(octets: &[u8]) -> bool
    ensures { IsTrue result ↔ IsList octets.now }
{
    match split_element(octets) {
        Some(element) => element.rest.is_empty() && is_of_list(element.identifier),
        None => false,
    }
}

/// Returns whether identifier octets are those of a SEQUENCE or a SET.
fn is_of_list(identifier: &[u8]) -> bool
    ensures { IsTrue result ↔ ((identifier.now ≡ 0x30 ∷ []) ⊎ (identifier.now ≡ 0x31 ∷ [])) }
{
    matches!(identifier, [0x30] | [0x31])
}

/// Writes the content of a primitive element.
fn write_value(
    out: &mut Vec<u8>,
    alloc: Global,
    element: &Element<'_>,
    indent: usize,
) -> Result<(), AllocError>
    ensures puts { OnOk result (Puts out.old.items out.new.items element.now.content.now) }
    ensures text { OnOk result (Adds out.old.items out.new.items (ValueText element.now indent)) }
{
    if write_value_word(out, alloc, element)? {
        return Ok(());
    }
    write_octets(out, element.content, indent)?;
    Ok(())
}

/// Writes a word for the content of a primitive element, if there is one.
fn write_value_word(
    out: &mut Vec<u8>,
    alloc: Global,
    element: &Element<'_>,
) -> Result<bool, AllocError>
    ensures puts { IfOk result (MayPut out.old.items out.new.items element.now.content.now) }
    ensures text { IfOk result (WritesWordOf element.now out.old.items out.new.items) }
{
    match value_word(alloc, element)? {
        Some(word) => write_word(out, alloc, word.as_bytes(), element.content),
        None => Ok(false),
    }
}

/// Writes the name of a type or a tag in brackets, if either has these identifier octets.
fn write_identifier(
    out: &mut Vec<u8>,
    alloc: Global,
    element: &Element<'_>,
) -> Result<bool, AllocError>
    ensures puts { IfOk result (MayPut out.old.items out.new.items element.now.identifier.now) }
    ensures text { IfOk result (WritesName element.now out.old.items out.new.items) }
{
    if let Some(name) = type_name(element.identifier) {
        return write_word(out, alloc, name, element.identifier);
    }
    let tag = tag_text(alloc, &element.header)?;
    write_tag(out, alloc, tag.as_bytes(), element.identifier)
}

/// The indentation of further lines of octets.
fn indent_of(depth: usize) -> usize
    requires { depth ≤ 100 }
    ensures { result ≡ 2 * depth + 2 }
{
    2 * depth + 2
}

/// Writes octets on one or several lines.
fn write_line(out: &mut Vec<u8>, octets: &[u8], indent: usize) -> Result<(), AllocError>
    ensures puts { OnOk result (Puts out.old.items out.new.items octets.now) }
    ensures text { OnOk result (Adds out.old.items out.new.items (LineText indent octets.now)) }
{
    write_octets(out, octets, indent)?;
    write_line_end(out)?;
    Ok(())
}
