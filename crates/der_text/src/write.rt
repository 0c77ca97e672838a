//! Parts of a text.
ghost use Rattle.std.specs.Prelude.{◌≡◌, ◌↔◌, ◌<◌, ◌≤◌, [], ◌∷◌, ◌++◌, true, IfOk, IsTrue, OnOk, Some};
ghost use Rattle.std.specs.Prelude.{length, not, string_bytes};
ghost use Rattle.std.specs.List.{list_all};
ghost use Rattle.std.specs.Option.{option_map};
ghost use Rattle.hex.specs.Hex.{encode_lower};
ghost use Rattle.der_text.specs.Lexemes.{ends_part, is_word};
ghost use Rattle.der_base.specs.Pretty.{spaces};
ghost use Rattle.der_text.specs.Looks.{HasTag, HasWord, WritesIf, form_word, open_text};
ghost use Rattle.der_text.specs.Printed.{HasCount, MayPut, Puts, PutsOpen, is_plain};

use crate::item::Form;
use crate::lexeme::is_word;
use crate::tag::tag_octets;
use crate::word::word_octets;
use std::alloc::{AllocError, Global};

/// The most hexadecimal octets of one part.
pub(crate) const MANY: usize = 32;

/// Writes spaces.
pub(crate) fn write_spaces(out: &mut Vec<u8>, count: usize) -> Result<(), AllocError>
    ensures puts { OnOk result (Puts out.old.items out.new.items []) }
    ensures text { OnOk result (out.new.items ≡ out.old.items ++ spaces count) }
{
    'spaces: for _ in 0..count {
        out.push(b' ')?;
    }
    Ok(())
}

/// Writes a line end.
pub(crate) fn write_line_end(out: &mut Vec<u8>) -> Result<(), AllocError>
    ensures puts { OnOk result (Puts out.old.items out.new.items []) }
    ensures text { OnOk result (out.new.items ≡ out.old.items ++ 10 ∷ []) }
{
    out.push(b'\n')?;
    Ok(())
}

/// Writes a word and a space, if the word has these octets.
pub(crate) fn write_word(
    out: &mut Vec<u8>,
    alloc: Global,
    word: &[u8],
    octets: &[u8],
) -> Result<bool, AllocError>
    ensures puts { IfOk result (MayPut out.old.items out.new.items octets.now) }
    ensures text { IfOk result
        (WritesIf (HasWord word.now octets.now) out.old.items out.new.items (word.now ++ 32 ∷ [])) }
{
    if !are_word(word) {
        return Ok(false);
    }
    let found = word_octets(alloc, word)?;
    if !has_octets(found, octets) {
        return Ok(false);
    }
    out.extend_from_slice(word)?;
    out.push(b' ')?;
    Ok(true)
}

/// Writes a tag in brackets and a space, if it has these identifier octets.
pub(crate) fn write_tag(
    out: &mut Vec<u8>,
    alloc: Global,
    tag: &[u8],
    identifier: &[u8],
) -> Result<bool, AllocError>
    ensures puts { IfOk result (MayPut out.old.items out.new.items identifier.now) }
    ensures text { IfOk result
        (WritesIf (HasTag tag.now identifier.now) out.old.items out.new.items (91 ∷ (tag.now ++ 93 ∷ 32 ∷ []))) }
{
    if !is_inside(tag) {
        return Ok(false);
    }
    let found = tag_octets(alloc, tag)?;
    if !has_octets(found, identifier) {
        return Ok(false);
    }
    out.push(b'[')?;
    out.extend_from_slice(tag)?;
    out.extend_from_slice(b"] ")?;
    Ok(true)
}

/// Writes octets in quotes, and a space.
pub(crate) fn write_quoted(out: &mut Vec<u8>, octets: &[u8]) -> Result<(), AllocError>
    requires { list_all is_plain octets.now ≡ true }
    ensures puts { OnOk result (Puts out.old.items out.new.items octets.now) }
    ensures text { OnOk result (out.new.items ≡ out.old.items ++ 34 ∷ (octets.now ++ 34 ∷ 32 ∷ [])) }
{
    out.push(b'"')?;
    out.extend_from_slice(octets)?;
    out.extend_from_slice(b"\" ")?;
    Ok(())
}

/// Writes octets in hexadecimal, and a space.
pub(crate) fn write_hexadecimal(out: &mut Vec<u8>, octets: &[u8]) -> Result<(), AllocError>
    requires { length octets.now ≤ 32 }
    ensures puts { OnOk result (Puts out.old.items out.new.items octets.now) }
    ensures text { OnOk result (out.new.items ≡ out.old.items ++ 96 ∷ (encode_lower octets.now ++ 96 ∷ 32 ∷ [])) }
{
    let mut room = [0; 2 * MANY];
    let digits = digits_of(&mut room, octets);
    out.push(b'`')?;
    out.extend_from_slice(digits)?;
    out.extend_from_slice(b"` ")?;
    Ok(())
}

/// Octets in hexadecimal digits.
fn digits_of<'a>(room: &'a mut [u8; 64], octets: &[u8]) -> &'a [u8]
    requires { length octets.now ≤ 32 }
    ensures { result.now ≡ encode_lower octets.now }
{
    let digits = &mut room[..2 * octets.len()];
    let Ok(()) = hex::encode_to_slice(octets, digits) else {
        unreachable!();
    };
    digits
}

/// Writes the form of length octets, and a brace.
pub(crate) fn write_open(out: &mut Vec<u8>, alloc: Global, form: Form) -> Result<(), AllocError>
    ensures puts { OnOk result (PutsOpen out.old.items out.new.items form) }
    ensures text { OnOk result (out.new.items ≡ out.old.items ++ open_text form) }
{
    let word = form_word(alloc, form)?;
    out.extend_from_slice(word.as_bytes())?;
    out.push(b'{')?;
    Ok(())
}

/// The word for a form of length octets, and a space. Empty for the shortest form.
fn form_word(alloc: Global, form: Form) -> Result<String, AllocError>
    ensures word { IfOk result (λ word. string_bytes word ≡ form_word form) }
    ensures count { HasCount form }
{
    match form {
        Form::Shortest => Ok(String::new(alloc)),
        Form::Long(count) => format!(in alloc; "long-form:{count} "),
        Form::Indefinite => format!(in alloc; "indefinite "),
    }
}

/// Writes the closing brace of a content, and a line end.
pub(crate) fn write_close(out: &mut Vec<u8>) -> Result<(), AllocError>
    ensures { OnOk result (out.new.items ≡ out.old.items ++ 125 ∷ 10 ∷ []) }
{
    out.extend_from_slice(b"}\n")?;
    Ok(())
}

/// Returns whether octets are a word.
fn are_word(word: &[u8]) -> bool
    ensures { IsTrue result ↔ (0 < length word.now) × (list_all is_word word.now ≡ true) }
{
    !word.is_empty() && all_in_words(word)
}

/// Returns whether all octets may be in words.
fn all_in_words(word: &[u8]) -> bool
    ensures { result ≡ list_all is_word word.now }
{
    word.iter().all(|octet| is_word(*octet))
}

/// Returns whether the octets that were found are these.
fn has_octets(found: Option<Vec<u8>>, octets: &[u8]) -> bool
    ensures { IsTrue result ↔ (option_map (λ v. v.items) found ≡ Some octets.now) }
{
    match found {
        Some(found) => found.as_slice() == octets,
        None => false,
    }
}

/// Returns whether a tag has no bracket and no line end.
fn is_inside(tag: &[u8]) -> bool
    ensures { result ≡ list_all (λ c. not (ends_part 93 c)) tag.now }
{
    tag.iter().all(|octet| !(*octet == b']' || *octet == b'\n'))
}
