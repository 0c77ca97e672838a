//! Tags in brackets, such as `[0]` and `[APPLICATION 3 PRIMITIVE]`.
ghost use Rattle.std.specs.Prelude.{◌≡◌, IfOk};
ghost use Rattle.std.specs.Option.{option_map};
ghost use Rattle.der_base.specs.Octets.{identifier};
ghost use Rattle.der_text.specs.Words.{class_first, form_last, tag_octets};

use crate::word::decimal_number;
use der_base::header::{Class, Tag};
use der_values::octets::header::{identifier_octet_count, write_identifier};
use std::alloc::{AllocError, Global};

/// The identifier octets of a tag (X.690 8.1.2): a class unless context-specific, a number, and perhaps `PRIMITIVE`.
#[tactic(auto, unfolding(crate::specs::Words::tag_octets))]
pub(crate) fn tag_octets(alloc: Global, tag: &[u8]) -> Result<Option<Vec<u8>>, AllocError>
    ensures { IfOk result (λ found. option_map (λ v. v.items) found ≡ tag_octets tag.now) }
{
    let (class, rest) = class_first(tag);
    let (constructed, digits) = form_last(rest);
    let Some(number) = decimal_number(digits) else {
        return Ok(None);
    };
    let Ok(number) = u32::try_from(number) else {
        return Ok(None);
    };
    let mut room = [0; 6];
    let identifier = identifier_octets(&mut room, class, constructed, Tag(number));
    let octets = Vec::from_slice(alloc, identifier)?;
    Ok(Some(octets))
}

/// The class of a tag, and the text after its name.
fn class_first(tag: &[u8]) -> (Class, &[u8])
    ensures { (result.0, result.1.now) ≡ class_first tag.now }
{
    if let Some(rest) = tag.strip_prefix(b"UNIVERSAL ") {
        return (Class::Universal, rest);
    }
    if let Some(rest) = tag.strip_prefix(b"APPLICATION ") {
        return (Class::Application, rest);
    }
    if let Some(rest) = tag.strip_prefix(b"PRIVATE ") {
        return (Class::Private, rest);
    }
    (Class::ContextSpecific, tag)
}

/// Returns whether a tag is constructed, and the text before `PRIMITIVE`.
fn form_last(tag: &[u8]) -> (bool, &[u8])
    ensures { (result.0, result.1.now) ≡ form_last tag.now }
{
    match tag.strip_suffix(b" PRIMITIVE") {
        Some(rest) => (false, rest),
        None => (true, tag),
    }
}

/// Identifier octets.
#[tactic(auto, using(der_values::proofs::OctetsLaws::Room::puts_tail))]
fn identifier_octets(room: &mut [u8; 6], class: Class, constructed: bool, tag: Tag) -> &[u8]
    ensures { result.now ≡ identifier class constructed tag.0 }
{
    let begin = 6 - identifier_octet_count(tag);
    write_identifier(room, 6, class, constructed, tag);
    &room[begin..]
}
