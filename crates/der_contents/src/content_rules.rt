//! The content octets of primitive elements by X.690, as far as that needs no ASN.1 type.
ghost use Rattle.std.specs.Prelude.{◌≡◌, ◌≤◌, ◌%◌, [], ◌∷◌, IsTrue, IsUtf8, length};
ghost use Rattle.der_base.specs.Text.{is_text_type};
ghost use Rattle.der_contents.specs.declared.content_error.ContentError.TheVariants.{NotUtf8, NullNotEmpty};
ghost use Rattle.der_contents.specs.ContentRules.{Checks, bit_string_rules, boolean_rules, content_rules};
ghost use Rattle.der_contents.specs.ContentRules.{identifier_rules, need, number_rules, text_rules};

use crate::content_error::ContentError;
use crate::grammar::is_end;
use crate::real_forms::{check_real, is_fewest};
use crate::time_forms::{check_generalized_time, check_utc_time};
use der_base::error::BerError;
use der_base::header::Tag;
use der_base::rules::Rules;
use der_base::text::read_text;
use der_values::{are_last_bits_zero, ends_subidentifier, has_padded_arc, read_bool, read_null};
use std::str;

/// The type CHARACTER STRING (X.680 44).
const CHARACTER_STRING: Tag = Tag(29);
/// The types OID-IRI (X.680 34) and RELATIVE-OID-IRI (35).
const OID_IRI: Tag = Tag(35);

const RELATIVE_OID_IRI: Tag = Tag(36);
/// The octets of a character of a UniversalString (8.23.7) and of a BMPString (8.23.9).
const UNIVERSAL_OCTETS: usize = 4;

const BMP_OCTETS: usize = 2;

/// Checks the content octets of a primitive element of a universal type (X.690 8; by DER 10 and 11 too), as far as that
/// needs no ASN.1 type. The error is the first rule that they break. A type without such a rule may have any octets.
pub fn check_content(rules: Rules, number: u32, octets: &[u8]) -> Result<(), ContentError>
    ensures { Checks (content_rules rules number octets.now) result }
{
    check_tag(rules, Tag(number), octets)
}

fn check_tag(rules: Rules, tag: Tag, octets: &[u8]) -> Result<(), ContentError>
    ensures { Checks (content_rules rules tag.0 octets.now) result }
{
    match tag {
        Tag::Boolean => check_boolean(rules, octets),
        Tag::Integer | Tag::Enumerated => check_number(octets),
        Tag::BitString => check_bits(rules, octets),
        Tag::Null => check_null(octets),
        Tag::Oid | Tag::RelativeOid => check_identifier(octets),
        Tag::External => Err(ContentError::ExternalPrimitive),
        Tag::RealType => check_real(rules, octets),
        Tag::EmbeddedPdv => Err(ContentError::EmbeddedPdvPrimitive),
        Tag::Utf8String | OID_IRI | RELATIVE_OID_IRI => check_utf8(octets),
        Tag::Sequence => Err(ContentError::SequencePrimitive),
        Tag::Set => Err(ContentError::SetPrimitive),
        Tag::NumericString | Tag::PrintableString | Tag::Ia5String | Tag::VisibleString => {
            check_characters(tag, octets)
        }
        Tag::UtcTime => check_utc_time(rules, octets),
        Tag::GeneralizedTime => check_generalized_time(rules, octets),
        Tag::UniversalString => check_groups(
            UNIVERSAL_OCTETS,
            octets,
            ContentError::UniversalStringLength,
        ),
        CHARACTER_STRING => Err(ContentError::CharacterStringPrimitive),
        Tag::BmpString => check_groups(BMP_OCTETS, octets, ContentError::BmpStringLength),
        _ => Ok(()),
    }
}

#[tactic(auto, using(crate::proofs::Booleans::holds, crate::proofs::Booleans::size, crate::proofs::Booleans::value))]
fn check_boolean(rules: Rules, octets: &[u8]) -> Result<(), ContentError>
    ensures { Checks (boolean_rules rules octets.now) result }
{
    match read_bool(rules, octets) {
        Ok(_) => Ok(()),
        Err(BerError::InvalidLength) => Err(ContentError::BooleanLength),
        Err(_) => Err(ContentError::BooleanValue),
    }
}

/// Checks the octets of an INTEGER or ENUMERATED.
fn check_number(octets: &[u8]) -> Result<(), ContentError>
    ensures { Checks (number_rules octets.now) result }
{
    if is_end(octets) {
        return Err(ContentError::NumberEmpty);
    }
    if !is_fewest(octets) {
        return Err(ContentError::NumberPadded);
    }
    Ok(())
}

fn check_bits(rules: Rules, octets: &[u8]) -> Result<(), ContentError>
    ensures { Checks (bit_string_rules rules octets.now) result }
{
    match octets {
        [] => Err(ContentError::UnusedBitsMissing),
        [unused, bits @ ..] => check_unused_bits(rules, *unused, bits),
    }
}

fn check_unused_bits(rules: Rules, unused: u8, bits: &[u8]) -> Result<(), ContentError>
    ensures { Checks (bit_string_rules rules (unused ∷ bits.now)) result }
{
    if unused > 7 {
        return Err(ContentError::UnusedBitsAboveSeven);
    }
    if unused != 0 && is_end(bits) {
        return Err(ContentError::UnusedBitsOfNone);
    }
    match rules {
        Rules::Ber => Ok(()),
        Rules::Der if are_last_bits_zero(unused, bits) => Ok(()),
        Rules::Der => Err(ContentError::UnusedBitsNotZero),
    }
}

/// Checks that a NULL has no octets, by BER too.
fn check_null(octets: &[u8]) -> Result<(), ContentError>
    ensures { Checks (need (octets.now ≡ []) NullNotEmpty ∷ []) result }
{
    match read_null(Rules::Der, octets) {
        Ok(()) => Ok(()),
        Err(_) => Err(ContentError::NullNotEmpty),
    }
}

/// Checks the octets of an OBJECT IDENTIFIER or RELATIVE-OID.
fn check_identifier(octets: &[u8]) -> Result<(), ContentError>
    ensures { Checks (identifier_rules octets.now) result }
{
    if is_end(octets) {
        return Err(ContentError::IdentifierEmpty);
    }
    if !ends_subidentifier(octets) {
        return Err(ContentError::ArcOpen);
    }
    if has_padded_arc(octets) {
        return Err(ContentError::ArcPadded);
    }
    Ok(())
}

fn check_utf8(octets: &[u8]) -> Result<(), ContentError>
    ensures { Checks (need (IsUtf8 octets.now) NotUtf8 ∷ []) result }
{
    match str::from_utf8(octets) {
        Ok(_) => Ok(()),
        Err(_) => Err(ContentError::NotUtf8),
    }
}

/// Checks the octets of a string type with a character set.
fn check_characters(tag: Tag, octets: &[u8]) -> Result<(), ContentError>
    requires { IsTrue (is_text_type tag.0) }
    ensures { Checks (text_rules tag.0 octets.now) result }
{
    match read_text(tag, octets) {
        Some(_) => Ok(()),
        None => Err(ContentError::CharacterOutside),
    }
}

/// Checks that the number of octets is a multiple of this size.
fn check_groups(size: usize, octets: &[u8], error: ContentError) -> Result<(), ContentError>
    requires { 1 ≤ size }
    ensures { Checks (need (length octets.now % size ≡ 0) error ∷ []) result }
{
    if octets.len() % size == 0 {
        return Ok(());
    }
    Err(error)
}
