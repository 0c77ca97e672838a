//! Readers of one universal type (X.690 8.2 to 8.25, and 11 by DER).
//!
//! Each reads an element of the type's tag number, of any class, as `parse_ber_with_tag` or `parse_der_with_tag` does.
//! The object keeps the header that was read. Only the readers of SEQUENCE and SET allocate.
//!
//! The readers of other types reject a constructed element. By DER the error is the constraint Constructed, before all
//! others. By BER a BOOLEAN, an ENUMERATED and an identifier are ConstructUnexpected. A BIT STRING, a time and a string
//! other than OCTET STRING are Unsupported.
//!
//! Characters that the string type doesn't have are StringInvalidCharset. Each reader names the other errors of its
//! content.
ghost use Rattle.std.specs.Prelude.{◌≡◌, ℕ, false, IsTrue, List, MatchResult};
ghost use Rattle.der_base.specs.declared.header.Class.{Class};
ghost use Rattle.der_base.specs.declared.header.Length.{Length};
ghost use Rattle.der_base.specs.declared.rules.Rules.{Rules};
ghost use Rattle.der_base.specs.Answer.{MatchAnswer};
ghost use Rattle.der_base.specs.Header.{number_of};
ghost use Rattle.der_base.specs.Leaf.{is_list, is_mapped};
ghost use Rattle.der_base.specs.Refusal.{refusal};
ghost use Rattle.der_readers.specs.Types.TypedReading.{AnswersLeaf, AnswersTyped, FramesContent, ReadsContentAs};
ghost use Rattle.der_readers.specs.Types.TypedReading.{ReadsHeaderBy, HeaderOfRefuses, HeaderLacksBy, ContentRefusesBy};
ghost use Rattle.der_readers.specs.Types.TypedReading.{ReadsTyped, TypedRefuses, TypedLacks, TypedNeedsMemory};

use crate::ber::leaf::read_leaf as read_ber_leaf;
use crate::der::leaf::read_leaf as read_der_leaf;
use crate::types::content::{frame_content, read_element_content_as};
use der_base::MAX_RECURSION;
use der_base::error::{BerError, IResult};
use der_base::header::{Class, Header, Tag};
use der_base::rules::Rules;
use der_object::{BerObject, BerObjectContent, BerResult};
use std::alloc::Global;

/// The header of an element of this tag number.
#[inline(always)]
fn read_header_of(rules: Rules, i: &[u8], tag: Tag) -> IResult<&[u8], Header<'_>, BerError>
    ensures { MatchAnswer result
        (λ x. ReadsHeaderBy rules i.now x.1 x.0.now × (number_of x.1 ≡ tag.0))
        (HeaderOfRefuses rules tag.0 i.now)
        (HeaderLacksBy rules i.now)
        ⊥ }
{
    let (behind, header) = rules.read_header(i)?;
    header.assert_tag(tag)?;
    Ok((behind, header))
}

/// An element of this tag number.
#[inline(always)]
fn read_typed<'a>(rules: Rules, alloc: Global, i: &'a [u8], tag: Tag) -> BerResult<'a>
    ensures { MatchAnswer result
        (λ x. ReadsTyped rules tag.0 i.now x.1 x.0.now)
        (TypedRefuses rules tag.0 i.now)
        (TypedLacks rules tag.0 i.now)
        (TypedNeedsMemory rules tag.0 i.now) }
{
    let (behind, header) = read_header_of(rules, i, tag)?;
    let (length, constructed) = (header.length(), header.constructed());
    let (rest, content) = read_element_content_as(
        rules,
        alloc,
        behind,
        tag,
        length,
        constructed,
        MAX_RECURSION,
    )?;
    Ok((rest, BerObject::from_header_and_content(header, content)))
}

/// The content of a type other than SEQUENCE and SET, from its octets after a header with any length.
#[inline(always)]
fn read_leaf<'a>(
    rules: Rules,
    constructed: bool,
    tag: Tag,
    octets: &'a [u8],
) -> Result<BerObjectContent<'a>, BerError>
    requires mapped { IsTrue (is_mapped tag.0) }
    requires no_list { is_list tag.0 ≡ false }
    ensures { (l : Length) → (i rest : List ℕ) → FramesContent rules l constructed 50 i octets.now rest →
        MatchResult result
        (λ x. ReadsContentAs rules tag.0 l constructed 50 i x rest)
        (λ e. ContentRefusesBy rules Class.Universal constructed tag.0 octets.now 50 (refusal e)) }
{
    match rules {
        Rules::Ber => read_ber_leaf(constructed, tag, octets),
        Rules::Der => read_der_leaf(constructed, tag, octets),
    }
}

/// An element of this tag number whose type isn't SEQUENCE or SET. The content octets are read as those of a universal
/// type, whatever the class.
#[inline(always)]
fn read_typed_leaf<'a>(rules: Rules, i: &'a [u8], tag: Tag) -> BerResult<'a>
    requires mapped { IsTrue (is_mapped tag.0) }
    requires no_list { is_list tag.0 ≡ false }
    ensures { MatchAnswer result
        (λ x. ReadsTyped rules tag.0 i.now x.1 x.0.now)
        (TypedRefuses rules tag.0 i.now)
        (TypedLacks rules tag.0 i.now)
        ⊥ }
{
    let (behind, header) = read_header_of(rules, i, tag)?;
    let universal = header.with_class(Class::Universal);
    let (rest, octets) = frame_content(rules, behind, &universal, MAX_RECURSION)?;
    let content = read_leaf(rules, header.constructed(), tag, octets)?;
    Ok((rest, BerObject::from_header_and_content(header, content)))
}

/// `read_typed_leaf` by BER, with the whole contract.
fn parse_ber_leaf<'a>(i: &'a [u8], tag: Tag) -> BerResult<'a>
    requires mapped { IsTrue (is_mapped tag.0) }
    requires no_list { is_list tag.0 ≡ false }
    ensures { AnswersLeaf Rules.Ber tag.0 i.now result }
{
    read_typed_leaf(Rules::Ber, i, tag)
}

/// `read_typed_leaf` by DER, with the whole contract.
fn parse_der_leaf<'a>(i: &'a [u8], tag: Tag) -> BerResult<'a>
    requires mapped { IsTrue (is_mapped tag.0) }
    requires no_list { is_list tag.0 ≡ false }
    ensures { AnswersLeaf Rules.Der tag.0 i.now result }
{
    read_typed_leaf(Rules::Der, i, tag)
}

/// Reads an element of this tag number, of any class, and returns the rest of the input with it. Its content is read by
/// `ber_read_element_content_as` as that of the universal type of the number, to the depth `MAX_RECURSION`. The object
/// has the header that was read.
///
/// Errors, in this order: those of `ber_read_element_header`; UnexpectedTag for another number; those of
/// `ber_read_element_content_as`. OutOfMemory only for a list that has items, or for an indefinite length.
///
/// Incomplete has the number of octets that the header or the elements of an indefinite length lack. If a definite
/// content is cut short, it has its whole length.
pub fn parse_ber_with_tag<'a>(alloc: Global, i: &'a [u8], tag: Tag) -> BerResult<'a>
    ensures { AnswersTyped Rules.Ber tag.0 i.now result }
{
    read_typed(Rules::Ber, alloc, i, tag)
}

/// Reads an element of this tag number by DER, as `parse_ber_with_tag` does by BER, with `der_read_element_header` and
/// `der_read_element_content_as`. Incomplete with the number of octets that the header lacks, or with the whole length
/// of a content that is cut short. OutOfMemory only for a list that has items.
pub fn parse_der_with_tag<'a>(alloc: Global, i: &'a [u8], tag: Tag) -> BerResult<'a>
    ensures { AnswersTyped Rules.Der tag.0 i.now result }
{
    read_typed(Rules::Der, alloc, i, tag)
}

/// Reads a SEQUENCE or SEQUENCE OF by BER (8.9, 8.10). Errors: ConstructExpected if it is primitive, and the first
/// error of an item.
pub fn parse_ber_sequence<'a>(alloc: Global, i: &'a [u8]) -> BerResult<'a>
    ensures { AnswersTyped Rules.Ber 16 i.now result }
{
    parse_ber_with_tag(alloc, i, Tag::Sequence)
}

/// Reads a SEQUENCE or SEQUENCE OF by DER, with the errors of `parse_ber_sequence`.
pub fn parse_der_sequence<'a>(alloc: Global, i: &'a [u8]) -> BerResult<'a>
    ensures { AnswersTyped Rules.Der 16 i.now result }
{
    parse_der_with_tag(alloc, i, Tag::Sequence)
}

/// Reads a SET or SET OF by BER (8.11, 8.12), with the errors of `parse_ber_sequence`.
pub fn parse_ber_set<'a>(alloc: Global, i: &'a [u8]) -> BerResult<'a>
    ensures { AnswersTyped Rules.Ber 17 i.now result }
{
    parse_ber_with_tag(alloc, i, Tag::Set)
}

/// Reads a SET or SET OF by DER, its items in any order, with the errors of `parse_ber_sequence`.
pub fn parse_der_set<'a>(alloc: Global, i: &'a [u8]) -> BerResult<'a>
    ensures { AnswersTyped Rules.Der 17 i.now result }
{
    parse_der_with_tag(alloc, i, Tag::Set)
}

/// Reads the type of tag number 0 by BER (8.1.5). Its content octets are ignored.
pub fn parse_ber_endofcontent(i: &[u8]) -> BerResult<'_>
    ensures { AnswersLeaf Rules.Ber 0 i.now result }
{
    parse_ber_leaf(i, Tag::EndOfContent)
}

/// Reads the type of tag number 0 by DER, which has no content octets. Error: InvalidLength.
pub fn parse_der_endofcontent(i: &[u8]) -> BerResult<'_>
    ensures { AnswersLeaf Rules.Der 0 i.now result }
{
    parse_der_leaf(i, Tag::EndOfContent)
}

/// Reads a BOOLEAN by BER (8.2). Error: InvalidLength.
pub fn parse_ber_bool(i: &[u8]) -> BerResult<'_>
    ensures { AnswersLeaf Rules.Ber 1 i.now result }
{
    parse_ber_leaf(i, Tag::Boolean)
}

/// Reads a BOOLEAN by DER, whose content octet is 00 or ff (11.1). Errors: InvalidLength, InvalidBoolean.
pub fn parse_der_bool(i: &[u8]) -> BerResult<'_>
    ensures { AnswersLeaf Rules.Der 1 i.now result }
{
    parse_der_leaf(i, Tag::Boolean)
}

/// Reads an INTEGER by BER (8.3). Its octets are kept.
pub fn parse_ber_integer(i: &[u8]) -> BerResult<'_>
    ensures { AnswersLeaf Rules.Ber 2 i.now result }
{
    parse_ber_leaf(i, Tag::Integer)
}

/// Reads an INTEGER by DER, in the fewest octets. Its octets are kept. Errors: IntegerEmpty, IntegerLeadingZeroes,
/// IntegerLeadingFF.
pub fn parse_der_integer(i: &[u8]) -> BerResult<'_>
    ensures { AnswersLeaf Rules.Der 2 i.now result }
{
    parse_der_leaf(i, Tag::Integer)
}

/// Reads a BIT STRING by BER (8.6). Error: BerValueError without content octets, primitive or constructed.
pub fn parse_ber_bitstring(i: &[u8]) -> BerResult<'_>
    ensures { AnswersLeaf Rules.Ber 3 i.now result }
{
    parse_ber_leaf(i, Tag::BitString)
}

/// Reads a BIT STRING by DER, whose unused bits are 0 (11.2.1). Errors: InvalidLength without content octets,
/// InvalidValue for more than 7 unused bits, UnusedBitsNotZero.
pub fn parse_der_bitstring(i: &[u8]) -> BerResult<'_>
    ensures { AnswersLeaf Rules.Der 3 i.now result }
{
    parse_der_leaf(i, Tag::BitString)
}

/// Reads an OCTET STRING by BER (8.7). Its octets are kept: for a constructed one, with the headers of the elements
/// inside.
pub fn parse_ber_octetstring(i: &[u8]) -> BerResult<'_>
    ensures { AnswersLeaf Rules.Ber 4 i.now result }
{
    parse_ber_leaf(i, Tag::OctetString)
}

/// Reads an OCTET STRING by DER.
pub fn parse_der_octetstring(i: &[u8]) -> BerResult<'_>
    ensures { AnswersLeaf Rules.Der 4 i.now result }
{
    parse_der_leaf(i, Tag::OctetString)
}

/// Reads a NULL by BER (8.8). Its content octets are ignored.
pub fn parse_ber_null(i: &[u8]) -> BerResult<'_>
    ensures { AnswersLeaf Rules.Ber 5 i.now result }
{
    parse_ber_leaf(i, Tag::Null)
}

/// Reads a NULL by DER. Error: InvalidLength.
pub fn parse_der_null(i: &[u8]) -> BerResult<'_>
    ensures { AnswersLeaf Rules.Der 5 i.now result }
{
    parse_der_leaf(i, Tag::Null)
}

/// Reads an OBJECT IDENTIFIER by BER (8.19).
pub fn parse_ber_oid(i: &[u8]) -> BerResult<'_>
    ensures { AnswersLeaf Rules.Ber 6 i.now result }
{
    parse_ber_leaf(i, Tag::Oid)
}

/// Reads an OBJECT IDENTIFIER by DER.
pub fn parse_der_oid(i: &[u8]) -> BerResult<'_>
    ensures { AnswersLeaf Rules.Der 6 i.now result }
{
    parse_der_leaf(i, Tag::Oid)
}

/// Reads an ENUMERATED from 0 to 2^64-1 by BER (8.4). Errors: IntegerNegative, IntegerTooLarge.
pub fn parse_ber_enum(i: &[u8]) -> BerResult<'_>
    ensures { AnswersLeaf Rules.Ber 10 i.now result }
{
    parse_ber_leaf(i, Tag::Enumerated)
}

/// Reads an ENUMERATED from 0 to 2^64-1 by DER, in the fewest octets. Errors: those of `parse_der_integer`, then those
/// of `parse_ber_enum`.
pub fn parse_der_enum(i: &[u8]) -> BerResult<'_>
    ensures { AnswersLeaf Rules.Der 10 i.now result }
{
    parse_der_leaf(i, Tag::Enumerated)
}

/// Reads a UTF8String by BER (8.23).
pub fn parse_ber_utf8string(i: &[u8]) -> BerResult<'_>
    ensures { AnswersLeaf Rules.Ber 12 i.now result }
{
    parse_ber_leaf(i, Tag::Utf8String)
}

/// Reads a UTF8String by DER.
pub fn parse_der_utf8string(i: &[u8]) -> BerResult<'_>
    ensures { AnswersLeaf Rules.Der 12 i.now result }
{
    parse_der_leaf(i, Tag::Utf8String)
}

/// Reads a RELATIVE-OID by BER (8.20).
pub fn parse_ber_relative_oid(i: &[u8]) -> BerResult<'_>
    ensures { AnswersLeaf Rules.Ber 13 i.now result }
{
    parse_ber_leaf(i, Tag::RelativeOid)
}

/// Reads a RELATIVE-OID by DER.
pub fn parse_der_relative_oid(i: &[u8]) -> BerResult<'_>
    ensures { AnswersLeaf Rules.Der 13 i.now result }
{
    parse_der_leaf(i, Tag::RelativeOid)
}

/// Reads a NumericString by BER (8.23).
pub fn parse_ber_numericstring(i: &[u8]) -> BerResult<'_>
    ensures { AnswersLeaf Rules.Ber 18 i.now result }
{
    parse_ber_leaf(i, Tag::NumericString)
}

/// Reads a NumericString by DER.
pub fn parse_der_numericstring(i: &[u8]) -> BerResult<'_>
    ensures { AnswersLeaf Rules.Der 18 i.now result }
{
    parse_der_leaf(i, Tag::NumericString)
}

/// Reads a VisibleString by BER (8.23).
pub fn parse_ber_visiblestring(i: &[u8]) -> BerResult<'_>
    ensures { AnswersLeaf Rules.Ber 26 i.now result }
{
    parse_ber_leaf(i, Tag::VisibleString)
}

/// Reads a VisibleString by DER.
pub fn parse_der_visiblestring(i: &[u8]) -> BerResult<'_>
    ensures { AnswersLeaf Rules.Der 26 i.now result }
{
    parse_der_leaf(i, Tag::VisibleString)
}

/// Reads a PrintableString by BER (8.23).
pub fn parse_ber_printablestring(i: &[u8]) -> BerResult<'_>
    ensures { AnswersLeaf Rules.Ber 19 i.now result }
{
    parse_ber_leaf(i, Tag::PrintableString)
}

/// Reads a PrintableString by DER.
pub fn parse_der_printablestring(i: &[u8]) -> BerResult<'_>
    ensures { AnswersLeaf Rules.Der 19 i.now result }
{
    parse_der_leaf(i, Tag::PrintableString)
}

/// Reads a T61String by BER (8.23).
pub fn parse_ber_t61string(i: &[u8]) -> BerResult<'_>
    ensures { AnswersLeaf Rules.Ber 20 i.now result }
{
    parse_ber_leaf(i, Tag::T61String)
}

/// Reads a T61String by DER.
pub fn parse_der_t61string(i: &[u8]) -> BerResult<'_>
    ensures { AnswersLeaf Rules.Der 20 i.now result }
{
    parse_der_leaf(i, Tag::T61String)
}

/// Reads a VideotexString by BER (8.23).
pub fn parse_ber_videotexstring(i: &[u8]) -> BerResult<'_>
    ensures { AnswersLeaf Rules.Ber 21 i.now result }
{
    parse_ber_leaf(i, Tag::VideotexString)
}

/// Reads a VideotexString by DER.
pub fn parse_der_videotexstring(i: &[u8]) -> BerResult<'_>
    ensures { AnswersLeaf Rules.Der 21 i.now result }
{
    parse_der_leaf(i, Tag::VideotexString)
}

/// Reads an IA5String by BER (8.23).
pub fn parse_ber_ia5string(i: &[u8]) -> BerResult<'_>
    ensures { AnswersLeaf Rules.Ber 22 i.now result }
{
    parse_ber_leaf(i, Tag::Ia5String)
}

/// Reads an IA5String by DER.
pub fn parse_der_ia5string(i: &[u8]) -> BerResult<'_>
    ensures { AnswersLeaf Rules.Der 22 i.now result }
{
    parse_der_leaf(i, Tag::Ia5String)
}

/// Reads a UTCTime by BER (8.25). Error: InvalidDateTime.
pub fn parse_ber_utctime(i: &[u8]) -> BerResult<'_>
    ensures { AnswersLeaf Rules.Ber 23 i.now result }
{
    parse_ber_leaf(i, Tag::UtcTime)
}

/// Reads a UTCTime by DER, with seconds and the zone Z (11.8). Errors: MissingTimeZone, InvalidDateTime,
/// MissingSeconds.
pub fn parse_der_utctime(i: &[u8]) -> BerResult<'_>
    ensures { AnswersLeaf Rules.Der 23 i.now result }
{
    parse_der_leaf(i, Tag::UtcTime)
}

/// Reads a GeneralizedTime by BER (8.25). Error: InvalidDateTime.
pub fn parse_ber_generalizedtime(i: &[u8]) -> BerResult<'_>
    ensures { AnswersLeaf Rules.Ber 24 i.now result }
{
    parse_ber_leaf(i, Tag::GeneralizedTime)
}

/// Reads a GeneralizedTime by DER, with seconds and the zone Z (11.7). Errors: those of `parse_der_utctime`, then
/// FractionNotMinimal.
pub fn parse_der_generalizedtime(i: &[u8]) -> BerResult<'_>
    ensures { AnswersLeaf Rules.Der 24 i.now result }
{
    parse_der_leaf(i, Tag::GeneralizedTime)
}

/// Reads an ObjectDescriptor by BER (8.25).
pub fn parse_ber_objectdescriptor(i: &[u8]) -> BerResult<'_>
    ensures { AnswersLeaf Rules.Ber 7 i.now result }
{
    parse_ber_leaf(i, Tag::ObjectDescriptor)
}

/// Reads an ObjectDescriptor by DER.
pub fn parse_der_objectdescriptor(i: &[u8]) -> BerResult<'_>
    ensures { AnswersLeaf Rules.Der 7 i.now result }
{
    parse_der_leaf(i, Tag::ObjectDescriptor)
}

/// Reads a GraphicString by BER (8.23).
pub fn parse_ber_graphicstring(i: &[u8]) -> BerResult<'_>
    ensures { AnswersLeaf Rules.Ber 25 i.now result }
{
    parse_ber_leaf(i, Tag::GraphicString)
}

/// Reads a GraphicString by DER.
pub fn parse_der_graphicstring(i: &[u8]) -> BerResult<'_>
    ensures { AnswersLeaf Rules.Der 25 i.now result }
{
    parse_der_leaf(i, Tag::GraphicString)
}

/// Reads a GeneralString by BER (8.23).
pub fn parse_ber_generalstring(i: &[u8]) -> BerResult<'_>
    ensures { AnswersLeaf Rules.Ber 27 i.now result }
{
    parse_ber_leaf(i, Tag::GeneralString)
}

/// Reads a GeneralString by DER.
pub fn parse_der_generalstring(i: &[u8]) -> BerResult<'_>
    ensures { AnswersLeaf Rules.Der 27 i.now result }
{
    parse_der_leaf(i, Tag::GeneralString)
}

/// Reads a BMPString by BER (8.23.9). Error: Unsupported for an odd number of octets.
pub fn parse_ber_bmpstring(i: &[u8]) -> BerResult<'_>
    ensures { AnswersLeaf Rules.Ber 30 i.now result }
{
    parse_ber_leaf(i, Tag::BmpString)
}

/// Reads a BMPString by DER. Error: Unsupported for an odd number of octets.
pub fn parse_der_bmpstring(i: &[u8]) -> BerResult<'_>
    ensures { AnswersLeaf Rules.Der 30 i.now result }
{
    parse_der_leaf(i, Tag::BmpString)
}

/// Reads a UniversalString by BER (8.23.8). Its characters aren't checked.
pub fn parse_ber_universalstring(i: &[u8]) -> BerResult<'_>
    ensures { AnswersLeaf Rules.Ber 28 i.now result }
{
    parse_ber_leaf(i, Tag::UniversalString)
}

/// Reads a UniversalString by DER. Its characters aren't checked.
pub fn parse_der_universalstring(i: &[u8]) -> BerResult<'_>
    ensures { AnswersLeaf Rules.Der 28 i.now result }
{
    parse_der_leaf(i, Tag::UniversalString)
}

/// Reads a VisibleString, as `parse_der_visiblestring`.
pub fn visiblestring(i: &[u8]) -> BerResult<'_>
    ensures { AnswersLeaf Rules.Der 26 i.now result }
{
    parse_der_visiblestring(i)
}
