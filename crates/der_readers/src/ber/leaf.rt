//! The content octets of the universal types other than SEQUENCE and SET, by BER (X.690 8.2 to 8.25) or by DER (10.2
//! and 11 too): objects of the values that der_values reads.
ghost use Rattle.std.specs.Prelude.{◌≡◌, false, true, IsTrue};
ghost use Rattle.der_base.specs.declared.rules.Rules.{Rules};
ghost use Rattle.der_base.specs.Leaf.{is_list, is_mapped, is_time};
ghost use Rattle.der_base.specs.LeafRefusal.{IsFirstRefusal};
ghost use Rattle.der_base.specs.Refusal.{refusal};
ghost use Rattle.der_base.specs.Text.{is_text_type};
ghost use Rattle.der_base.specs.Tree.{string, time};
ghost use Rattle.der_object.specs.View.{content_tree};
ghost use Rattle.der_values.specs.Kinds.{Decodes, content_tests, contents, enumerated_numbers, primitives};
ghost use Rattle.der_readers.specs.Ber.Inner.BerLeaves.{ReadsLeaf};

use der_base::error::BerError;
use der_base::header::Tag;
use der_base::integer::read_u64;
use der_base::oid::Oid;
use der_base::rules::Rules;
use der_base::time::ASN1DateTime;
use der_object::{BerObjectContent, BitStringObject};
use der_values::{
    check_value, read_bits, read_bool, read_integer, read_moment, read_null, read_text,
};
use std::borrow::CowSlice;

/// Reads the content octets of a universal type other than SEQUENCE and SET by BER, in a primitive or constructed
/// element.
#[inline(always)]
pub fn read_leaf<'a>(
    constructed: bool,
    tag: Tag,
    content: &'a [u8],
) -> Result<BerObjectContent<'a>, BerError>
    requires mapped { IsTrue (is_mapped tag.0) }
    requires no_list { is_list tag.0 ≡ false }
    ensures { ReadsLeaf constructed tag.0 content.now result }
{
    read_content(Rules::Ber, constructed, tag, content)
}

/// `read_leaf` by either rules. The errors are those of `der_values::read_value`.
#[inline(always)]
pub fn read_content<'a>(
    rules: Rules,
    constructed: bool,
    tag: Tag,
    octets: &'a [u8],
) -> Result<BerObjectContent<'a>, BerError>
    requires mapped { IsTrue (is_mapped tag.0) }
    requires no_list { is_list tag.0 ≡ false }
    ensures { Decodes content_tree (contents rules constructed tag.0) octets.now result }
{
    // `Ok(..?)` copies the result of a call.
    match (constructed, rules) {
        (false, _) => read_primitive(rules, tag, octets),
        (true, Rules::Ber) => Ok(read_constructed(tag, octets)?),
        (true, Rules::Der) => Err(constructed_fault(tag, octets)),
    }
}

/// The error of a constructed element by DER, which has none (10.2).
#[cold]
#[inline(never)]
fn constructed_fault(tag: Tag, octets: &[u8]) -> BerError
    requires mapped { IsTrue (is_mapped tag.0) }
    requires no_list { is_list tag.0 ≡ false }
    ensures { IsFirstRefusal (content_tests Rules.Der true tag.0 octets.now) (refusal result) }
{
    match check_value(Rules::Der, true, tag, octets) {
        Ok(()) => unreachable!(),
        Err(e) => e,
    }
}

/// The content of a constructed element by BER. Types that aren't rejected keep their octets, or have none.
#[cold]
#[inline(never)]
fn read_constructed<'a>(tag: Tag, octets: &'a [u8]) -> Result<BerObjectContent<'a>, BerError>
    requires mapped { IsTrue (is_mapped tag.0) }
    requires no_list { is_list tag.0 ≡ false }
    ensures { Decodes content_tree (contents Rules.Ber true tag.0) octets.now result }
{
    check_value(Rules::Ber, true, tag, octets)?;
    match tag {
        Tag::EndOfContent => Ok(BerObjectContent::EndOfContent),
        Tag::Integer => Ok(BerObjectContent::Integer(octets)),
        Tag::OctetString => Ok(BerObjectContent::OctetString(octets)),
        _ => Ok(BerObjectContent::Null),
    }
}

#[inline(always)]
fn read_primitive<'a>(
    rules: Rules,
    tag: Tag,
    octets: &'a [u8],
) -> Result<BerObjectContent<'a>, BerError>
    requires mapped { IsTrue (is_mapped tag.0) }
    requires no_list { is_list tag.0 ≡ false }
    ensures { Decodes content_tree (primitives rules tag.0) octets.now result }
{
    // Times and strings are calls. The other readers are inlined, so that their results don't go through memory.
    match tag {
        Tag::EndOfContent => {
            read_null(rules, octets)?;
            Ok(BerObjectContent::EndOfContent)
        }
        Tag::Boolean => Ok(BerObjectContent::Boolean(read_bool(rules, octets)?)),
        Tag::Integer => Ok(BerObjectContent::Integer(read_integer(rules, octets)?)),
        Tag::BitString => read_bit_string(rules, octets),
        Tag::OctetString => Ok(BerObjectContent::OctetString(octets)),
        Tag::Null => {
            read_null(rules, octets)?;
            Ok(BerObjectContent::Null)
        }
        Tag::Oid => Ok(BerObjectContent::OID(Oid::new(CowSlice::Borrowed(octets)))),
        Tag::RelativeOid => Ok(BerObjectContent::RelativeOID(Oid::new_relative(CowSlice::Borrowed(
            octets,
        )))),
        Tag::Enumerated => Ok(BerObjectContent::Enum(read_enumerated(rules, octets)?)),
        Tag::UtcTime | Tag::GeneralizedTime => read_time_content(rules, tag, octets),
        Tag::UniversalString => Ok(BerObjectContent::UniversalString(octets)),
        Tag::BmpString => {
            check_value(rules, false, Tag::BmpString, octets)?;
            Ok(BerObjectContent::BmpString(octets))
        }
        _ => Ok(read_string(tag, octets)?),
    }
}

/// A BIT STRING (8.6; by DER 11.2).
#[inline(always)]
fn read_bit_string(rules: Rules, octets: &[u8]) -> Result<BerObjectContent<'_>, BerError>
    ensures { Decodes content_tree (primitives rules 3) octets.now result }
{
    let bits = read_bits(rules, octets)?;
    Ok(BerObjectContent::BitString(bits.unused, BitStringObject { bytes: bits.octets }))
}

/// The number of an ENUMERATED from 0 to 2^64-1. Its octets are those of an INTEGER (8.4).
#[inline(always)]
fn read_enumerated(rules: Rules, octets: &[u8]) -> Result<u64, BerError>
    ensures { Decodes (λ v. v) (enumerated_numbers rules) octets.now result }
{
    // `read_enumerated` of der_values would be a call.
    read_integer(rules, octets)?;
    read_u64(octets)
}

/// A UTCTime or a GeneralizedTime (8.25; by DER 11.7, 11.8), with a call for each of the rules.
#[inline(always)]
fn read_time_content(
    rules: Rules,
    tag: Tag,
    octets: &[u8],
) -> Result<BerObjectContent<'_>, BerError>
    requires { IsTrue (is_time tag.0) }
    ensures { Decodes content_tree (primitives rules tag.0) octets.now result }
{
    match rules {
        Rules::Ber => Ok(read_ber_time_content(tag, octets)?),
        Rules::Der => Ok(read_der_time_content(tag, octets)?),
    }
}

#[inline(never)]
fn read_ber_time_content(tag: Tag, octets: &[u8]) -> Result<BerObjectContent<'_>, BerError>
    requires { IsTrue (is_time tag.0) }
    ensures { Decodes content_tree (primitives Rules.Ber tag.0) octets.now result }
{
    Ok(time_content(tag, read_moment(Rules::Ber, tag, octets)?))
}

#[inline(never)]
fn read_der_time_content(tag: Tag, octets: &[u8]) -> Result<BerObjectContent<'_>, BerError>
    requires { IsTrue (is_time tag.0) }
    ensures { Decodes content_tree (primitives Rules.Der tag.0) octets.now result }
{
    Ok(time_content(tag, read_moment(Rules::Der, tag, octets)?))
}

/// The content of a time type.
fn time_content<'a>(tag: Tag, moment: ASN1DateTime) -> BerObjectContent<'a>
    requires { IsTrue (is_time tag.0) }
    ensures { content_tree result ≡ time tag.0 moment }
{
    if tag == Tag::UtcTime {
        BerObjectContent::UTCTime(moment)
    } else {
        BerObjectContent::GeneralizedTime(moment)
    }
}

/// A string type that is kept as a text (8.23), for which DER has no rules of its own.
#[inline(never)]
fn read_string(tag: Tag, octets: &[u8]) -> Result<BerObjectContent<'_>, BerError>
    requires { IsTrue (is_text_type tag.0) }
    ensures { (rules : Rules) → Decodes content_tree (primitives rules tag.0) octets.now result }
{
    Ok(text_content(tag, read_text(tag, octets)?))
}

/// The content of a string type that is kept as a text.
fn text_content<'a>(tag: Tag, text: &'a str) -> BerObjectContent<'a>
    requires { IsTrue (is_text_type tag.0) }
    ensures { content_tree result ≡ string tag.0 text.now }
{
    match tag {
        Tag::ObjectDescriptor => BerObjectContent::ObjectDescriptor(text),
        Tag::Utf8String => BerObjectContent::UTF8String(text),
        Tag::NumericString => BerObjectContent::NumericString(text),
        Tag::PrintableString => BerObjectContent::PrintableString(text),
        Tag::T61String => BerObjectContent::T61String(text),
        Tag::VideotexString => BerObjectContent::VideotexString(text),
        Tag::Ia5String => BerObjectContent::IA5String(text),
        Tag::GraphicString => BerObjectContent::GraphicString(text),
        Tag::VisibleString => BerObjectContent::VisibleString(text),
        _ => BerObjectContent::GeneralString(text),
    }
}
