//! The content octets of any universal type except SEQUENCE and SET, whose contents are elements.
ghost use Rattle.std.specs.Prelude.{◌≡◌, false, true, IsTrue};
ghost use Rattle.der_base.specs.declared.rules.Rules.{Rules};
ghost use Rattle.der_base.specs.Leaf.{is_list, is_mapped};
ghost use Rattle.der_base.specs.Text.{is_text_type};
ghost use Rattle.der_base.specs.Tree.{string};
ghost use Rattle.der_values.specs.Kinds.{Decodes, checked, contents, primitives};
ghost use Rattle.der_values.specs.Values.{value_content};

use crate::bits::read_bits;
use crate::identifier::ObjectIdentifier;
use crate::numbers::{read_enumerated, read_integer};
use crate::simple::{read_bool, read_null};
use crate::texts::{read_bmp_string, read_text};
use crate::times::read_moment;
use crate::value::Value;
use der_base::error::{BerError, DerConstraint};
use der_base::header::Tag;
use der_base::rules::Rules;

/// Reads the content octets of a primitive or constructed element (X.690 8.2 to 8.25; by DER 10.2 and 11 too). The
/// errors are those of the reader of each type.
///
/// By DER a constructed element is rejected by the constraint Constructed. By BER, a constructed INTEGER or OCTET
/// STRING keeps its octets, and those of NULL and end-of-contents are ignored. The other types that are always
/// primitive are ConstructUnexpected. Strings and times are Unsupported, since their parts aren't joined; a BIT STRING
/// without octets is BerValueError.
#[inline(always)]
pub fn read_value<'a>(
    rules: Rules,
    constructed: bool,
    tag: Tag,
    octets: &'a [u8],
) -> Result<Value<'a>, BerError>
    requires mapped { IsTrue (is_mapped tag.0) }
    requires no_list { is_list tag.0 ≡ false }
    ensures { Decodes value_content (contents rules constructed tag.0) octets.now result }
{
    // `Ok(..?)` copies the result of a call.
    if constructed {
        Ok(read_constructed(rules, tag, octets)?)
    } else {
        read_primitive(rules, tag, octets)
    }
}

/// Checks content octets as `read_value` does.
#[inline(always)]
pub fn check_value(rules: Rules, constructed: bool, tag: Tag, octets: &[u8]) -> Result<(), BerError>
    requires mapped { IsTrue (is_mapped tag.0) }
    requires no_list { is_list tag.0 ≡ false }
    ensures { Decodes (λ v. v) (checked (contents rules constructed tag.0)) octets.now result }
{
    match read_value(rules, constructed, tag, octets) {
        Ok(_) => Ok(()),
        Err(e) => Err(e),
    }
}

#[inline(always)]
fn read_primitive<'a>(rules: Rules, tag: Tag, octets: &'a [u8]) -> Result<Value<'a>, BerError>
    requires mapped { IsTrue (is_mapped tag.0) }
    requires no_list { is_list tag.0 ≡ false }
    ensures { Decodes value_content (primitives rules tag.0) octets.now result }
{
    // Strings and times are calls. The other readers are inlined, so that their results don't go through memory.
    match tag {
        // End-of-contents has no content octets either (8.1.5).
        Tag::EndOfContent => {
            read_null(rules, octets)?;
            Ok(Value::EndOfContent)
        }
        Tag::Boolean => Ok(Value::Boolean(read_bool(rules, octets)?)),
        Tag::Integer => Ok(Value::Integer(read_integer(rules, octets)?)),
        Tag::BitString => {
            let bits = read_bits(rules, octets)?;
            Ok(Value::BitString(bits.unused, bits.octets))
        }
        Tag::OctetString => Ok(Value::OctetString(octets)),
        Tag::Null => {
            read_null(rules, octets)?;
            Ok(Value::Null)
        }
        Tag::Oid => Ok(Value::Identifier(ObjectIdentifier::new(octets))),
        Tag::RelativeOid => Ok(Value::RelativeIdentifier(ObjectIdentifier::new_relative(octets))),
        Tag::Enumerated => Ok(Value::Enumerated(read_enumerated(rules, octets)?)),
        Tag::UtcTime => Ok(Value::UTCTime(read_moment(rules, tag, octets)?)),
        Tag::GeneralizedTime => Ok(Value::GeneralizedTime(read_moment(rules, tag, octets)?)),
        Tag::UniversalString => Ok(Value::UniversalString(octets)),
        Tag::BmpString => Ok(Value::BmpString(read_bmp_string(octets)?)),
        _ => Ok(text_value(tag, read_text(tag, octets)?)),
    }
}

#[inline(never)]
fn read_constructed<'a>(rules: Rules, tag: Tag, octets: &'a [u8]) -> Result<Value<'a>, BerError>
    requires mapped { IsTrue (is_mapped tag.0) }
    requires no_list { is_list tag.0 ≡ false }
    ensures { Decodes value_content (contents rules true tag.0) octets.now result }
{
    match rules {
        Rules::Ber => read_ber_constructed(tag, octets),
        Rules::Der => Err(BerError::DerConstraintFailed(DerConstraint::Constructed)),
    }
}

fn read_ber_constructed<'a>(tag: Tag, octets: &'a [u8]) -> Result<Value<'a>, BerError>
    requires mapped { IsTrue (is_mapped tag.0) }
    requires no_list { is_list tag.0 ≡ false }
    ensures { Decodes value_content (contents Rules.Ber true tag.0) octets.now result }
{
    match tag {
        Tag::EndOfContent => Ok(Value::EndOfContent),
        Tag::Integer => Ok(Value::Integer(octets)),
        Tag::OctetString => Ok(Value::OctetString(octets)),
        Tag::Null => Ok(Value::Null),
        Tag::Boolean | Tag::Oid | Tag::RelativeOid | Tag::Enumerated => {
            Err(BerError::ConstructUnexpected)
        }
        Tag::BitString if octets.is_empty() => Err(BerError::BerValueError),
        _ => Err(BerError::Unsupported),
    }
}

/// The value of a string type that is kept as a text.
fn text_value(tag: Tag, text: &str) -> Value<'_>
    requires { IsTrue (is_text_type tag.0) }
    ensures { value_content result ≡ string tag.0 text.now }
{
    match tag {
        Tag::ObjectDescriptor => Value::ObjectDescriptor(text),
        Tag::Utf8String => Value::UTF8String(text),
        Tag::NumericString => Value::NumericString(text),
        Tag::PrintableString => Value::PrintableString(text),
        Tag::T61String => Value::T61String(text),
        Tag::VideotexString => Value::VideotexString(text),
        Tag::Ia5String => Value::IA5String(text),
        Tag::GraphicString => Value::GraphicString(text),
        Tag::VisibleString => Value::VisibleString(text),
        _ => Value::GeneralString(text),
    }
}
