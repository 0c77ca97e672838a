//! The values of nodes. If the content octets aren't a content of their type by BER, each call returns the reader's
//! error.
ghost use Rattle.std.specs.Prelude.{MatchResult};
ghost use Rattle.der_base.specs.Numbers.{AnswersSigned, AnswersUnsigned};
ghost use Rattle.der_base.specs.Oids.{octets_of, is_relative_of};
ghost use Rattle.der_base.specs.Parts.{AnswersPart, boolean_part, identifier_part, bits_part, text_part, octets_part};
ghost use Rattle.der_base.specs.Refusal.{refusal};
ghost use Rattle.der_values.specs.Values.{time_part, value_content};
ghost use Rattle.der_parser.specs.Viewing.Values.{AnswersValue, HasContent, HasFault};
ghost use Rattle.der_parser.specs.Viewing.Views.{view};

use crate::view::node::Node;
use der_base::error::BerError;
use der_base::header::{Class, Tag};
use der_base::oid::Oid;
use der_base::rules::Rules;
use der_base::time::ASN1DateTime;
use der_object::BitStringObject;
use der_values::{Value, read_value};

impl<'a> Node<'_, 'a> {
    /// The value of the content octets, by BER. For a constructed string, it is the octets of the elements inside it.
    pub fn value(&self) -> Result<Value<'a>, BerError>
        ensures { MatchResult result
            (λ x. HasContent (view self.now) (value_content x))
            (λ e. HasFault (view self.now) (refusal e)) }
    {
        let tag = self.tag();
        if self.class() != Class::Universal || !tag.is_mapped() {
            return Ok(Value::Unknown {
                class: self.class(),
                constructed: self.is_constructed(),
                number: tag.0,
                octets: self.content(),
            });
        }
        match tag {
            Tag::Sequence => Ok(Value::Sequence),
            Tag::Set => Ok(Value::Set),
            _ => read_value(Rules::Ber, self.is_constructed(), tag, self.content()),
        }
    }

    /// The value of a BOOLEAN (X.690 8.2), else BerTypeError.
    pub fn as_bool(&self) -> Result<bool, BerError>
        ensures { AnswersValue (λ x r. AnswersPart (λ b. b) (boolean_part x) r) (view self.now) result }
    {
        self.value()?.as_bool()
    }

    /// An OBJECT IDENTIFIER or a RELATIVE-OID (8.19, 8.20), else BerTypeError. It doesn't allocate.
    pub fn as_oid(&self) -> Result<Oid<'a>, BerError>
        ensures { AnswersValue (λ x r. AnswersPart (λ y. (is_relative_of y, octets_of y)) (identifier_part x) r)
            (view self.now) result }
    {
        self.value()?.as_oid()
    }

    /// The octets of a BIT STRING, including the unused bits (8.6), else BerTypeError.
    pub fn as_bitstring(&self) -> Result<BitStringObject<'a>, BerError>
        ensures { AnswersValue (λ x r. AnswersPart (λ w. w.bytes.now) (bits_part x) r) (view self.now) result }
    {
        bits_of(self.value()?)
    }

    /// The fields of a UTCTime or a GeneralizedTime (8.25), else BerTypeError.
    pub fn as_datetime(&self) -> Result<ASN1DateTime, BerError>
        ensures { AnswersValue (λ x r. AnswersPart (λ t. t) (time_part x) r) (view self.now) result }
    {
        self.value()?.as_datetime()
    }

    /// The text of a character string that is kept as one (8.23, 8.25), else BerTypeError, also for a BMPString or a
    /// UniversalString.
    pub fn as_str(&self) -> Result<&'a str, BerError>
        ensures { AnswersValue (λ x r. AnswersPart (λ s. s.now) (text_part x) r) (view self.now) result }
    {
        self.value()?.as_str()
    }

    /// The octets of an INTEGER, a BIT STRING, a string of any type or an unknown content, else BerTypeError.
    pub fn as_slice(&self) -> Result<&'a [u8], BerError>
        ensures { AnswersValue (λ x r. AnswersPart (λ w. w.now) (octets_part x) r) (view self.now) result }
    {
        self.value()?.as_slice()
    }

    /// The number of an INTEGER, as `Value::as_i64`.
    pub fn as_i64(&self) -> Result<i64, BerError>
        ensures { AnswersValue (λ x r. AnswersSigned 64 x r) (view self.now) result }
    {
        self.value()?.as_i64()
    }

    /// The number of an INTEGER, as `Value::as_i32`.
    pub fn as_i32(&self) -> Result<i32, BerError>
        ensures { AnswersValue (λ x r. AnswersSigned 32 x r) (view self.now) result }
    {
        self.value()?.as_i32()
    }

    /// The number of an INTEGER, an ENUMERATED or a BIT STRING, as `Value::as_u64`.
    pub fn as_u64(&self) -> Result<u64, BerError>
        ensures { AnswersValue (λ x r. AnswersUnsigned 64 x r) (view self.now) result }
    {
        self.value()?.as_u64()
    }

    /// The number as `as_u64`, from 0 to 2^32-1.
    pub fn as_u32(&self) -> Result<u32, BerError>
        ensures { AnswersValue (λ x r. AnswersUnsigned 32 x r) (view self.now) result }
    {
        self.value()?.as_u32()
    }
}

/// The octets of a BIT STRING, including the unused bits, else BerTypeError.
fn bits_of(value: Value<'_>) -> Result<BitStringObject<'_>, BerError>
    ensures { AnswersPart (λ w. w.bytes.now) (bits_part (value_content value.entry)) result }
{
    match value {
        Value::BitString(_, bytes) => Ok(BitStringObject { bytes }),
        _ => Err(BerError::BerTypeError),
    }
}
