//! The values of content octets.
ghost use Rattle.std.specs.Prelude.{◌≡◌};
ghost use Rattle.der_base.specs.Numbers.{AnswersSigned, AnswersUnsigned};
ghost use Rattle.der_base.specs.Oids.{octets_of, is_relative_of};
ghost use Rattle.der_base.specs.Parts.{AnswersPart, boolean_part, identifier_part, text_part, octets_part};
ghost use Rattle.der_values.specs.Values.{bit_string_part, time_part, value_content};

use crate::bits::BitString;
use crate::identifier::ObjectIdentifier;
use der_base::error::BerError;
use der_base::header::Class;
use der_base::integer::{read_i32, read_i64, read_u64, read_used_bits};
use der_base::oid::Oid;
use der_base::time::ASN1DateTime;

/// The value of content octets: that of a universal type, or octets that stay as they are.
#[derive(Clone, Copy)]
pub enum Value<'a> {
    EndOfContent,
    Boolean(bool),
    /// An INTEGER by its content octets.
    Integer(&'a [u8]),
    /// The number of unused bits, and the octets (X.690 8.6).
    BitString(u8, &'a [u8]),
    OctetString(&'a [u8]),
    Null,
    /// An OBJECT IDENTIFIER.
    Identifier(ObjectIdentifier<'a>),
    /// A RELATIVE-OID.
    RelativeIdentifier(ObjectIdentifier<'a>),
    Enumerated(u64),
    NumericString(&'a str),
    VisibleString(&'a str),
    PrintableString(&'a str),
    IA5String(&'a str),
    UTF8String(&'a str),
    T61String(&'a str),
    VideotexString(&'a str),
    ObjectDescriptor(&'a str),
    GraphicString(&'a str),
    GeneralString(&'a str),
    BmpString(&'a [u8]),
    UniversalString(&'a [u8]),
    UTCTime(ASN1DateTime),
    GeneralizedTime(ASN1DateTime),
    /// The items of a SEQUENCE are nodes of their own.
    Sequence,
    /// The items of a SET are nodes of their own.
    Set,
    /// Another class, or a type without a value of its own.
    Unknown {
        class: Class,
        constructed: bool,
        number: u32,
        octets: &'a [u8],
    },
}

impl<'a> Value<'a> {
    /// The value of a BOOLEAN (X.690 8.2), else BerTypeError.
    pub fn as_bool(self) -> Result<bool, BerError>
        ensures { AnswersPart (λ b. b) (boolean_part (value_content self.entry)) result }
    {
        match self {
            Value::Boolean(b) => Ok(b),
            _ => Err(BerError::BerTypeError),
        }
    }

    /// An OBJECT IDENTIFIER or a RELATIVE-OID (8.19, 8.20), else BerTypeError.
    pub fn as_identifier(self) -> Result<ObjectIdentifier<'a>, BerError>
        ensures { AnswersPart (λ x. (x.relative, x.octets.now)) (identifier_part (value_content self.entry)) result }
    {
        match self {
            Value::Identifier(identifier) | Value::RelativeIdentifier(identifier) => Ok(identifier),
            _ => Err(BerError::BerTypeError),
        }
    }

    /// `as_identifier`, returning an `Oid` that borrows the octets. It doesn't allocate.
    pub fn as_oid(self) -> Result<Oid<'a>, BerError>
        ensures { AnswersPart (λ x. (is_relative_of x, octets_of x))
            (identifier_part (value_content self.entry)) result }
    {
        Ok(self.as_identifier()?.to_oid())
    }

    /// The bits of a BIT STRING (8.6), else BerTypeError.
    pub fn as_bitstring(self) -> Result<BitString<'a>, BerError>
        ensures { AnswersPart (λ v. (v.unused, v.octets.now)) (bit_string_part (value_content self.entry)) result }
    {
        match self {
            Value::BitString(unused, octets) => Ok(BitString { unused, octets }),
            _ => Err(BerError::BerTypeError),
        }
    }

    /// The fields of a UTCTime or a GeneralizedTime (8.25), else BerTypeError.
    pub fn as_datetime(self) -> Result<ASN1DateTime, BerError>
        ensures { AnswersPart (λ t. t) (time_part (value_content self.entry)) result }
    {
        match self {
            Value::UTCTime(moment) | Value::GeneralizedTime(moment) => Ok(moment),
            _ => Err(BerError::BerTypeError),
        }
    }

    /// The text of a character string that is kept as one (8.23, 8.25), else BerTypeError, also for a BMPString or a
    /// UniversalString.
    pub fn as_str(self) -> Result<&'a str, BerError>
        ensures { AnswersPart (λ s. s.now) (text_part (value_content self.entry)) result }
    {
        match self {
            Value::NumericString(text)
            | Value::VisibleString(text)
            | Value::PrintableString(text)
            | Value::IA5String(text)
            | Value::UTF8String(text)
            | Value::T61String(text)
            | Value::VideotexString(text)
            | Value::ObjectDescriptor(text)
            | Value::GraphicString(text)
            | Value::GeneralString(text) => Ok(text),
            _ => Err(BerError::BerTypeError),
        }
    }

    /// The octets of an INTEGER, a BIT STRING, a string of any type or an unknown content, else BerTypeError.
    pub fn as_slice(self) -> Result<&'a [u8], BerError>
        ensures { AnswersPart (λ w. w.now) (octets_part (value_content self.entry)) result }
    {
        match self {
            Value::Integer(octets)
            | Value::OctetString(octets)
            | Value::BitString(_, octets)
            | Value::BmpString(octets)
            | Value::UniversalString(octets)
            | Value::Unknown { octets, .. } => Ok(octets),
            _ => Ok(self.as_str()?.as_bytes()),
        }
    }

    /// The number of an INTEGER, in two's complement. No octets are 0. Errors: IntegerTooLarge if it isn't from -2^63
    /// to 2^63-1; BerValueError for another value.
    pub fn as_i64(self) -> Result<i64, BerError>
        ensures { AnswersSigned 64 (value_content self.entry) result }
    {
        match self {
            Value::Integer(octets) => read_i64(octets),
            _ => Err(BerError::BerValueError),
        }
    }

    /// As `as_i64`, from -2^31 to 2^31-1.
    pub fn as_i32(self) -> Result<i32, BerError>
        ensures { AnswersSigned 32 (value_content self.entry) result }
    {
        match self {
            Value::Integer(octets) => read_i32(octets),
            _ => Err(BerError::BerValueError),
        }
    }

    /// The number of an INTEGER or ENUMERATED, or the used bits of a BIT STRING as a number, the highest first.
    ///
    /// Errors: IntegerNegative for an INTEGER below 0; InvalidLength for a BIT STRING with more unused bits than bits;
    /// IntegerTooLarge for a number above 2^64-1 and for more than 64 used bits; BerTypeError for another value.
    pub fn as_u64(self) -> Result<u64, BerError>
        ensures { AnswersUnsigned 64 (value_content self.entry) result }
    {
        match self {
            Value::Integer(octets) => read_u64(octets),
            Value::Enumerated(n) => Ok(n),
            Value::BitString(unused, bytes) => read_used_bits(unused, bytes),
            _ => Err(BerError::BerTypeError),
        }
    }

    /// As `as_u64`, from 0 to 2^32-1.
    pub fn as_u32(self) -> Result<u32, BerError>
        ensures { AnswersUnsigned 32 (value_content self.entry) result }
    {
        u32::try_from(self.as_u64()?).map_err(|_| BerError::IntegerTooLarge)
    }
}
