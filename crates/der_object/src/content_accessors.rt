//! Accessors of an object's content. Each returns BerTypeError if the content has another type. Only `as_oid_val`
//! allocates.
ghost use Rattle.der_base.specs.Oids.{octets_of, is_relative_of};
ghost use Rattle.der_base.specs.Parts.{AnswersPart, AnswersPartOr, boolean_part, identifier_part};
ghost use Rattle.der_base.specs.Parts.{bits_part, text_part, octets_part, sequence_part, set_part};
ghost use Rattle.der_object.specs.Items.{AnswersItems, AnswersOptional, AnswersTagged, OwnsIdentifier, time_part};
ghost use Rattle.der_object.specs.View.{content_tree};

use crate::bit_string::BitStringObject;
use crate::object::{BerObject, BerObjectContent};
use der_base::error::{BerError, Err};
use der_base::header::{Class, Tag};
use der_base::oid::Oid;
use der_base::time::ASN1DateTime;
use std::alloc::Global;

impl<'a> BerObjectContent<'a> {
    /// The value of a BOOLEAN (X.690 8.2).
    pub fn as_bool(&self) -> Result<bool, BerError>
        ensures { AnswersPart (λ b. b) (boolean_part (content_tree self.now)) result }
    {
        match self {
            BerObjectContent::Boolean(b) => Ok(*b),
            _ => Err(BerError::BerTypeError),
        }
    }

    /// An OBJECT IDENTIFIER or a RELATIVE-OID (8.19, 8.20).
    pub fn as_oid(&self) -> Result<&Oid<'a>, BerError>
        ensures { AnswersPart (λ x. (is_relative_of x.now, octets_of x.now))
            (identifier_part (content_tree self.now)) result }
    {
        match self {
            BerObjectContent::OID(oid) | BerObjectContent::RelativeOID(oid) => Ok(oid),
            _ => Err(BerError::BerTypeError),
        }
    }

    /// The octets of a BIT STRING, unused bits included (8.6).
    pub fn as_bitstring_ref(&self) -> Result<&BitStringObject<'a>, BerError>
        ensures { AnswersPart (λ w. w.now.bytes.now) (bits_part (content_tree self.now)) result }
    {
        match self {
            BerObjectContent::BitString(_, bits) => Ok(bits),
            _ => Err(BerError::BerTypeError),
        }
    }

    /// The fields of a UTCTime or a GeneralizedTime (8.25).
    pub fn as_datetime(&self) -> Result<ASN1DateTime, BerError>
        ensures { AnswersPart (λ t. t) (time_part (content_tree self.now)) result }
    {
        match self {
            BerObjectContent::UTCTime(time) | BerObjectContent::GeneralizedTime(time) => Ok(*time),
            _ => Err(BerError::BerTypeError),
        }
    }

    /// The text of a character string (8.23) or an ObjectDescriptor (8.25). A BMPString and a UniversalString have
    /// octets instead.
    pub fn as_str(&self) -> Result<&'a str, BerError>
        ensures { AnswersPart (λ s. s.now) (text_part (content_tree self.now)) result }
    {
        match self {
            BerObjectContent::NumericString(text)
            | BerObjectContent::VisibleString(text)
            | BerObjectContent::PrintableString(text)
            | BerObjectContent::IA5String(text)
            | BerObjectContent::UTF8String(text)
            | BerObjectContent::T61String(text)
            | BerObjectContent::VideotexString(text)
            | BerObjectContent::ObjectDescriptor(text)
            | BerObjectContent::GraphicString(text)
            | BerObjectContent::GeneralString(text) => Ok(*text),
            _ => Err(BerError::BerTypeError),
        }
    }

    /// The octets of an INTEGER, a BIT STRING, a string of any type or an unknown content.
    pub fn as_slice(&self) -> Result<&'a [u8], BerError>
        ensures { AnswersPart (λ w. w.now) (octets_part (content_tree self.now)) result }
    {
        match self {
            BerObjectContent::Integer(octets)
            | BerObjectContent::OctetString(octets)
            | BerObjectContent::BmpString(octets)
            | BerObjectContent::UniversalString(octets) => Ok(*octets),
            BerObjectContent::BitString(_, bits) => Ok(bits.bytes),
            BerObjectContent::Unknown(any) => Ok(any.bytes),
            _ => Ok(self.as_str()?.as_bytes()),
        }
    }

    /// The items of a SEQUENCE (8.9).
    pub fn as_sequence(&self) -> Result<&Vec<BerObject<'a>>, BerError>
        ensures { AnswersItems sequence_part self.now result }
    {
        match self {
            BerObjectContent::Sequence(items) => Ok(items),
            _ => Err(BerError::BerTypeError),
        }
    }

    /// The items of a SET (8.11).
    pub fn as_set(&self) -> Result<&Vec<BerObject<'a>>, BerError>
        ensures { AnswersItems set_part self.now result }
    {
        match self {
            BerObjectContent::Set(items) => Ok(items),
            _ => Err(BerError::BerTypeError),
        }
    }

    /// The object in an optional content. None if it is absent.
    pub fn as_optional(&self) -> Result<Option<&BerObject<'a>>, BerError>
        ensures { AnswersOptional self.now result }
    {
        match self {
            BerObjectContent::Optional(Some(object)) => Ok(Some(object)),
            BerObjectContent::Optional(None) => Ok(None),
            _ => Err(BerError::BerTypeError),
        }
    }

    /// The class and the tag number of an explicit tag, and the object inside it (8.14).
    pub fn as_tagged(&self) -> Result<(Class, Tag, &BerObject<'a>), BerError>
        ensures { AnswersTagged self.now result }
    {
        match self {
            BerObjectContent::Tagged(class, tag, object) => Ok((*class, *tag, object)),
            _ => Err(BerError::BerTypeError),
        }
    }

    /// The octets of a BIT STRING, like `as_bitstring_ref`.
    pub fn as_bitstring(&self) -> Result<BitStringObject<'a>, BerError>
        ensures { AnswersPart (λ w. w.bytes.now) (bits_part (content_tree self.now)) result }
    {
        Ok(*self.as_bitstring_ref()?)
    }

    /// A copy of an OBJECT IDENTIFIER or a RELATIVE-OID. It allocates only if the identifier owns its octets. An
    /// identifier that was made from arcs owns them.
    pub fn as_oid_val(&self, alloc: Global) -> Result<Oid<'a>, Err<BerError>>
        ensures { AnswersPartOr (OwnsIdentifier self.now) (λ x. (is_relative_of x, octets_of x))
            (identifier_part (content_tree self.now)) result }
    {
        match self {
            BerObjectContent::OID(oid) | BerObjectContent::RelativeOID(oid) => {
                Ok(oid.try_clone(alloc)?)
            }
            _ => Err(Err::Error(BerError::BerTypeError)),
        }
    }
}

impl<'a> BerObject<'a> {
    /// The value of a BOOLEAN (X.690 8.2).
    pub fn as_bool(&self) -> Result<bool, BerError>
        ensures { AnswersPart (λ b. b) (boolean_part (content_tree self.now.content)) result }
    {
        self.content.as_bool()
    }

    /// An OBJECT IDENTIFIER or a RELATIVE-OID (8.19, 8.20).
    pub fn as_oid(&self) -> Result<&Oid<'a>, BerError>
        ensures { AnswersPart (λ x. (is_relative_of x.now, octets_of x.now))
            (identifier_part (content_tree self.now.content)) result }
    {
        self.content.as_oid()
    }

    /// A copy of an OBJECT IDENTIFIER or a RELATIVE-OID. It allocates only if the identifier owns its octets. An
    /// identifier that was made from arcs owns them.
    pub fn as_oid_val(&self, alloc: Global) -> Result<Oid<'a>, Err<BerError>>
        ensures { AnswersPartOr (OwnsIdentifier self.now.content) (λ x. (is_relative_of x, octets_of x))
            (identifier_part (content_tree self.now.content)) result }
    {
        self.content.as_oid_val(alloc)
    }

    /// The octets of a BIT STRING, unused bits included (8.6).
    pub fn as_bitstring(&self) -> Result<BitStringObject<'a>, BerError>
        ensures { AnswersPart (λ w. w.bytes.now) (bits_part (content_tree self.now.content)) result }
    {
        self.content.as_bitstring()
    }

    /// The octets of a BIT STRING, like `as_bitstring`.
    pub fn as_bitstring_ref(&self) -> Result<&BitStringObject<'a>, BerError>
        ensures { AnswersPart (λ w. w.now.bytes.now) (bits_part (content_tree self.now.content)) result }
    {
        self.content.as_bitstring_ref()
    }

    /// The items of a SEQUENCE (8.9).
    pub fn as_sequence(&self) -> Result<&Vec<BerObject<'a>>, BerError>
        ensures { AnswersItems sequence_part self.now.content result }
    {
        self.content.as_sequence()
    }

    /// The items of a SET (8.11).
    pub fn as_set(&self) -> Result<&Vec<BerObject<'a>>, BerError>
        ensures { AnswersItems set_part self.now.content result }
    {
        self.content.as_set()
    }

    /// The object in an optional content. None if it is absent.
    pub fn as_optional(&self) -> Result<Option<&BerObject<'a>>, BerError>
        ensures { AnswersOptional self.now.content result }
    {
        self.content.as_optional()
    }

    /// The class and the tag number of an explicit tag, and the object inside it (8.14).
    pub fn as_tagged(&self) -> Result<(Class, Tag, &BerObject<'a>), BerError>
        ensures { AnswersTagged self.now.content result }
    {
        self.content.as_tagged()
    }

    /// The fields of a UTCTime or a GeneralizedTime (8.25).
    pub fn as_datetime(&self) -> Result<ASN1DateTime, BerError>
        ensures { AnswersPart (λ t. t) (time_part (content_tree self.now.content)) result }
    {
        self.content.as_datetime()
    }

    /// The text of a character string (8.23) or an ObjectDescriptor (8.25). A BMPString and a UniversalString have
    /// octets instead.
    pub fn as_str(&self) -> Result<&'a str, BerError>
        ensures { AnswersPart (λ s. s.now) (text_part (content_tree self.now.content)) result }
    {
        self.content.as_str()
    }

    /// The octets of an INTEGER, a BIT STRING, a string of any type or an unknown content.
    pub fn as_slice(&self) -> Result<&'a [u8], BerError>
        ensures { AnswersPart (λ w. w.now) (octets_part (content_tree self.now.content)) result }
    {
        self.content.as_slice()
    }
}
