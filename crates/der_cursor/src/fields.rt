//! Calls of a cursor that read the value of one type. Each checks the class, the tag number and the primitive form,
//! then reads the content octets.
//!
//! An error has the offset of the element, and the cursor stays there. It is the first of these:
//! - those of the header, by BER also of the framing of an indefinite length;
//! - UnexpectedClass, UnexpectedTag, ConstructUnexpected;
//! - those of the content octets, which each call names.
//!
//! If the input ends within the element, it is Incomplete. If a list ends there, it is the error Incomplete, since more
//! octets don't help.
ghost use Rattle.std.specs.Prelude.{IsTrue, pos};
ghost use Rattle.der_base.specs.Leaf.{is_time};
ghost use Rattle.der_base.specs.Numbers.{signed, unsigned};
ghost use Rattle.der_base.specs.Text.{is_text_type};
ghost use Rattle.der_cursor.specs.Cursors.{FindsPrimitive, ReadsValue, Takes, number_wanted};
ghost use Rattle.der_values.specs.Kinds.{bit_strings, booleans, borrowed_octets, enumerated_numbers, identifiers};
ghost use Rattle.der_values.specs.Kinds.{integers, nulls, numbers, octet_strings, texts, times};

use crate::cursor::Cursor;
use crate::error::ReadError;
use der_base::error::{BerError, Err as Refused};
use der_base::header::Tag;
use der_base::time::ASN1DateTime;
use der_values::{
    BitString, ObjectIdentifier, read_bits, read_bool, read_enumerated, read_i32, read_i64,
    read_identifier, read_integer, read_null, read_text, read_time, read_u32, read_u64,
};

impl<'a> Cursor<'a> {
    /// A BOOLEAN (X.690 8.2, 11.1), as `read_bool`.
    pub fn boolean(&mut self) -> Result<bool, ReadError<BerError>>
        ensures { ReadsValue (λ v. v) (booleans self.old.rules) 1 self.old result self.new }
    {
        let (rest, octets) = self.primitive(Tag::Boolean)?;
        self.take(rest, read_bool(self.rules, octets))
    }

    /// The content octets of an INTEGER, in two's complement (8.3), as `read_integer`.
    pub fn integer(&mut self) -> Result<&'a [u8], ReadError<BerError>>
        ensures { ReadsValue (λ v. v.now) (integers self.old.rules) 2 self.old result self.new }
    {
        let (rest, octets) = self.primitive(Tag::Integer)?;
        self.take(rest, read_integer(self.rules, octets))
    }

    /// The number of an INTEGER from 0 to 2^32-1, as `read_u32`.
    pub fn u32(&mut self) -> Result<u32, ReadError<BerError>>
        ensures { ReadsValue pos (numbers self.old.rules (unsigned 32)) 2 self.old result self.new }
    {
        let (rest, octets) = self.primitive(Tag::Integer)?;
        self.take(rest, read_u32(self.rules, octets))
    }

    /// The number of an INTEGER from 0 to 2^64-1, as `read_u64`.
    pub fn u64(&mut self) -> Result<u64, ReadError<BerError>>
        ensures { ReadsValue pos (numbers self.old.rules (unsigned 64)) 2 self.old result self.new }
    {
        let (rest, octets) = self.primitive(Tag::Integer)?;
        self.take(rest, read_u64(self.rules, octets))
    }

    /// The number of an INTEGER from -2^31 to 2^31-1, as `read_i32`.
    pub fn i32(&mut self) -> Result<i32, ReadError<BerError>>
        ensures { ReadsValue (λ v. v) (numbers self.old.rules (signed 32)) 2 self.old result self.new }
    {
        let (rest, octets) = self.primitive(Tag::Integer)?;
        self.take(rest, read_i32(self.rules, octets))
    }

    /// The number of an INTEGER from -2^63 to 2^63-1, as `read_i64`.
    pub fn i64(&mut self) -> Result<i64, ReadError<BerError>>
        ensures { ReadsValue (λ v. v) (numbers self.old.rules (signed 64)) 2 self.old result self.new }
    {
        let (rest, octets) = self.primitive(Tag::Integer)?;
        self.take(rest, read_i64(self.rules, octets))
    }

    /// The number of an ENUMERATED (8.4), as `read_enumerated`.
    pub fn enumerated(&mut self) -> Result<u64, ReadError<BerError>>
        ensures { ReadsValue (λ v. v) (enumerated_numbers self.old.rules) 10 self.old result self.new }
    {
        let (rest, octets) = self.primitive(Tag::Enumerated)?;
        self.take(rest, read_enumerated(self.rules, octets))
    }

    /// The bits of a BIT STRING (8.6, 11.2), as `read_bits`.
    pub fn bits(&mut self) -> Result<BitString<'a>, ReadError<BerError>>
        ensures { ReadsValue (λ v. (v.unused, v.octets.now)) (bit_strings self.old.rules) 3 self.old result self.new }
    {
        let (rest, octets) = self.primitive(Tag::BitString)?;
        self.take(rest, read_bits(self.rules, octets))
    }

    /// The octets of an OCTET STRING (8.7).
    pub fn octets(&mut self) -> Result<&'a [u8], ReadError<BerError>>
        ensures { ReadsValue (λ v. v.now) octet_strings 4 self.old result self.new }
    {
        let (rest, octets) = self.primitive(Tag::OctetString)?;
        self.take(rest, Ok(octets))
    }

    /// A NULL (8.8), as `read_null`.
    pub fn null(&mut self) -> Result<(), ReadError<BerError>>
        ensures { ReadsValue (λ v. v) (nulls self.old.rules) 5 self.old result self.new }
    {
        let (rest, octets) = self.primitive(Tag::Null)?;
        self.take(rest, read_null(self.rules, octets))
    }

    /// An OBJECT IDENTIFIER (8.19), as `read_identifier`: padded arcs are rejected.
    pub fn oid(&mut self) -> Result<ObjectIdentifier<'a>, ReadError<BerError>>
        ensures { ReadsValue borrowed_octets identifiers 6 self.old result self.new }
    {
        let (rest, octets) = self.primitive(Tag::Oid)?;
        self.take(rest, read_identifier(octets))
    }

    /// The text of a string type that is kept as a text (8.23), as `read_text`.
    pub fn text(&mut self, tag: Tag) -> Result<&'a str, ReadError<BerError>>
        requires { IsTrue (is_text_type tag.0) }
        ensures { ReadsValue (λ v. v.now) (texts tag.0) tag.0 self.old result self.new }
    {
        let (rest, octets) = self.primitive(tag)?;
        self.take(rest, read_text(tag, octets))
    }

    /// The text of a UTF8String (8.23.10).
    pub fn utf8_string(&mut self) -> Result<&'a str, ReadError<BerError>>
        ensures { ReadsValue (λ v. v.now) (texts 12) 12 self.old result self.new }
    {
        self.text(Tag::Utf8String)
    }

    /// The text of a PrintableString.
    pub fn printable_string(&mut self) -> Result<&'a str, ReadError<BerError>>
        ensures { ReadsValue (λ v. v.now) (texts 19) 19 self.old result self.new }
    {
        self.text(Tag::PrintableString)
    }

    /// The text of an IA5String.
    pub fn ia5_string(&mut self) -> Result<&'a str, ReadError<BerError>>
        ensures { ReadsValue (λ v. v.now) (texts 22) 22 self.old result self.new }
    {
        self.text(Tag::Ia5String)
    }

    /// The text of a GeneralString.
    pub fn general_string(&mut self) -> Result<&'a str, ReadError<BerError>>
        ensures { ReadsValue (λ v. v.now) (texts 27) 27 self.old result self.new }
    {
        self.text(Tag::GeneralString)
    }

    /// The time of a UTCTime (8.25, 11.8), with a year from 1950 to 2049, as `read_time`.
    pub fn utc_time(&mut self) -> Result<ASN1DateTime, ReadError<BerError>>
        ensures { ReadsValue (λ v. v) (times self.old.rules 23) 23 self.old result self.new }
    {
        let (rest, octets) = self.primitive(Tag::UtcTime)?;
        self.take(rest, read_time(self.rules, Tag::UtcTime, octets))
    }

    /// The time of a GeneralizedTime (8.25, 11.7), as `read_time`.
    pub fn generalized_time(&mut self) -> Result<ASN1DateTime, ReadError<BerError>>
        ensures { ReadsValue (λ v. v) (times self.old.rules 24) 24 self.old result self.new }
    {
        let (rest, octets) = self.primitive(Tag::GeneralizedTime)?;
        self.take(rest, read_time(self.rules, Tag::GeneralizedTime, octets))
    }

    /// Finds the next element as a primitive one of a universal type, or of its implicit tag. Returns what follows it,
    /// and its content octets.
    fn primitive(&self, tag: Tag) -> Result<(&'a [u8], &'a [u8]), ReadError<BerError>>
        ensures { FindsPrimitive tag.0 self.now result }
    {
        match self.find(self.class_wanted(), false, self.tag_wanted(tag)) {
            Ok(found) => Ok((found.rest, found.content)),
            Err(e) => Err(e),
        }
    }

    /// Takes the value of an element that was found, and goes on after it.
    fn take<T>(
        &mut self,
        rest: &'a [u8],
        value: Result<T, BerError>,
    ) -> Result<T, ReadError<BerError>>
        ensures { Takes self.old rest.entry value result self.new }
    {
        match value {
            Ok(value) => {
                self.advance(rest);
                Ok(value)
            }
            Err(e) => Err(self.refused(Refused::Error(e))),
        }
    }
}
