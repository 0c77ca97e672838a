//! Values that may be absent. A value is read iff the next identifier octets have the class and number of its type, or
//! of its implicit tag. Otherwise nothing is read.
ghost use Rattle.std.specs.Prelude.{◌≡◌, ◌↔◌, ◌≤◌, ◌+◌, ◌/◌, ◌%◌, ◌++◌, ℕ, List, IsTrue, pos};
ghost use Rattle.der_base.specs.Numbers.{unsigned};
ghost use Rattle.der_base.specs.Octets.{class_number, groups};
ghost use Rattle.der_cursor.specs.Cursors.{octets_left, IsNextType, ReadsAnyAt, ReadsOptional, ReadsOr};
ghost use Rattle.der_cursor.specs.Cursors.{ReadsTime};
ghost use Rattle.der_cursor.specs.Elements.{IsNext};
ghost use Rattle.der_values.specs.Kinds.{bit_strings, booleans, borrowed_octets, identifiers, integers, numbers};
ghost use Rattle.der_values.specs.Kinds.{octet_strings, texts, times};

use crate::cursor::{Cursor, read_any};
use crate::error::ReadError;
use der_base::any::Any;
use der_base::error::{BerError, Err as Refused, refuse_cut_item};
use der_base::header::{Class, Tag};
use der_base::identifier::class_of;
use der_base::rules::Rules;
use der_base::time::ASN1DateTime;
use der_values::{BitString, ObjectIdentifier};

impl<'a> Cursor<'a> {
    /// Whether the next element has this class and tag number, by its identifier octets (X.690 8.1.2).
    pub fn is_next(&self, class: Class, tag: Tag) -> bool
        ensures { IsTrue result ↔ IsNext class tag.0 (octets_left self.now) }
    {
        if tag.0 >= 31 {
            return begins_with_long_tag(self.left, class, tag);
        }
        match self.left.first() {
            Some(octet) => is_identifier(*octet, class, tag),
            None => false,
        }
    }

    /// Whether the next element is of this type, or of its implicit tag.
    fn is_next_type(&self, tag: Tag) -> bool
        ensures { IsTrue result ↔ IsNextType tag.0 self.now }
    {
        self.is_next(self.class_wanted(), self.tag_wanted(tag))
    }

    /// A BOOLEAN, if it is next.
    pub fn optional_boolean(&mut self) -> Result<Option<bool>, ReadError<BerError>>
        ensures { ReadsOptional (λ v. v) (booleans self.old.rules) 1 self.old result self.new }
    {
        if !self.is_next_type(Tag::Boolean) {
            self.advance(self.left);
            return Ok(None);
        }
        match self.boolean() {
            Ok(value) => Ok(Some(value)),
            Err(e) => Err(e),
        }
    }

    /// The content octets of an INTEGER, if it is next.
    pub fn optional_integer(&mut self) -> Result<Option<&'a [u8]>, ReadError<BerError>>
        ensures { ReadsOptional (λ v. v.now) (integers self.old.rules) 2 self.old result self.new }
    {
        if !self.is_next_type(Tag::Integer) {
            self.advance(self.left);
            return Ok(None);
        }
        match self.integer() {
            Ok(value) => Ok(Some(value)),
            Err(e) => Err(e),
        }
    }

    /// The number of an INTEGER from 0 to 2^32-1, if it is next.
    pub fn optional_u32(&mut self) -> Result<Option<u32>, ReadError<BerError>>
        ensures { ReadsOptional pos (numbers self.old.rules (unsigned 32)) 2 self.old result self.new }
    {
        if !self.is_next_type(Tag::Integer) {
            self.advance(self.left);
            return Ok(None);
        }
        match self.u32() {
            Ok(value) => Ok(Some(value)),
            Err(e) => Err(e),
        }
    }

    /// The number of an INTEGER from 0 to 2^64-1, if it is next.
    pub fn optional_u64(&mut self) -> Result<Option<u64>, ReadError<BerError>>
        ensures { ReadsOptional pos (numbers self.old.rules (unsigned 64)) 2 self.old result self.new }
    {
        if !self.is_next_type(Tag::Integer) {
            self.advance(self.left);
            return Ok(None);
        }
        match self.u64() {
            Ok(value) => Ok(Some(value)),
            Err(e) => Err(e),
        }
    }

    /// The octets of an OCTET STRING, if it is next.
    pub fn optional_octets(&mut self) -> Result<Option<&'a [u8]>, ReadError<BerError>>
        ensures { ReadsOptional (λ v. v.now) octet_strings 4 self.old result self.new }
    {
        if !self.is_next_type(Tag::OctetString) {
            self.advance(self.left);
            return Ok(None);
        }
        match self.octets() {
            Ok(value) => Ok(Some(value)),
            Err(e) => Err(e),
        }
    }

    /// The bits of a BIT STRING, if it is next.
    pub fn optional_bits(&mut self) -> Result<Option<BitString<'a>>, ReadError<BerError>>
        ensures { ReadsOptional (λ v. (v.unused, v.octets.now)) (bit_strings self.old.rules) 3
            self.old result self.new }
    {
        if !self.is_next_type(Tag::BitString) {
            self.advance(self.left);
            return Ok(None);
        }
        match self.bits() {
            Ok(value) => Ok(Some(value)),
            Err(e) => Err(e),
        }
    }

    /// An OBJECT IDENTIFIER, if it is next.
    pub fn optional_oid(&mut self) -> Result<Option<ObjectIdentifier<'a>>, ReadError<BerError>>
        ensures { ReadsOptional borrowed_octets identifiers 6 self.old result self.new }
    {
        if !self.is_next_type(Tag::Oid) {
            self.advance(self.left);
            return Ok(None);
        }
        match self.oid() {
            Ok(value) => Ok(Some(value)),
            Err(e) => Err(e),
        }
    }

    /// The text of a UTF8String, if it is next.
    pub fn optional_utf8_string(&mut self) -> Result<Option<&'a str>, ReadError<BerError>>
        ensures { ReadsOptional (λ v. v.now) (texts 12) 12 self.old result self.new }
    {
        if !self.is_next_type(Tag::Utf8String) {
            self.advance(self.left);
            return Ok(None);
        }
        match self.utf8_string() {
            Ok(value) => Ok(Some(value)),
            Err(e) => Err(e),
        }
    }

    /// The time of a GeneralizedTime, if it is next.
    pub fn optional_generalized_time(&mut self) -> Result<Option<ASN1DateTime>, ReadError<BerError>>
        ensures { ReadsOptional (λ v. v) (times self.old.rules 24) 24 self.old result self.new }
    {
        if !self.is_next_type(Tag::GeneralizedTime) {
            self.advance(self.left);
            return Ok(None);
        }
        match self.generalized_time() {
            Ok(value) => Ok(Some(value)),
            Err(e) => Err(e),
        }
    }

    /// A BOOLEAN, or the default if none is next. By DER the default isn't encoded (11.5): BerValueError.
    pub fn boolean_or(&mut self, default: bool) -> Result<bool, ReadError<BerError>>
        ensures { ReadsOr (λ v. v) (booleans self.old.rules) 1 default self.old result self.new }
    {
        if !self.is_next_type(Tag::Boolean) {
            self.advance(self.left);
            return Ok(default);
        }
        let before = *self;
        let value = match self.boolean() {
            Ok(value) => value,
            Err(e) => return Err(e),
        };
        if value == default && before.rules == Rules::Der {
            *self = before;
            return Err(before.refused(Refused::Error(BerError::BerValueError)));
        }
        Ok(value)
    }

    /// The number of an INTEGER from 0 to 2^32-1 or the default, as `boolean_or`: `version INTEGER DEFAULT 0` is
    /// `u32_or(0)`.
    pub fn u32_or(&mut self, default: u32) -> Result<u32, ReadError<BerError>>
        ensures { ReadsOr pos (numbers self.old.rules (unsigned 32)) 2 default self.old result self.new }
    {
        if !self.is_next_type(Tag::Integer) {
            self.advance(self.left);
            return Ok(default);
        }
        let before = *self;
        let number = match self.u32() {
            Ok(number) => number,
            Err(e) => return Err(e),
        };
        if number == default && before.rules == Rules::Der {
            *self = before;
            return Err(before.refused(Refused::Error(BerError::BerValueError)));
        }
        Ok(number)
    }

    /// The time of a UTCTime or a GeneralizedTime, whichever is next: `Time` of RFC 5280 (4.1).
    pub fn time(&mut self) -> Result<ASN1DateTime, ReadError<BerError>>
        ensures { ReadsTime self.old result self.new }
    {
        if self.is_next_type(Tag::GeneralizedTime) {
            self.generalized_time()
        } else {
            self.utc_time()
        }
    }

    /// The next element, whatever it is. Its content isn't checked.
    pub fn any(&mut self) -> Result<Any<'a>, ReadError<BerError>>
        ensures { ReadsAnyAt self.old result self.new }
    {
        match read_any(self.rules, self.left) {
            Ok((rest, any)) => {
                self.advance(rest);
                Ok(any)
            }
            Err(reason) if self.inside => Err(self.refused(refuse_cut_item(reason))),
            Err(reason) => Err(self.refused(reason)),
        }
    }
}

/// Whether the octets begin with the identifier octets of this class and tag number, which is 31 or more
/// (8.1.2.4).
fn begins_with_long_tag(left: &[u8], class: Class, tag: Tag) -> bool
    requires { 31 ≤ tag.0 }
    ensures { IsTrue result ↔ IsNext class tag.0 left.now }
{
    match left {
        [first, following @ ..] => {
            is_identifier(*first, class, Tag(31)) && begins_with_groups(following, tag.0)
        }
        [] => false,
    }
}

/// Whether the octets begin with the number in the fewest groups of seven bits, each but the last with the high bit
/// (8.1.2.4.2).
fn begins_with_groups(octets: &[u8], n: u32) -> bool
    ensures { IsTrue result ↔ ((rest : List ℕ) × (octets.now ≡ groups n ++ rest)) }
{
    let last = (n % 128) as u8;
    let a = group(n / 128);
    let b = group(n / 128 / 128);
    let c = group(n / 128 / 128 / 128);
    let d = group(n / 128 / 128 / 128 / 128);
    match n {
        0..0x80 => octets.starts_with(&[last]),
        0x80..0x4000 => octets.starts_with(&[a, last]),
        0x4000..0x20_0000 => octets.starts_with(&[b, a, last]),
        0x20_0000..0x1000_0000 => octets.starts_with(&[c, b, a, last]),
        _ => octets.starts_with(&[d, c, b, a, last]),
    }
}

/// The octet of the last seven bits of a number, with the high bit.
fn group(n: u32) -> u8
    ensures { result ≡ 128 + n % 128 }
{
    128 + (n % 128) as u8
}

/// Whether the octet has this class, and this number in its last five bits (8.1.2.2).
fn is_identifier(octet: u8, class: Class, tag: Tag) -> bool
    ensures { IsTrue result ↔ ((octet / 64 ≡ class_number class) × (octet % 32 ≡ tag.0)) }
{
    class_of(octet) == class && u32::from(octet % 32) == tag.0
}
