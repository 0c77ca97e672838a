//! Calls of a writer that put the value of one type.
ghost use Rattle.std.specs.Prelude.{◌≡◌, ◌-◌, ◌%◌, ◌^◌, ◌≤◌, ◌<ℤ◌, [], IsTrue, map, negsuc, pos};
ghost use Rattle.std.specs.Int.{to_be_bytes, w64};
ghost use Rattle.der_base.specs.Encoding.{content_octets};
ghost use Rattle.der_base.specs.Leaf.{IsMinimalInteger};
ghost use Rattle.der_base.specs.Octets.{needs_zero, number, octets, shortest_integer};
ghost use Rattle.der_base.specs.Text.{is_text_type};
ghost use Rattle.der_base.specs.Time.{text_from_year};
ghost use Rattle.der_base.specs.Tree.{boolean, enumerated, time};
ghost use Rattle.der_writer.specs.Octets.{bit_octets, signed_integer};
ghost use Rattle.der_writer.specs.Written.{PutsBmp, PutsLeaf, PutsText};

use crate::writer::{Writer, tag_put};
use der_base::error::BerError;
use der_base::header::Tag;
use der_base::rules::Rules;
use der_base::text::read_text;
use der_base::time::ASN1DateTime;
use der_values::check_value;
use der_values::octets::header::{integer_octet_count, write_integer};
use der_values::octets::time::{GENERALIZED_YEAR, UTC_YEAR, time_length, write_time};

impl<'b> Writer<'b> {
    /// A BOOLEAN (X.690 8.2, 11.1).
    pub fn put_bool(&mut self, value: bool)
        ensures { PutsLeaf 1 (content_octets (boolean value)) self.old self.new }
    {
        self.put_octet(Tag::Boolean, if value { 0xff } else { 0 });
    }

    /// An INTEGER with these content octets, in two's complement (8.3). The caller proves that they are the fewest, as
    /// `check_fewest_octets` tests.
    pub fn put_integer(&mut self, octets: &[u8])
        requires { IsMinimalInteger octets.now }
        ensures { PutsLeaf 2 octets.now self.old self.new }
    {
        self.put_primitive(Tag::Integer, octets);
    }

    /// An INTEGER that isn't negative.
    pub fn put_u64(&mut self, value: u64)
        ensures { PutsLeaf 2 (shortest_integer value) self.old self.new }
    {
        self.put_number(Tag::Integer, value);
    }

    /// An INTEGER that isn't negative.
    pub fn put_u32(&mut self, value: u32)
        ensures { PutsLeaf 2 (shortest_integer value) self.old self.new }
    {
        self.put_u64(u64::from(value));
    }

    /// An INTEGER.
    pub fn put_i32(&mut self, value: i32)
        ensures { PutsLeaf 2 (signed_integer value) self.old self.new }
    {
        self.put_i64(i64::from(value));
    }

    /// An INTEGER.
    pub fn put_i64(&mut self, value: i64)
        ensures { PutsLeaf 2 (signed_integer value) self.old self.new }
    {
        self.put_signed(Tag::Integer, value);
    }

    /// An INTEGER of any size that isn't negative, with these octets, the highest first. Leading zeros aren't put.
    #[tactic(auto, using(crate::proofs::Magnitudes::with_zero, crate::proofs::Magnitudes::without_zero))]
    pub fn put_magnitude(&mut self, octets: &[u8])
        ensures { PutsLeaf 2 (shortest_integer (number octets.now)) self.old self.new }
    {
        let fewest = fewest_octets(octets);
        if needs_zero(fewest) {
            self.put_parts(Tag::Integer, &[0], fewest);
        } else {
            self.put_primitive(Tag::Integer, fewest);
        }
    }

    /// An ENUMERATED (8.4) that isn't negative.
    pub fn put_enumerated(&mut self, value: u64)
        ensures { PutsLeaf 10 (content_octets (enumerated value)) self.old self.new }
    {
        self.put_number(Tag::Enumerated, value);
    }

    /// An ENUMERATED that may be negative.
    pub fn put_enumerated_i64(&mut self, value: i64)
        ensures { PutsLeaf 10 (signed_integer value) self.old self.new }
    {
        self.put_signed(Tag::Enumerated, value);
    }

    /// A number in the fewest octets of two's complement (8.3.2).
    fn put_signed(&mut self, tag: Tag, value: i64)
        ensures { PutsLeaf tag.0 (signed_integer value) self.old self.new }
    {
        if value < 0 {
            let mut room = [0; 9];
            let octets = negative_octets(&mut room, ones_complement(value));
            self.put_primitive(tag, octets);
        } else {
            self.put_number(tag, value as u64);
        }
    }

    /// A number in the fewest octets (8.3.2).
    #[tactic(auto, using(crate::proofs::Magnitudes::small_integer, crate::proofs::Magnitudes::two_octets))]
    fn put_number(&mut self, tag: Tag, value: u64)
        ensures { PutsLeaf tag.0 (shortest_integer value) self.old self.new }
    {
        if value < 0x80 {
            self.put_octet(tag, value as u8);
        } else if value < 0x8000 {
            self.put_two_octets(tag, (value / 256) as u8, (value % 256) as u8);
        } else {
            self.put_large_number(tag, value);
        }
    }

    /// A number of any size in the fewest octets.
    #[inline(never)]
    #[tactic(auto, using(crate::proofs::Magnitudes::with_zero, crate::proofs::Magnitudes::without_zero))]
    fn put_large_number(&mut self, tag: Tag, value: u64)
        ensures { PutsLeaf tag.0 (shortest_integer value) self.old self.new }
    {
        let bytes = value.to_be_bytes();
        let octets = number_octets(&bytes, value);
        if needs_zero(octets) {
            self.put_parts(tag, &[0], octets);
        } else {
            self.put_primitive(tag, octets);
        }
    }

    /// A BIT STRING (8.6, 11.2) of these octets. The last `unused` bits, at most seven, are put as 0.
    pub fn put_bits(&mut self, unused: u8, octets: &[u8])
        ensures { PutsLeaf 3 (bit_octets unused octets.now) self.old self.new }
    {
        let Some((last, front)) = octets.split_last() else {
            self.put_primitive(Tag::BitString, &[0]);
            return;
        };
        let unused = unused.min(7);
        let (class, tag) = tag_put(self.implicit, Tag::BitString);
        let bits = self.open(class, false, tag);
        self.put_elements(&[unused]);
        self.put_elements(front);
        self.put_elements(&[clear_bits(*last, unused)]);
        self.close(bits);
    }

    /// An OCTET STRING (8.7).
    pub fn put_octets(&mut self, octets: &[u8])
        ensures { PutsLeaf 4 octets.now self.old self.new }
    {
        self.put_primitive(Tag::OctetString, octets);
    }

    /// A NULL (8.8).
    pub fn put_null(&mut self)
        ensures { PutsLeaf 5 [] self.old self.new }
    {
        self.put_primitive(Tag::Null, &[]);
    }

    /// An OBJECT IDENTIFIER with these content octets (8.19), which aren't checked.
    pub fn put_oid(&mut self, octets: &[u8])
        ensures { PutsLeaf 6 octets.now self.old self.new }
    {
        self.put_primitive(Tag::Oid, octets);
    }

    /// A string type that is kept as a text (8.23), with these octets. If they aren't in its character set, nothing is
    /// put, and the error is StringInvalidCharset.
    pub fn put_text(&mut self, tag: Tag, octets: &[u8]) -> Result<(), BerError>
        requires { IsTrue (is_text_type tag.0) }
        ensures { PutsText tag.0 octets.now self.old result self.new }
    {
        match read_text(tag, octets) {
            Some(text) => {
                self.put_primitive(tag, text.as_bytes());
                Ok(())
            }
            None => Err(BerError::StringInvalidCharset),
        }
    }

    /// A UTF8String.
    pub fn put_utf8(&mut self, text: &str)
        ensures { PutsLeaf 12 text.now self.old self.new }
    {
        self.put_primitive(Tag::Utf8String, text.as_bytes());
    }

    /// A PrintableString, as `put_text`.
    pub fn put_printable(&mut self, text: &str) -> Result<(), BerError>
        ensures { PutsText 19 text.now self.old result self.new }
    {
        self.put_text(Tag::PrintableString, text.as_bytes())
    }

    /// An IA5String, as `put_text`.
    pub fn put_ia5(&mut self, text: &str) -> Result<(), BerError>
        ensures { PutsText 22 text.now self.old result self.new }
    {
        self.put_text(Tag::Ia5String, text.as_bytes())
    }

    /// A BMPString (8.23.9) with these octets: two for each character, the high one first. If they aren't UTF-16,
    /// nothing is put, and the error is StringInvalidCharset.
    #[tactic(auto, using(crate::proofs::BmpStrings::passes, crate::proofs::BmpStrings::refused))]
    pub fn put_bmp(&mut self, octets: &[u8]) -> Result<(), BerError>
        ensures { PutsBmp octets.now self.old result self.new }
    {
        match check_value(Rules::Der, false, Tag::BmpString, octets) {
            Ok(()) => {
                self.put_primitive(Tag::BmpString, octets);
                Ok(())
            }
            Err(_) => Err(BerError::StringInvalidCharset),
        }
    }

    /// A UTCTime (11.8). The fields aren't checked.
    pub fn put_utc_time(&mut self, value: ASN1DateTime)
        ensures { PutsLeaf 23 (content_octets (time 23 value)) self.old self.new }
    {
        let mut room = [0; 128];
        let text = time_octets(&mut room, UTC_YEAR, value);
        self.put_primitive(Tag::UtcTime, text);
    }

    /// A GeneralizedTime (11.7). The fields aren't checked.
    pub fn put_generalized_time(&mut self, value: ASN1DateTime)
        ensures { PutsLeaf 24 (content_octets (time 24 value)) self.old self.new }
    {
        let mut room = [0; 128];
        let text = time_octets(&mut room, GENERALIZED_YEAR, value);
        self.put_primitive(Tag::GeneralizedTime, text);
    }
}

/// The octets of a number without leading zeros.
#[tactic(auto, using(der_base::proofs::Octets::Numbers::octets_from_bytes))]
fn number_octets(bytes: &[u8; 8], value: u64) -> &[u8]
    requires { bytes.now ≡ to_be_bytes w64 value }
    ensures { result.now ≡ octets value }
{
    &bytes[value.leading_zeros() as usize / 8..]
}

/// The fewest octets of -1 - n.
fn negative_octets(room: &mut [u8; 9], n: u64) -> &[u8]
    ensures { result.now ≡ signed_integer (negsuc n) }
{
    let begin = 9 - integer_octet_count(n);
    write_integer(room, 9, n);
    let octets = &mut room[begin..];
    turn_bits(octets);
    octets
}

/// The n of a negative number -1 - n.
fn ones_complement(value: i64) -> u64
    requires { value <ℤ pos 0 }
    ensures { value ≡ negsuc result }
{
    (-(value + 1)) as u64
}

/// The text of a time.
#[tactic(auto, using(der_values::proofs::OctetsLaws::Room::puts_tail))]
fn time_octets(room: &mut [u8; 128], year_digits: usize, value: ASN1DateTime) -> &[u8]
    requires { year_digits ≤ 4 }
    ensures { result.now ≡ text_from_year year_digits value }
{
    let begin = 128 - time_length(year_digits, value);
    write_time(room, 128, year_digits, value);
    &room[begin..]
}

/// Turns each bit.
fn turn_bits(octets: &mut [u8])
    ensures { octets.new ≡ map (λ b. 255 - b) octets.old }
{
    for octet in octets.iter_mut() {
        *octet = 255 - *octet;
    }
}

/// The octets of a number without leading zeros.
fn fewest_octets(given: &[u8]) -> &[u8]
    ensures { result.now ≡ octets (number given.now) }
{
    let mut left = given;
    while let [first, rest @ ..] = left {
        if *first != 0 {
            return left;
        }
        left = rest;
    }
    left
}

/// Whether a leading 00 octet is needed: there are no octets, or their first bit would make the number negative
/// (8.3.3).
fn needs_zero(octets: &[u8]) -> bool
    ensures { result ≡ needs_zero octets.now }
{
    match octets {
        [] => true,
        [first, ..] => *first > 127,
    }
}

/// An octet whose last bits are set to 0.
pub(crate) fn clear_bits(octet: u8, count: u8) -> u8
    requires { count ≤ 7 }
    ensures { result ≡ octet - octet % 2 ^ count }
{
    octet - octet % (1 << count)
}
