//! Signed certificate timestamps: a log's promise to publish a certificate (RFC 6962 3.3).
ghost use Rattle.std.specs.Prelude.{◌≡◌, ◌<◌, ◌^◌, ◌↔◌, IsTrue, MatchOption, [], length};
ghost use Rattle.std.specs.Iterator.{at_most};
ghost use Rattle.der_base.specs.declared.rules.Rules.{Rules};
ghost use Rattle.der_cursor.specs.Formats.{Never, Only, ReadsContent, ReadsField, ReadsInput, ReadsWhole, Required};
ghost use Rattle.der_extensions.specs.Lists.{BeginsWith, BeginsWithNone, IsListOf, YieldsNext};
ghost use Rattle.der_extensions.specs.WebExtensions.{TimestampList, Timestamps, Vector, timestamps_left};
ghost use Rattle.der_extensions.specs.WebExtensions.{timestamps_octets};

use der_base::error::BerError;
use der_base::header::{Class, Tag};
use der_cursor::{Cursor, ReadError};

/// At least one timestamp with the signature of a log. They are kept as their checked octets.
#[derive(Clone, Copy)]
pub struct SignedCertificateTimestamps<'a> {
    /// The timestamps, each after its number of octets.
    pub octets: &'a [u8],
}

/// An iterator over the octets of each timestamp, in order (RFC 6962 3.2). It ends when no timestamp is next.
#[derive(Clone, Copy)]
pub struct TimestampIter<'a> {
    left: &'a [u8],
}

impl<'a> SignedCertificateTimestamps<'a> {
    /// An iterator over the octets of each timestamp.
    pub fn iter(&self) -> TimestampIter<'a>
        ensures octets { timestamps_left result ≡ self.now.octets.now }
        ensures few { length (timestamps_left result) < 2 ^ 64 }
    {
        // Callers that count need to know that there are fewer than 2^64.
        let _count = self.octets.len();
        TimestampIter { left: self.octets }
    }
}

impl<'a> Iterator for TimestampIter<'a> {
    type Item = &'a [u8];

    ghost next_gives = { YieldsNext timestamps_left (λ x. x.now) Vector };

    ghost remaining = { λ s. at_most (length (timestamps_left s)) };

    fn next(&mut self) -> Option<&'a [u8]> {
        let (timestamp, left) = split_vector(self.left)?;
        self.left = left;
        Some(timestamp)
    }
}

/// Reads the value of an SCT list by DER: an OCTET STRING with at least one timestamp. Trailing data is an error. The
/// content of a timestamp isn't checked.
pub fn read_signed_certificate_timestamps(
    octets: &[u8],
) -> Result<SignedCertificateTimestamps<'_>, ReadError<BerError>>
    ensures { ReadsInput Rules.Der Timestamps timestamps_octets Never octets.now result }
{
    match read_whole_list(octets) {
        Ok(list) => Ok(list),
        Err(e) => Err(e.of_element(
            Cursor::new(octets),
            Class::Universal,
            false,
            Tag::OctetString,
        )),
    }
}

fn read_whole_list(octets: &[u8]) -> Result<SignedCertificateTimestamps<'_>, ReadError<BerError>>
    ensures { ReadsWhole (Only (Required Timestamps) Rules.Der octets.now) timestamps_octets Never result }
{
    let mut input = Cursor::new(octets);
    let list = read_timestamps(&mut input)?;
    input.end()?;
    Ok(list)
}

fn read_timestamps<'a>(
    input: &mut Cursor<'a>,
) -> Result<SignedCertificateTimestamps<'a>, ReadError<BerError>>
    ensures { ReadsField (Required Timestamps) timestamps_octets Never input.old result input.new }
{
    let content = input.open_octet_string()?;
    read_content(content)
}

/// Reads the content octets of the OCTET STRING.
fn read_content<'a>(
    content: Cursor<'a>,
) -> Result<SignedCertificateTimestamps<'a>, ReadError<BerError>>
    ensures { ReadsContent TimestampList timestamps_octets Never content.entry result }
{
    let Some(octets) = only_vector(content.remaining()) else {
        return Err(content.refuse(BerError::BerValueError));
    };
    if !are_vectors(octets) {
        return Err(content.refuse(BerError::BerValueError));
    }
    Ok(SignedCertificateTimestamps { octets })
}

/// The octets after their number. None if the number is wrong or more octets follow.
fn only_vector(octets: &[u8]) -> Option<&[u8]>
    ensures { MatchOption result ((v : _) → ¬ Vector Rules.Der octets.now v [])
        (λ x. BeginsWith Vector octets.now x.now []) }
{
    let Some((vector, rest)) = split_vector(octets) else {
        return None;
    };
    if !rest.is_empty() {
        return None;
    }
    Some(vector)
}

/// Whether the octets are timestamps, each after its number of octets.
fn are_vectors(octets: &[u8]) -> bool
    ensures { IsTrue result ↔ IsListOf Vector Rules.Der octets.now }
{
    let mut left = octets;
    while !left.is_empty() {
        let Some((_, rest)) = split_vector(left) else {
            return false;
        };
        left = rest;
    }
    true
}

/// The octets of the first timestamp, and what follows it. None if the octets don't begin with a timestamp.
fn split_vector(octets: &[u8]) -> Option<(&[u8], &[u8])>
    ensures { MatchOption result (BeginsWithNone Vector octets.now)
        (λ x. BeginsWith Vector octets.now x.0.now x.1.now) }
{
    let [high, low, following @ ..] = octets else {
        return None;
    };
    let count = usize::from(*high) * 256 + usize::from(*low);
    if count == 0 {
        return None;
    }
    following.split_at_checked(count)
}
