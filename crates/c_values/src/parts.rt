//! Parts of certificates for C.
ghost use Rattle.std.specs.Prelude.{◌≡◌, Some};
ghost use Rattle.std.specs.Option.{option_map};
ghost use Rattle.c_values.specs.Parts.{algorithm_in, bits_in, bits_numbers, moment_fields, no_time};
ghost use Rattle.c_values.specs.Parts.{optional_moment_fields, version_number};
ghost use Rattle.der_values.specs.Kinds.{borrowed_octets};
ghost use Rattle.x509.specs.Certificates.{algorithm_of, bits_of};

use crate::time::{DmTime, time_fields};
use der_values::{BitString, ObjectIdentifier};
use x509::{AlgorithmIdentifier, Time, Version};

/// An algorithm (RFC 5280 4.1.1.2).
#[repr(C)]
#[derive(Clone, Copy)]
pub struct DmAlgorithm<'a> {
    /// The content octets of its identifier.
    pub identifier: &'a [u8],
    /// The encoding of the parameters; empty if there are none.
    pub parameters: &'a [u8],
}

/// A BIT STRING.
#[repr(C)]
#[derive(Clone, Copy)]
pub struct DmBits<'a> {
    /// The octets, with the unused bits.
    pub octets: &'a [u8],
    /// The number of unused bits in the last octet.
    pub unused: u32,
    /// 1 if there is one. If 0, the other fields are empty and 0.
    pub is_present: u32,
}

/// A time, with the type of its encoding (RFC 5280 4.1.2.5).
#[repr(C)]
#[derive(Clone, Copy)]
pub struct DmMoment {
    /// The time.
    pub time: DmTime,
    /// The tag number of its type, 23 or 24. If 0, there is no time, and all fields are 0.
    pub number: u32,
}

/// The C struct of an algorithm.
pub fn algorithm<'a>(algorithm: &AlgorithmIdentifier<'a>) -> DmAlgorithm<'a>
    ensures { algorithm_in result ≡ algorithm_of algorithm.now }
{
    DmAlgorithm {
        identifier: identifier_octets(algorithm.algorithm),
        parameters: algorithm.parameters,
    }
}

/// The content octets of an OBJECT IDENTIFIER; empty for a RELATIVE-OID.
pub fn identifier_octets<'a>(identifier: ObjectIdentifier<'a>) -> &'a [u8]
    ensures { result.now ≡ borrowed_octets identifier.entry }
{
    if identifier.is_relative() {
        return &[];
    }
    identifier.as_bytes()
}

/// The C struct of bits.
pub fn bits<'a>(bits: BitString<'a>) -> DmBits<'a>
    ensures { bits_in result ≡ bits_numbers (Some (bits_of bits.entry)) }
{
    DmBits {
        octets: bits.octets,
        unused: bits.unused.into(),
        is_present: 1,
    }
}

/// The C struct of optional bits.
pub fn optional_bits<'a>(found: Option<BitString<'a>>) -> DmBits<'a>
    ensures { bits_in result ≡ bits_numbers (option_map bits_of found.entry) }
{
    match found {
        Some(found) => bits(found),
        None => DmBits {
            octets: &[],
            unused: 0,
            is_present: 0,
        },
    }
}

/// The C struct of a time.
pub fn moment(time: Time) -> DmMoment
    ensures { result ≡ moment_fields time }
{
    match time {
        Time::Utc(moment) => DmMoment {
            time: time_fields(moment),
            number: 23,
        },
        Time::Generalized(moment) => DmMoment {
            time: time_fields(moment),
            number: 24,
        },
    }
}

/// The C struct of an optional time.
pub fn optional_moment(time: Option<Time>) -> DmMoment
    ensures { result ≡ optional_moment_fields time }
{
    match time {
        Some(time) => moment(time),
        None => DmMoment {
            time: no_time(),
            number: 0,
        },
    }
}

/// The struct of an absent time.
fn no_time() -> DmTime
    ensures { result ≡ no_time }
{
    DmTime {
        year: 0,
        nanosecond: 0,
        month: 0,
        day: 0,
        hour: 0,
        minute: 0,
        second: 0,
        zone: 0,
        zone_hours: 0,
        zone_minutes: 0,
    }
}

/// The number of a version: 1, 2 or 3.
pub fn version_number(version: Version) -> u32
    ensures { result ≡ version_number version }
{
    match version {
        Version::V1 => 1,
        Version::V2 => 2,
        Version::V3 => 3,
    }
}
