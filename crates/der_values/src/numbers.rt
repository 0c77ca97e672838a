//! INTEGER and ENUMERATED (X.690 8.3, 8.4).
ghost use Rattle.std.specs.Prelude.{◌≡◌, pos};
ghost use Rattle.der_base.specs.Numbers.{signed, unsigned};
ghost use Rattle.der_values.specs.Kinds.{Decodes, checked, enumerated_numbers, integers, numbers};

use der_base::error::BerError;
use der_base::integer::{self, check_fewest_octets};
use der_base::rules::Rules;

/// The octets of an INTEGER, in two's complement (X.690 8.3). By DER they must be the fewest (8.3.2); the errors are
/// the constraints IntegerEmpty, IntegerLeadingZeroes and IntegerLeadingFF.
pub fn read_integer(rules: Rules, octets: &[u8]) -> Result<&[u8], BerError>
    ensures { Decodes (λ v. v.now) (integers rules) octets.now result }
{
    check_octets(rules, octets)?;
    Ok(octets)
}

/// Checks, by DER, that the octets are the fewest for their number.
#[inline(always)]
fn check_octets(rules: Rules, octets: &[u8]) -> Result<(), BerError>
    ensures { Decodes (λ v. v) (checked (integers rules)) octets.now result }
{
    match rules {
        Rules::Ber => Ok(()),
        Rules::Der => check_fewest_octets(octets),
    }
}

/// The number of an INTEGER from -2^63 to 2^63-1. Errors: those of `read_integer`, then IntegerTooLarge.
pub fn read_i64(rules: Rules, octets: &[u8]) -> Result<i64, BerError>
    ensures { Decodes (λ v. v) (numbers rules (signed 64)) octets.now result }
{
    integer::read_i64(read_integer(rules, octets)?)
}

/// The number of an INTEGER from -2^31 to 2^31-1, as `read_i64`.
pub fn read_i32(rules: Rules, octets: &[u8]) -> Result<i32, BerError>
    ensures { Decodes (λ v. v) (numbers rules (signed 32)) octets.now result }
{
    integer::read_i32(read_integer(rules, octets)?)
}

/// The number of an INTEGER from 0 to 2^64-1. Errors: those of `read_integer`, then IntegerNegative for a number below,
/// IntegerTooLarge for one above.
pub fn read_u64(rules: Rules, octets: &[u8]) -> Result<u64, BerError>
    ensures { Decodes pos (numbers rules (unsigned 64)) octets.now result }
{
    integer::read_u64(read_integer(rules, octets)?)
}

/// The number of an INTEGER from 0 to 2^32-1, as `read_u64`.
pub fn read_u32(rules: Rules, octets: &[u8]) -> Result<u32, BerError>
    ensures { Decodes pos (numbers rules (unsigned 32)) octets.now result }
{
    integer::read_u32(read_integer(rules, octets)?)
}

/// The number of an ENUMERATED (8.4) from 0 to 2^64-1, with the errors of `read_u64`.
pub fn read_enumerated(rules: Rules, octets: &[u8]) -> Result<u64, BerError>
    ensures { Decodes (λ v. v) (enumerated_numbers rules) octets.now result }
{
    check_octets(rules, octets)?;
    integer::read_u64(octets)
}
