//! Unsigned numbers in octets, and two's complement numbers in content octets (X.690 8.3).
ghost use Rattle.std.specs.Prelude.{◌≡◌, ◌<◌, ◌<ℤ◌, ◌≤ℤ◌, ◌^◌, MatchResult, false, neg_ℤ, pos, true};
ghost use Rattle.std.specs.Option.{SomeIff};
ghost use Rattle.der_base.specs.Leaf.{IsMinimalInteger};
ghost use Rattle.der_base.specs.LeafRefusal.{IsFirstRefusal, integer_tests, range_tests};
ghost use Rattle.der_base.specs.Numbers.{AnswersSigned, AnswersUnsigned};
ghost use Rattle.der_base.specs.Octets.{integer_value, number};
ghost use Rattle.der_base.specs.Refusal.{refusal};
ghost use Rattle.der_base.specs.Tree.{bit_string, integer};

use crate::error::{BerError, DerConstraint};

/// The number of content octets in two's complement, from -2^63 to 2^63-1. No octets are 0. IntegerTooLarge for any
/// other number.
pub fn read_i64(octets: &[u8]) -> Result<i64, BerError>
    ensures { AnswersSigned 64 (integer octets.now) result }
{
    let negative = is_negative(octets);
    let fits = if negative {
        negative_that_fits(octets)
    } else {
        natural_that_fits(octets)
    };
    fits.ok_or(BerError::IntegerTooLarge)
}

/// As `read_i64`, from -2^31 to 2^31-1.
pub fn read_i32(octets: &[u8]) -> Result<i32, BerError>
    ensures { AnswersSigned 32 (integer octets.now) result }
{
    i32::try_from(read_i64(octets)?).map_err(|_| BerError::IntegerTooLarge)
}

/// The number of content octets in two's complement, from 0 to 2^64-1. No octets are 0. IntegerNegative for a number
/// below, IntegerTooLarge for one above.
pub fn read_u64(octets: &[u8]) -> Result<u64, BerError>
    ensures range { MatchResult result
        (λ n. (n < 2 ^ 64) × (integer_value octets.now ≡ pos n))
        (λ e. IsFirstRefusal (range_tests octets.now) (refusal e)) }
    ensures number { AnswersUnsigned 64 (integer octets.now) result }
{
    if is_negative(octets) {
        return Err(BerError::IntegerNegative);
    }
    match number_that_fits(octets) {
        Some(n) => Ok(n as u64),
        None => Err(BerError::IntegerTooLarge),
    }
}

/// As `read_u64`, from 0 to 2^32-1.
pub fn read_u32(octets: &[u8]) -> Result<u32, BerError>
    ensures { AnswersUnsigned 32 (integer octets.now) result }
{
    u32::try_from(read_u64(octets)?).map_err(|_| BerError::IntegerTooLarge)
}

/// The number in the used bits of a BIT STRING, the highest first (8.6). The last `unused` bits don't count.
/// InvalidLength if there are fewer bits than that. IntegerTooLarge if more than 8 octets are used.
pub fn read_used_bits(unused: u8, octets: &[u8]) -> Result<u64, BerError>
    ensures { AnswersUnsigned 64 (bit_string unused octets.now) result }
{
    if octets.len() < usize::from(unused.div_ceil(8)) {
        return Err(BerError::InvalidLength);
    }
    let used = &octets[..octets.len() - usize::from(unused / 8)];
    match number_that_fits(used) {
        Some(n) if used.len() <= 8 => Ok(n as u64 >> (unused % 8)),
        _ => Err(BerError::IntegerTooLarge),
    }
}

/// Whether the number of content octets is below 0.
#[inline]
pub fn is_negative(octets: &[u8]) -> bool
    ensures negative { result ≡ true → integer_value octets.now <ℤ pos 0 }
    ensures natural { result ≡ false → integer_value octets.now ≡ pos (number octets.now) }
{
    match octets {
        [] => false,
        [first, ..] => *first >= 0x80,
    }
}

/// Ok if content octets are the fewest for their number (8.3.2). IntegerEmpty if there are none, IntegerLeadingZeroes
/// if the first nine bits are 0, IntegerLeadingFF if they are 1.
#[inline(always)]
pub fn check_fewest_octets(octets: &[u8]) -> Result<(), BerError>
    ensures { MatchResult result
        (λ _. IsMinimalInteger octets.now)
        (λ e. IsFirstRefusal (integer_tests octets.now) (refusal e)) }
{
    match octets {
        [] => Err(BerError::DerConstraintFailed(DerConstraint::IntegerEmpty)),
        [0x00, second, ..] if *second < 0x80 => Err(BerError::DerConstraintFailed(
            DerConstraint::IntegerLeadingZeroes,
        )),
        [0xff, second, ..] if *second >= 0x80 => Err(BerError::DerConstraintFailed(
            DerConstraint::IntegerLeadingFF,
        )),
        _ => Ok(()),
    }
}

/// The unsigned number in octets, if it is below 2^64. Leading zeros are allowed.
#[inline]
pub(crate) fn number_that_fits(octets: &[u8]) -> Option<usize>
    ensures { SomeIff result (number octets.now < 2 ^ 64) (number octets.now) }
{
    let mut n: usize = 0;
    for b in octets {
        if n >= 1 << 56 {
            return None;
        }
        n = n * 256 + *b as usize;
    }
    Some(n)
}

/// The number in content octets that isn't negative, if it is below 2^63.
fn natural_that_fits(octets: &[u8]) -> Option<i64>
    requires { integer_value octets.now ≡ pos (number octets.now) }
    ensures { SomeIff result (integer_value octets.now <ℤ pos (2 ^ 63)) (integer_value octets.now) }
{
    i64::try_from(number_that_fits(octets)?).ok()
}

/// The negative number in content octets, if it is at least -2^63. If the octets' complements are the unsigned number
/// n, it is -1 - n.
fn negative_that_fits(octets: &[u8]) -> Option<i64>
    requires { integer_value octets.now <ℤ pos 0 }
    ensures { SomeIff result (neg_ℤ (pos (2 ^ 63)) ≤ℤ integer_value octets.now) (integer_value octets.now) }
{
    let mut n: usize = 0;
    for b in octets {
        if n >= 1 << 55 {
            return None;
        }
        n = n * 256 + usize::from(255 - *b);
    }
    Some(-1 - n as i64)
}
