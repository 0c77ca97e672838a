//! Readers of the number of an INTEGER (X.690 8.3), of any class. They don't allocate.
ghost use Rattle.std.specs.Prelude.{◌≡◌, MatchResult, false, pos};
ghost use Rattle.der_base.specs.Answer.{MatchAnswer};
ghost use Rattle.der_base.specs.Any.{AnyLacks, DerAnyLacks};
ghost use Rattle.der_base.specs.Header.{is_constructed, number_of};
ghost use Rattle.der_base.specs.Inner.Integers.{ReadsBerInteger, BerIntegerRefuses};
ghost use Rattle.der_base.specs.Inner.Integers.{ReadsDerInteger, DerIntegerRefuses, der_header_tests};
ghost use Rattle.der_base.specs.LeafRefusal.{IsFirstRefusal};
ghost use Rattle.der_base.specs.Numbers.{AnswersBerNumber, AnswersDerNumber, signed, unsigned};
ghost use Rattle.der_base.specs.Refusal.{refusal};

use der_base::any::Any;
use der_base::error::{BerError, DerConstraint, Err, IResult};
use der_base::header::{Header, Tag};
use der_base::integer::{check_fewest_octets, is_negative, read_i32, read_i64, read_u32, read_u64};

/// The content octets of an INTEGER by BER.
fn read_ber_integer(i: &[u8]) -> IResult<&[u8], &[u8], BerError>
    ensures { MatchAnswer result
        (λ x. ReadsBerInteger i.now x.1.now x.0.now)
        (BerIntegerRefuses i.now)
        (AnyLacks i.now)
        ⊥ }
{
    let (rest, any) = Any::from_ber(i)?;
    any.header.assert_tag(Tag::Integer)?;
    any.header.assert_primitive()?;
    Ok((rest, any.bytes))
}

/// Checks, by DER, that a header is that of a primitive INTEGER.
fn check_header(header: &Header<'_>) -> Result<(), BerError>
    ensures { MatchResult result
        (λ _. (number_of header.now ≡ 2) × (is_constructed header.now ≡ false))
        (λ e. IsFirstRefusal (der_header_tests (is_constructed header.now) (number_of header.now)) (refusal e)) }
{
    header.assert_tag(Tag::Integer)?;
    if header.constructed() {
        return Err(BerError::DerConstraintFailed(DerConstraint::Constructed));
    }
    Ok(())
}

/// The content octets of an INTEGER in its fewest octets.
fn read_der_integer(i: &[u8]) -> IResult<&[u8], &[u8], BerError>
    ensures { MatchAnswer result
        (λ x. ReadsDerInteger (signed 64) i.now x.1.now x.0.now)
        (DerIntegerRefuses (signed 64) i.now)
        (DerAnyLacks i.now)
        ⊥ }
{
    let (rest, any) = Any::from_der(i)?;
    check_header(&any.header)?;
    check_fewest_octets(any.bytes)?;
    Ok((rest, any.bytes))
}

/// The content octets of an INTEGER in its fewest octets that isn't negative.
fn read_der_natural(i: &[u8]) -> IResult<&[u8], &[u8], BerError>
    ensures { MatchAnswer result
        (λ x. ReadsDerInteger (unsigned 64) i.now x.1.now x.0.now)
        (DerIntegerRefuses (unsigned 64) i.now)
        (DerAnyLacks i.now)
        ⊥ }
{
    let (rest, any) = Any::from_der(i)?;
    check_header(&any.header)?;
    if is_negative(any.bytes) {
        return Err(Err::Error(BerError::IntegerNegative));
    }
    check_fewest_octets(any.bytes)?;
    Ok((rest, any.bytes))
}

/// Reads an INTEGER from -2^63 to 2^63-1 by BER, and returns the rest of the input with it. It may have more octets
/// than its number needs. No octets are 0.
///
/// Errors, in this order: those of `Any::from_ber`; UnexpectedTag for another tag number; ConstructUnexpected;
/// IntegerTooLarge. Incomplete as for `Any::from_ber`.
pub fn parse_ber_i64(i: &[u8]) -> IResult<&[u8], i64, BerError>
    ensures { AnswersBerNumber (λ v. v) (signed 64) i.now result }
{
    let (rest, octets) = read_ber_integer(i)?;
    let n = read_i64(octets)?;
    Ok((rest, n))
}

/// Reads an INTEGER from -2^31 to 2^31-1, as `parse_ber_i64`.
pub fn parse_ber_i32(i: &[u8]) -> IResult<&[u8], i32, BerError>
    ensures { AnswersBerNumber (λ v. v) (signed 32) i.now result }
{
    let (rest, octets) = read_ber_integer(i)?;
    let n = read_i32(octets)?;
    Ok((rest, n))
}

/// Reads an INTEGER from 0 to 2^64-1, as `parse_ber_i64`, with IntegerNegative for a negative number before
/// IntegerTooLarge.
pub fn parse_ber_u64(i: &[u8]) -> IResult<&[u8], u64, BerError>
    ensures { AnswersBerNumber pos (unsigned 64) i.now result }
{
    let (rest, octets) = read_ber_integer(i)?;
    let n = read_u64(octets)?;
    Ok((rest, n))
}

/// Reads an INTEGER from 0 to 2^32-1, as `parse_ber_u64`.
pub fn parse_ber_u32(i: &[u8]) -> IResult<&[u8], u32, BerError>
    ensures { AnswersBerNumber pos (unsigned 32) i.now result }
{
    let (rest, octets) = read_ber_integer(i)?;
    let n = read_u32(octets)?;
    Ok((rest, n))
}

/// Reads an INTEGER from -2^63 to 2^63-1 by DER, and returns the rest of the input with it.
///
/// Errors, in this order: those of `Any::from_der`; UnexpectedTag for another tag number; the constraints Constructed,
/// IntegerEmpty, IntegerLeadingZeroes, IntegerLeadingFF; IntegerTooLarge. Incomplete as for `Any::from_der`.
pub fn parse_der_i64(i: &[u8]) -> IResult<&[u8], i64, BerError>
    ensures { AnswersDerNumber (λ v. v) (signed 64) i.now result }
{
    let (rest, octets) = read_der_integer(i)?;
    let n = read_i64(octets)?;
    Ok((rest, n))
}

/// Reads an INTEGER from -2^31 to 2^31-1, as `parse_der_i64`.
pub fn parse_der_i32(i: &[u8]) -> IResult<&[u8], i32, BerError>
    ensures { AnswersDerNumber (λ v. v) (signed 32) i.now result }
{
    let (rest, octets) = read_der_integer(i)?;
    let n = read_i32(octets)?;
    Ok((rest, n))
}

/// Reads an INTEGER from 0 to 2^64-1, as `parse_der_i64`. A negative one is IntegerNegative, after
/// Constructed and before the other constraints.
pub fn parse_der_u64(i: &[u8]) -> IResult<&[u8], u64, BerError>
    ensures { AnswersDerNumber pos (unsigned 64) i.now result }
{
    let (rest, octets) = read_der_natural(i)?;
    let n = read_u64(octets)?;
    Ok((rest, n))
}

/// Reads an INTEGER from 0 to 2^32-1, as `parse_der_u64`.
pub fn parse_der_u32(i: &[u8]) -> IResult<&[u8], u32, BerError>
    ensures { AnswersDerNumber pos (unsigned 32) i.now result }
{
    let (rest, octets) = read_der_natural(i)?;
    let n = read_u32(octets)?;
    Ok((rest, n))
}
