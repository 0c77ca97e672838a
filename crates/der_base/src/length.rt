//! Length octets, read by DER and by BER (X.690 8.1.3 and 10.1).
ghost use Rattle.std.specs.Prelude.{◌≡◌, ◌+◌, ◌<◌, ◌≤◌, ◌^◌, ◌∷◌, ◌++◌, length};
ghost use Rattle.der_base.specs.Answer.{MatchAnswer};
ghost use Rattle.der_base.specs.Fault.{BerLengthRefuses, DerLengthRefuses};
ghost use Rattle.der_base.specs.LengthOctets.{BeginsWithDerLength, BeginsWithLength, LengthLacks, Announces};
ghost use Rattle.der_base.specs.Octets.{number};
ghost use Rattle.der_base.specs.Refusal.{invalid_length};

use crate::error::{BerError, DerConstraint, Err, IResult, Needed};
use crate::header::Length;
use crate::integer::number_that_fits;

/// The least length that needs more than one octet (X.690 8.1.3.4).
const LEAST_LONG: usize = 128;

/// Reads a length as DER writes it, definite and in the fewest octets (X.690 10.1). Returns what follows it, and the
/// number of content octets.
///
/// Errors: InvalidLength for `ff` (8.1.3.5 c), and for a number above 2^64-1 once all its octets are there; the DER
/// constraint IndefiniteLength; then the DER constraint LengthNotMinimal. Incomplete of 1 if there is no octet, else of
/// the octets that the first one announces and that are missing.
#[inline]
pub fn read_der_length(s: &[u8]) -> IResult<&[u8], usize, BerError>
    ensures { MatchAnswer result
        (λ x. BeginsWithDerLength s.now x.1 x.0.now)
        (DerLengthRefuses s.now)
        (LengthLacks s.now)
        ⊥ }
{
    let Some((first, behind)) = s.split_first() else {
        return Err(Err::Incomplete(Needed::Size(1)));
    };
    if *first < 128 {
        return Ok((behind, *first as usize));
    }
    read_long_der_length(*first, behind)
}

/// Reads a length as BER allows it (X.690 8.1.3), after a constructed or primitive identifier. Returns what follows it,
/// and the length.
///
/// Errors: InvalidLength as by DER; ConstructExpected for the indefinite form after a primitive identifier (8.1.3.2).
/// Incomplete as by DER.
#[inline]
pub fn read_ber_length(constructed: bool, s: &[u8]) -> IResult<&[u8], Length, BerError>
    ensures { MatchAnswer result
        (λ x. BeginsWithLength s.now constructed x.1 x.0.now)
        (BerLengthRefuses constructed s.now)
        (LengthLacks s.now)
        ⊥ }
{
    let Some((first, behind)) = s.split_first() else {
        return Err(Err::Incomplete(Needed::Size(1)));
    };
    if *first < 128 {
        return Ok((behind, Length::Definite(*first as usize)));
    }
    read_long_ber_length(constructed, *first, behind)
}

/// `read_der_length` after a first octet of at least 128.
fn read_long_der_length(first: u8, behind: &[u8]) -> IResult<&[u8], usize, BerError>
    requires { 128 ≤ first }
    ensures { MatchAnswer result
        (λ x. BeginsWithDerLength (first ∷ behind.now) x.1 x.0.now)
        (DerLengthRefuses (first ∷ behind.now))
        (LengthLacks (first ∷ behind.now))
        ⊥ }
{
    if first == 128 {
        return Err(Err::Error(BerError::DerConstraintFailed(DerConstraint::IndefiniteLength)));
    }
    let (rest, octets) = announced_octets(first, behind)?;
    let Some(n) = number_that_fits(octets) else {
        return Err(Err::Error(BerError::InvalidLength));
    };
    if n < LEAST_LONG || octets[0] == 0 {
        return Err(Err::Error(BerError::DerConstraintFailed(DerConstraint::LengthNotMinimal)));
    }
    Ok((rest, n))
}

/// `read_ber_length` after a first octet of at least 128.
fn read_long_ber_length(
    constructed: bool,
    first: u8,
    behind: &[u8],
) -> IResult<&[u8], Length, BerError>
    requires { 128 ≤ first }
    ensures { MatchAnswer result
        (λ x. BeginsWithLength (first ∷ behind.now) constructed x.1 x.0.now)
        (BerLengthRefuses constructed (first ∷ behind.now))
        (LengthLacks (first ∷ behind.now))
        ⊥ }
{
    if first == 128 {
        if constructed {
            return Ok((behind, Length::Indefinite));
        }
        return Err(Err::Error(BerError::ConstructExpected));
    }
    let (rest, octets) = announced_octets(first, behind)?;
    let Some(n) = number_that_fits(octets) else {
        return Err(Err::Error(BerError::InvalidLength));
    };
    Ok((rest, Length::Definite(n)))
}

/// Takes the octets of the length that a first octet above 128 announces. Returns what follows them, and these octets.
fn announced_octets(first: u8, behind: &[u8]) -> IResult<&[u8], &[u8], BerError>
    requires { 128 < first }
    ensures { MatchAnswer result
        (λ x. Announces first behind.now x.1.now x.0.now)
        (λ e. (first ≡ 255) × (e ≡ invalid_length))
        (LengthLacks (first ∷ behind.now))
        ⊥ }
{
    if first == 255 {
        return Err(Err::Error(BerError::InvalidLength));
    }
    let count = (first - 128) as usize;
    if behind.len() < count {
        return Err(Err::Incomplete(Needed::Size(count - behind.len())));
    }
    let (octets, rest) = behind.split_at(count);
    Ok((rest, octets))
}
