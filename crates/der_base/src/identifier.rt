//! Identifier octets: a class, the constructed bit and a tag number (X.690 8.1.2).
ghost use Rattle.std.specs.Prelude.{◌≡◌, ◌+◌, ◌/◌, ◌^◌, ◌<◌, ◌≤◌, ◌∷◌, ◌++◌};
ghost use Rattle.der_base.specs.Answer.{MatchAnswer};
ghost use Rattle.der_base.specs.Fault.{HasBadTag};
ghost use Rattle.der_base.specs.Inner.Identifier.{ReadsIdentifier, IsCutIdentifier};
ghost use Rattle.der_base.specs.Octets.{class_number, leading_bits, groups};
ghost use Rattle.der_base.specs.Refusal.{invalid_tag};

use crate::error::{BerError, Err, IResult, Needed};
use crate::header::{Class, Tag};

/// Identifier octets as they were read (X.690 8.1.2).
#[derive(Clone, Copy)]
pub struct Identifier<'a> {
    pub class: Class,
    pub constructed: bool,
    pub tag: Tag,
    /// The octets.
    pub octets: &'a [u8],
}

/// Reads the identifier octets at the start of the input. InvalidTag as soon as the octets break a rule or show a tag
/// number above 2^32-1. Incomplete of one octet if the input ends before that.
#[inline]
pub fn read_identifier(i: &[u8]) -> IResult<&[u8], Identifier<'_>, BerError>
    ensures { MatchAnswer result
        (λ x. ReadsIdentifier i.now x.1 x.0.now)
        (λ e. HasBadTag i.now × (e ≡ invalid_tag))
        (λ n. (n ≡ 1) × IsCutIdentifier i.now)
        ⊥ }
{
    let Some((first, following)) = i.split_first() else {
        return Err(Err::Incomplete(Needed::Size(1)));
    };
    let (class, constructed, low_bits) = first_octet(*first);
    if low_bits < 31 {
        let tag = Tag(u32::from(low_bits));
        let octets = &i[..1];
        return Ok((
            following,
            Identifier {
                class,
                constructed,
                tag,
                octets,
            },
        ));
    }
    let (rest, tag) = read_long_form(following)?;
    let octets = &i[..i.len() - rest.len()];
    Ok((
        rest,
        Identifier {
            class,
            constructed,
            tag,
            octets,
        },
    ))
}

/// The class, the constructed bit, and the low five bits: a tag number below 31, or 31 for the long form (8.1.2.2 to
/// 8.1.2.5).
#[inline]
pub fn first_octet(first: u8) -> (Class, bool, u8)
    ensures octet { first ≡ leading_bits result.0 result.1 + result.2 }
    ensures low { result.2 < 32 }
{
    (class_of(first), first / 32 % 2 == 1, first % 32)
}

/// The class in a first identifier octet (8.1.2.2).
#[inline]
pub fn class_of(first: u8) -> Class
    ensures { class_number result ≡ first / 64 }
{
    match first / 64 {
        0 => Class::Universal,
        1 => Class::Application,
        2 => Class::ContextSpecific,
        _ => Class::Private,
    }
}

/// The first identifier octet without the tag number: the class and the constructed bit (8.1.2.2, 8.1.2.5).
#[inline]
pub fn leading_octet(class: Class, constructed: bool) -> u8
    ensures bits { result ≡ leading_bits class constructed }
    ensures small { result ≤ 224 }
{
    let class_bits = match class {
        Class::Universal => 0,
        Class::Application => 0x40,
        Class::ContextSpecific => 0x80,
        Class::Private => 0xc0,
    };
    if constructed {
        class_bits + 0x20
    } else {
        class_bits
    }
}

/// Reads the tag number after the first octet of the long form (8.1.2.4.2). The contract takes 1f as that octet. Any
/// other first octet of the long form gives the same result.
#[inline(never)]
fn read_long_form(i: &[u8]) -> IResult<&[u8], Tag, BerError>
    ensures { MatchAnswer result
        (λ x. (i.now ≡ groups x.1.0 ++ x.0.now) × (31 ≤ x.1.0) × (x.1.0 < 2 ^ 32))
        (λ e. HasBadTag (31 ∷ i.now) × (e ≡ invalid_tag))
        (λ n. (n ≡ 1) × IsCutIdentifier (31 ∷ i.now))
        ⊥ }
{
    let Some((first, _)) = i.split_first() else {
        return Err(Err::Incomplete(Needed::Size(1)));
    };
    // A number below 31, or a leading group of zeros.
    if *first < 31 || *first == 128 {
        return Err(Err::Error(BerError::InvalidTag));
    }
    let mut number: u32 = 0;
    for (index, octet) in i.iter().enumerate() {
        // One more group makes it too large.
        if number > u32::MAX / 128 {
            return Err(Err::Error(BerError::InvalidTag));
        }
        number = number * 128 + u32::from(*octet % 128);
        if *octet < 128 {
            return Ok((&i[index + 1..], Tag(number)));
        }
    }
    Err(Err::Incomplete(Needed::Size(1)))
}
