//! BIT STRING (X.690 8.6, 11.2).
ghost use Rattle.std.specs.Prelude.{◌≡◌, ◌≤◌, ◌↔◌, [], ◌∷◌, IsTrue};
ghost use Rattle.der_base.specs.Leaf.{HasZeroUnusedBits};
ghost use Rattle.der_base.specs.LeafRefusal.{IsFirstRefusal};
ghost use Rattle.der_base.specs.Refusal.{refusal};
ghost use Rattle.der_values.specs.Kinds.{Decodes, bit_strings, checked, is_bit_set, leaf_tests};

use der_base::error::{BerError, DerConstraint};
use der_base::header::Tag;
use der_base::rules::Rules;

/// The bits of a BIT STRING (X.690 8.6).
#[derive(Clone, Copy, Debug, PartialEq)]
pub struct BitString<'a> {
    /// How many of the last bits are unused.
    pub unused: u8,
    /// The octets, including the unused bits.
    pub octets: &'a [u8],
}

impl BitString<'_> {
    /// Whether a bit is 1. Bit 0 is the highest bit of the first octet. A bit past the end isn't 1.
    #[tactic(auto, using(std::proofs::lemmas::Nat::Bits::shr_and_one))]
    pub fn is_set(&self, number: usize) -> bool
        ensures { result ≡ is_bit_set number self.now.octets.now }
    {
        match self.octets.get(number / 8) {
            Some(octet) => (*octet >> (7 - number % 8)) & 1 == 1,
            None => false,
        }
    }
}

/// Reads a BIT STRING. Its first octet is the number of unused bits (8.6.2).
///
/// Errors by BER: BerValueError if there is no octet. By DER: InvalidLength if there is no octet; InvalidValue for more
/// than seven unused bits; the constraint UnusedBitsNotZero (11.2.1).
pub fn read_bits(rules: Rules, octets: &[u8]) -> Result<BitString<'_>, BerError>
    ensures { Decodes (λ v. (v.unused, v.octets.now)) (bit_strings rules) octets.now result }
{
    let [unused, bits @ ..] = octets else {
        return Err(no_octet(rules));
    };
    check_unused_bits(rules, *unused, bits)?;
    Ok(BitString {
        unused: *unused,
        octets: bits,
    })
}

/// The error of a BIT STRING without octets.
fn no_octet(rules: Rules) -> BerError
    ensures { IsFirstRefusal (leaf_tests rules 3 []) (refusal result) }
{
    match rules {
        Rules::Ber => BerError::BerValueError,
        Rules::Der => BerError::InvalidLength,
    }
}

/// Checks, by DER, that at most seven bits are unused and that they are 0.
fn check_unused_bits(rules: Rules, unused: u8, bits: &[u8]) -> Result<(), BerError>
    ensures { Decodes (λ v. v) (checked (bit_strings rules)) (unused ∷ bits.now) result }
{
    match rules {
        Rules::Ber => Ok(()),
        Rules::Der if unused > 7 => {
            Err(BerError::invalid_value(Tag::BitString, "More than 7 unused bits"))
        }
        Rules::Der if are_last_bits_zero(unused, bits) => Ok(()),
        Rules::Der => Err(BerError::DerConstraintFailed(DerConstraint::UnusedBitsNotZero)),
    }
}

/// Whether this many last bits of the last octet are 0. Without octets, whether the number is 0.
pub fn are_last_bits_zero(count: u8, octets: &[u8]) -> bool
    requires { count ≤ 7 }
    ensures { IsTrue result ↔ HasZeroUnusedBits count octets.now }
{
    match octets {
        [] => count == 0,
        [.., last] => *last % (1 << count) == 0,
    }
}
