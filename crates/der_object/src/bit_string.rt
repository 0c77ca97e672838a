//! The bits of a BIT STRING.
ghost use Rattle.std.specs.Prelude.{◌≡◌};
ghost use Rattle.der_object.specs.Bits.{is_bit_set};

/// The octets of a BIT STRING, unused bits included (X.690 8.6.2).
#[derive(Clone, Copy, Debug, PartialEq)]
pub struct BitStringObject<'a> {
    /// The octets after the first content octet, which counts the unused bits of the last one.
    pub bytes: &'a [u8],
}

impl BitStringObject<'_> {
    /// Whether the bit with this number is 1. Bit 0 is the highest bit of the first octet. A bit past the end isn't 1.
    #[tactic(auto, using(std::proofs::lemmas::Nat::Bits::shr_and_one))]
    pub fn is_set(&self, bitnum: usize) -> bool
        ensures { result ≡ is_bit_set bitnum self.now.bytes.now }
    {
        match self.bytes.get(bitnum / 8) {
            Some(octet) => (*octet >> (7 - bitnum % 8)) & 1 == 1,
            None => false,
        }
    }
}
