//! Bits that have names (X.680 22.7, X.690 11.2.2).
ghost use Rattle.std.specs.Prelude.{◌≡◌};
ghost use Rattle.der_writer.specs.Octets.{last_zero_bits, named_bits, without_last_zeros};
ghost use Rattle.der_writer.specs.Written.{PutsLeaf};

use crate::writer::Writer;

impl<'b> Writer<'b> {
    /// A BIT STRING of these octets whose bits have names, such as KeyUsage. Trailing zero bits aren't put (11.2.2).
    pub fn put_named_bits(&mut self, octets: &[u8])
        ensures { PutsLeaf 3 (named_bits octets.now) self.old self.new }
    {
        let used = without_last_zeros(octets);
        self.put_bits(last_zero_bits(used), used);
    }
}

/// The octets without trailing zeros.
fn without_last_zeros(given: &[u8]) -> &[u8]
    ensures { result.now ≡ without_last_zeros given.now }
{
    let mut end = given.len();
    while end > 0 && given[end - 1] == 0 {
        end -= 1;
    }
    &given[..end]
}

/// How many of the last bits of the last octet are 0.
fn last_zero_bits(octets: &[u8]) -> u8
    ensures { result ≡ last_zero_bits octets.now }
{
    match octets.split_last() {
        Some((last, _)) => last.trailing_zeros() as u8,
        None => 0,
    }
}
