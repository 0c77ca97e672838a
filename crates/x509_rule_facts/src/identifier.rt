//! Identifiers by their content octets.
ghost use Rattle.std.specs.Prelude.{◌≡◌, ◌↔◌, IsTrue};
ghost use Rattle.der_values.specs.Kinds.{borrowed_octets};

use der_values::ObjectIdentifier;
use x509::absolute_octets;

/// Returns whether the OBJECT IDENTIFIER has these content octets. A RELATIVE-OID has none.
#[inline]
pub fn has_octets(identifier: &ObjectIdentifier<'_>, octets: &[u8]) -> bool
    ensures { IsTrue result ↔ (borrowed_octets identifier.now ≡ octets.now) }
{
    absolute_octets(identifier) == octets
}
