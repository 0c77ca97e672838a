//! The octets of identifiers, for comparison.
ghost use Rattle.std.specs.Prelude.{◌≡◌};
ghost use Rattle.der_values.specs.Kinds.{borrowed_octets};

use der_values::ObjectIdentifier;

/// The content octets of an OBJECT IDENTIFIER; empty for a RELATIVE-OID.
pub fn absolute_octets<'r>(identifier: &'r ObjectIdentifier<'_>) -> &'r [u8]
    ensures { result.now ≡ borrowed_octets identifier.now }
{
    if identifier.is_relative() {
        return &[];
    }
    identifier.as_bytes()
}
