//! Calls that tell what a public key is (RFC 5280 4.1.2.7).
ghost use Rattle.std.specs.Prelude.{◌≡◌};
ghost use Rattle.c_formats.specs.KeyKinds.{HasKind, IsKeyKind};

use c_formats::key_kind::{DmKeyKind, key_kind, public_key_kind};
use c_formats::other_keys::DmPublicKey;
use c_values::parts::{DmAlgorithm, DmBits};

/// Writes the type, the curve and the size of the key of a certificate or a request. Returns the number of the type.
#[unsafe(no_mangle)]
pub extern "C" fn dm_key_type(
    algorithm: &DmAlgorithm<'_>,
    key: &DmBits<'_>,
    kind: &mut DmKeyKind,
) -> u32
    ensures exactly { IsKeyKind algorithm.now key.now.octets.now kind.new }
    ensures number { result ≡ kind.new.key_type }
{
    *kind = key_kind(algorithm, key);
    kind.key_type
}

/// The same of a public key by itself.
#[unsafe(no_mangle)]
pub extern "C" fn dm_public_key_type(key: &DmPublicKey<'_>, kind: &mut DmKeyKind) -> u32
    ensures exactly { HasKind key.now.algorithm.now key.now.parameters key.now.public_key.octets.now kind.new }
    ensures number { result ≡ kind.new.key_type }
{
    *kind = public_key_kind(key);
    kind.key_type
}
