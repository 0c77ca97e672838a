//! Digests of octets.
ghost use Rattle.std.specs.Prelude.{◌≡◌};
ghost use Rattle.sha2.specs.Sha256.{sha256};

use sha2::{Digest, Sha256};

/// A SHA-256 digest (FIPS 180-4).
#[repr(C)]
#[derive(Clone, Copy)]
pub struct DmDigest {
    /// The octets of the digest.
    pub octets: [u8; 32],
}

/// Writes the SHA-256 digest of the octets.
#[unsafe(no_mangle)]
pub extern "C" fn dm_sha256(input: &[u8], digest: &mut DmDigest)
    ensures { digest.new.octets ≡ sha256 input.now }
{
    digest.octets = Sha256::digest(input);
}
