//! The call that finds critical extensions whose values no call reads (RFC 5280 4.2).
ghost use Rattle.std.specs.Prelude.{◌≡◌, ◌≤◌, ◌↔◌};
ghost use Rattle.der_extensions.specs.Unknown.{HasUnknownCritical};

use c_values::element::bit;
use der_extensions::has_unknown_critical;
use x509::Extensions;

/// Returns 1 if a list has a critical extension of kind 0, else 0.
#[unsafe(no_mangle)]
pub extern "C" fn dm_has_unknown_critical(extensions: &[u8]) -> u32
    ensures exactly { (result ≡ 1) ↔ HasUnknownCritical extensions.now }
    ensures most { result ≤ 1 }
{
    bit(has_unknown_critical(Extensions { octets: extensions })).into()
}
