//! Critical extensions that nothing here reads (RFC 5280 4.2).
ghost use Rattle.std.specs.Prelude.{◌↔◌, IsTrue};
ghost use Rattle.x509.specs.Certificates.{extension_of};
ghost use Rattle.der_extensions.specs.Unknown.{HasUnknownCritical, IsUnknown, IsUnknownCritical};

use crate::known::known_extension;
use x509::{Extension, Extensions, absolute_octets};

/// Whether a critical extension is none of `KnownExtension`. A caller that knows no other extensions must reject a
/// certificate, a CRL or an entry of a CRL that has one.
pub fn has_unknown_critical(extensions: Extensions<'_>) -> bool
    ensures { IsTrue result ↔ HasUnknownCritical extensions.entry.octets.now }
{
    for extension in extensions.iter() {
        if is_unknown_critical(&extension) {
            return true;
        }
    }
    false
}

/// Whether the extension is critical and unknown.
fn is_unknown_critical(extension: &Extension<'_>) -> bool
    ensures { IsTrue result ↔ IsUnknownCritical (extension_of extension.now) }
{
    extension.critical && is_unknown(absolute_octets(&extension.identifier))
}

/// Whether no known extension has this identifier, given its content octets.
fn is_unknown(identifier: &[u8]) -> bool
    ensures { IsTrue result ↔ IsUnknown identifier.now }
{
    known_extension(identifier).is_none()
}
