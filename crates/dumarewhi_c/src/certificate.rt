//! Calls that read certificates (RFC 5280 4.1).
ghost use Rattle.std.specs.Prelude.{◌≡◌, ◌≤◌, ◌↔◌};
ghost use Rattle.c_formats.specs.Certificates.{IsCertificate, certificate_fault, strict_fault};
ghost use Rattle.c_formats.specs.Found.{IsValidAt};
ghost use Rattle.c_values.specs.Faults.{Reads};
ghost use Rattle.x509.specs.Certificates.{ReadsCertificate};
ghost use Rattle.x509.specs.Rules.{ReadsStrictly};

use c_formats::certificate::{DmCertificate, certificate_fault, write, write_strict};
use c_formats::found::is_valid_at;
use c_values::element::bit;
use c_values::fault::DmFault;
use x509::{read_certificate, read_strict_certificate};

/// Reads a certificate by DER; trailing data is an error. Returns the fault's status.
#[unsafe(no_mangle)]
pub extern "C" fn dm_read_certificate<'a>(
    input: &'a [u8],
    certificate: &mut DmCertificate<'a>,
    fault: &mut DmFault,
) -> u32
    ensures exactly { Reads (ReadsCertificate input.now) IsCertificate certificate_fault
        certificate.old certificate.new fault.new }
    ensures status { result ≡ fault.new.status }
{
    *fault = write(read_certificate(input), certificate);
    fault.status
}

/// Reads a certificate by DER that keeps each `Rule`; trailing data is an error. Returns the fault's status.
#[unsafe(no_mangle)]
pub extern "C" fn dm_read_strict_certificate<'a>(
    input: &'a [u8],
    certificate: &mut DmCertificate<'a>,
    fault: &mut DmFault,
) -> u32
    ensures exactly { Reads (ReadsStrictly input.now) IsCertificate strict_fault
        certificate.old certificate.new fault.new }
    ensures status { result ≡ fault.new.status }
{
    *fault = write_strict(read_strict_certificate(input), certificate);
    fault.status
}

/// Returns 1 if a certificate is valid at this second since 1970-01-01 00:00:00 UTC, else 0.
#[unsafe(no_mangle)]
pub extern "C" fn dm_is_valid_at(certificate: &DmCertificate<'_>, now: u64) -> u32
    ensures exactly { (result ≡ 1) ↔ IsValidAt certificate.now now }
    ensures most { result ≤ 1 }
{
    bit(is_valid_at(certificate, now)).into()
}
