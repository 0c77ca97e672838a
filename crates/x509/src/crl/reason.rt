//! The reason of a revocation (RFC 5280 5.3.1).
ghost use Rattle.std.specs.Prelude.{◌≡◌, ◌≢◌, MatchOption};
ghost use Rattle.der_base.specs.declared.rules.Rules.{Rules};
ghost use Rattle.der_cursor.specs.Formats.{Never, ReadsField, ReadsInput, ReadsWhole, Required};
ghost use Rattle.x509.specs.Crl.Reasons.{CRLReason, IsReasonOf, ReasonCode, number_of};
ghost use Rattle.x509.specs.Certificates.{extension_of};

use crate::Extension;
use der_base::error::BerError;
use der_base::header::{Class, Tag};
use der_cursor::{Cursor, ReadError};

/// The content octets of 2.5.29.21, the reasonCode (RFC 5280 5.3.1).
const REASON_CODE: &[u8] = b"\x55\x1d\x15";

/// Why a certificate is revoked (RFC 5280 5.3.1). The number 7 isn't used.
#[derive(Clone, Copy, Debug, PartialEq, Eq)]
pub enum Reason {
    Unspecified = 0,
    KeyCompromise = 1,
    CaCompromise = 2,
    AffiliationChanged = 3,
    Superseded = 4,
    CessationOfOperation = 5,
    CertificateHold = 6,
    RemoveFromCrl = 8,
    PrivilegeWithdrawn = 9,
    AaCompromise = 10,
}

impl Reason {
    /// Its number in the ASN.1.
    pub fn number(self) -> u8
        ensures { result ≡ number_of self }
    {
        self as u8
    }

    /// The reason that has a number.
    fn with_number(number: u64) -> Option<Reason>
        ensures { MatchOption result ((v : _) → number_of v ≢ number) (λ v. number_of v ≡ number) }
    {
        match number {
            0 => Some(Reason::Unspecified),
            1 => Some(Reason::KeyCompromise),
            2 => Some(Reason::CaCompromise),
            3 => Some(Reason::AffiliationChanged),
            4 => Some(Reason::Superseded),
            5 => Some(Reason::CessationOfOperation),
            6 => Some(Reason::CertificateHold),
            8 => Some(Reason::RemoveFromCrl),
            9 => Some(Reason::PrivilegeWithdrawn),
            10 => Some(Reason::AaCompromise),
            _ => None,
        }
    }
}

/// The reason, if this extension is a reasonCode (RFC 5280 5.3.1). Offsets of errors count from the start of its value.
pub fn reason_of(extension: &Extension<'_>) -> Result<Option<Reason>, ReadError<BerError>>
    ensures { ReadsWhole (IsReasonOf (extension_of extension.now)) (λ v. v) Never result }
{
    let identifier = extension.identifier;
    if identifier.is_relative() || identifier.as_bytes() != REASON_CODE {
        return Ok(None);
    }
    Ok(Some(read_reason(extension.value)?))
}

/// Reads the value of a reasonCode by DER. Trailing data is an error, and so is a number without a name, such as 7.
/// Incomplete iff the octets end within the ENUMERATED.
pub fn read_reason(octets: &[u8]) -> Result<Reason, ReadError<BerError>>
    ensures { ReadsInput Rules.Der CRLReason (λ v. v) Never octets.now result }
{
    match read_whole_reason(octets) {
        Ok(reason) => Ok(reason),
        Err(e) => Err(e.of_element(
            Cursor::new(octets),
            Class::Universal,
            false,
            Tag::Enumerated,
        )),
    }
}

fn read_whole_reason(octets: &[u8]) -> Result<Reason, ReadError<BerError>>
    ensures { ReadsWhole (ReasonCode Rules.Der octets.now) (λ v. v) Never result }
{
    let mut value = Cursor::new(octets);
    let reason = read_number(&mut value)?;
    value.end()?;
    Ok(reason)
}

fn read_number(value: &mut Cursor<'_>) -> Result<Reason, ReadError<BerError>>
    ensures { ReadsField (Required CRLReason) (λ v. v) Never value.old result value.new }
{
    let before = *value;
    let number = value.enumerated()?;
    let Some(reason) = Reason::with_number(number) else {
        return Err(before.refuse(BerError::BerValueError));
    };
    Ok(reason)
}
