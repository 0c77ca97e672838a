//! Extensions of CRL entries (RFC 5280 5.3).
ghost use Rattle.std.specs.Prelude.{◌≡◌, Ok};
ghost use Rattle.der_print.specs.Writes.{WritesOne};
ghost use Rattle.certificate_text.specs.Lists.{IsEntryRead, IsEntryResult, IsReason, reason_name};

use der_extensions::{ExtensionValue, read_extension_value};
use extension_text::general_name::write_general_names;
use extension_text::names::lines::{write_moment, write_octets};
use extension_text::unread::{error_in, write_unread};
use std::fmt;
use x509::Extension;
use x509::crl::{Reason, read_reason};

/// Writes the value of an entry's extension, or its error and its octets if it has another type.
pub(crate) fn write_entry_value<W: fmt::Write>(
    f: &mut fmt::Formatter<W>,
    extension: &Extension<'_>,
) -> fmt::Result
    ensures { WritesOne W.Write.write_str_gives f.old result (IsEntryRead extension.now) f.new }
{
    match read_extension_value(extension) {
        Ok(value) => write_read_value(f, extension.value, &value),
        Err(e) => write_unread(
            f,
            "        ",
            extension.value,
            error_in(extension.value, &e),
        ),
    }
}

fn write_read_value<W: fmt::Write>(
    f: &mut fmt::Formatter<W>,
    octets: &[u8],
    value: &ExtensionValue<'_>,
) -> fmt::Result
    ensures { WritesOne W.Write.write_str_gives f.old result (IsEntryResult octets.now (Ok value.now)) f.new }
{
    match value {
        ExtensionValue::ReasonCode => write_reason(f, octets),
        ExtensionValue::InvalidityDate(date) => write_moment(f, "        Invalid since: ", *date),
        ExtensionValue::CertificateIssuer(names) => write_general_names(f, "        ", names),
        _ => write_octets(f, "        Octets: ", octets),
    }
}

/// Writes a reason (RFC 5280 5.3.1), or the error of octets that aren't one.
fn write_reason<W: fmt::Write>(f: &mut fmt::Formatter<W>, octets: &[u8]) -> fmt::Result
    ensures { WritesOne W.Write.write_str_gives f.old result (IsReason octets.now) f.new }
{
    match read_reason(octets) {
        Ok(reason) => write!(f, "        Reason: {}\n", reason_name(reason)),
        Err(e) => write_unread(f, "        ", octets, error_in(octets, &e)),
    }
}

/// The name of a reason in the ASN.1.
fn reason_name(reason: Reason) -> &'static str
    ensures { result.now ≡ reason_name reason }
{
    match reason {
        Reason::Unspecified => "unspecified",
        Reason::KeyCompromise => "keyCompromise",
        Reason::CaCompromise => "cACompromise",
        Reason::AffiliationChanged => "affiliationChanged",
        Reason::Superseded => "superseded",
        Reason::CessationOfOperation => "cessationOfOperation",
        Reason::CertificateHold => "certificateHold",
        Reason::RemoveFromCrl => "removeFromCRL",
        Reason::PrivilegeWithdrawn => "privilegeWithdrawn",
        Reason::AaCompromise => "aACompromise",
    }
}
