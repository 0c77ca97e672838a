//! The summaries of certificates, CRLs and certification requests.
ghost use Rattle.std.specs.Prelude.{◌↔◌, IfOk, IsTrue};
ghost use Rattle.der_show.specs.Known.{KeepsRules};
ghost use Rattle.der_show.specs.Rules.{WritesText};
ghost use Rattle.der_show.specs.Shown.{IsShown};

use crate::known::Known;
use crate::rules::{write_list_rules, write_rules};
use certificate_text::{write_certificate, write_list, write_request};
use std::fmt;

/// A certificate, CRL or certification request that is to be summarized.
#[derive(Clone, Copy)]
pub struct Shown<'r, 'a> {
    /// The octets from which it was read.
    pub octets: &'a [u8],
    pub known: &'r Known<'a>,
    /// The current time, in seconds since 1970-01-01 00:00:00 UTC. Without it, the summary doesn't tell for how long
    /// the certificate is valid.
    pub now: Option<u64>,
}

impl fmt::Display for Shown<'_, '_> {
    fn fmt<W: fmt::Write>(&self, f: &mut fmt::Formatter<W>) -> fmt::Result {
        write_known(f, self.octets, self.known, self.now)?;
        Ok(())
    }
}

/// Writes the summary of a certificate, CRL or certification request, and then the rules of RFC 5280 that it breaks. It
/// was read from `octets`. `now` is as in `words_of`. Returns whether a certificate or CRL keeps every MUST rule beyond
/// its ASN.1 (`MUST_RULES` of x509_rules and `MUST_LIST_RULES` of x509_rules::crl). No rules are checked for a
/// certification request, so this is true.
pub fn write_known<W: fmt::Write>(
    f: &mut fmt::Formatter<W>,
    octets: &[u8],
    known: &Known<'_>,
    now: Option<u64>,
) -> Result<bool, fmt::Error>
    ensures text { WritesText W.Write.write_str_gives f.old result (IsShown now octets.now known.now) f.new }
    ensures rules { IfOk result (λ keeps. IsTrue keeps ↔ KeepsRules known.now) }
{
    match known {
        Known::Certificate(certificate) => {
            write_certificate(f, octets, certificate, now)?;
            write_rules(f, certificate)
        }
        Known::CertificateList(list) => {
            write_list(f, octets, list, now)?;
            write_list_rules(f, list)
        }
        Known::CertificationRequest(request) => {
            write_request(f, request)?;
            Ok(true)
        }
    }
}
