//! Keys and messages: which of them octets are, and its summary.
ghost use Rattle.std.specs.Prelude.{◌≡◌, ◌≢◌, IfOk, MatchResult, None};
ghost use Rattle.der_base.specs.declared.error.Err.TheVariants.{OutOfMemory};
ghost use Rattle.der_show.specs.Messages.{FromCurveKey, FromEncryptedKey, FromRsaKey, FromSnmp, IsKeyText, IsMessage};
ghost use Rattle.der_show.specs.Messages.{text_in};

use crate::kerberos_request::kerberos_words;
use crate::key::{
    curve_key_text, encrypted_key_text, private_key_text, public_key_text, rsa_key_text,
};
use crate::ldap_message::ldap_words;
use crate::snmp_message::snmp_words;
use crate::words::Words;
use der_base::error::Err as Refused;
use der_cursor::FieldError;
use der_known::KnownTypes;
use std::alloc::{AllocError, Global};

/// A text, or none of octets that are another thing. An error if there is no memory.
pub(crate) type Found = Result<Option<Vec<u8>>, AllocError>;

/// A summary, or none of octets that are another thing. An error if there is no memory.
pub(crate) type FoundWords = Result<Option<Words>, AllocError>;

/// The text of the first of these keys that all the octets are: a private key (RFC 5958 2), an encrypted one (3), one of
/// RSA (RFC 8017 A.1.2) or of a curve (RFC 5915 3), a public key (RFC 5280 4.1.2.7).
pub fn text_of_key(alloc: Global, octets: &[u8]) -> Result<Option<Vec<u8>>, AllocError>
    ensures { IfOk result (λ found. IsKeyText octets.now (text_in found)) }
{
    match private_key_text(alloc, octets) {
        Ok(Some(text)) => Ok(Some(text)),
        Ok(None) => from_encrypted_key(alloc, octets),
        Err(e) => Err(e),
    }
}

fn from_encrypted_key(alloc: Global, octets: &[u8]) -> Found
    ensures { IfOk result (λ found. FromEncryptedKey octets.now (text_in found)) }
{
    match encrypted_key_text(alloc, octets) {
        Ok(None) => from_rsa_key(alloc, octets),
        found => found,
    }
}

fn from_rsa_key(alloc: Global, octets: &[u8]) -> Found
    ensures { IfOk result (λ found. FromRsaKey octets.now (text_in found)) }
{
    match rsa_key_text(alloc, octets) {
        Ok(Some(text)) => Ok(Some(text)),
        Ok(None) => from_curve_key(alloc, octets),
        Err(e) => Err(e),
    }
}

fn from_curve_key(alloc: Global, octets: &[u8]) -> Found
    ensures { IfOk result (λ found. FromCurveKey octets.now (text_in found)) }
{
    match curve_key_text(alloc, octets) {
        Ok(None) => public_key_text(alloc, octets),
        found => found,
    }
}

/// The summary of the first of these messages that all the octets are: the request of a ticket (RFC 4120 5.4.1), a
/// message of SNMP (RFC 1157, RFC 1901) or of LDAP (RFC 4511).
pub fn words_of_message(
    alloc: Global,
    octets: &[u8],
    types: &KnownTypes,
) -> Result<Option<Words>, AllocError>
    ensures { IfOk result (λ found. IsMessage types.now octets.now found) }
{
    match kerberos_words(alloc, octets, types) {
        Ok(Some(words)) => Ok(Some(words)),
        Ok(None) => from_snmp(alloc, octets, types),
        Err(e) => Err(e),
    }
}

fn from_snmp(alloc: Global, octets: &[u8], types: &KnownTypes) -> FoundWords
    ensures { IfOk result (λ found. FromSnmp types.now octets.now found) }
{
    match snmp_words(alloc, octets, types) {
        Ok(Some(words)) => Ok(Some(words)),
        Ok(None) => ldap_words(alloc, octets, types),
        Err(e) => Err(e),
    }
}

/// No summary, where a reader returned this error, but an error where it had no memory.
pub(crate) fn none_after(e: &FieldError) -> FoundWords
    ensures { let reason = e.now.refusal.reason in
        MatchResult result (λ found. (found ≡ None) × (reason ≢ OutOfMemory)) (λ _. reason ≡ OutOfMemory) }
{
    match e.refusal.reason {
        Refused::OutOfMemory => Err(AllocError),
        _ => Ok(None),
    }
}
