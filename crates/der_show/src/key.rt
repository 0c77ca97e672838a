//! Keys (RFC 5208, RFC 5958, RFC 8017 A.1, RFC 5915, RFC 5280 4.1.2.7), by DER.
ghost use Rattle.std.specs.Prelude.{IfOk};
ghost use Rattle.der_show.specs.Messages.{IsCurveKey, IsEncryptedKey, IsPrivateKey, IsPublicKey, IsRsaKey, text_in};

use crate::message::Found;
use crate::text::text_of;
use certificate_text::{EcKeyText, EncryptedKeyText, PrivateKeyText, PublicKeyText, RsaKeyText};
use std::alloc::Global;
use x509_keys::{
    read_ec_private_key, read_encrypted_key, read_private_key, read_public_key,
    read_rsa_private_key,
};

/// The text of a private key.
pub(crate) fn private_key_text(alloc: Global, octets: &[u8]) -> Found
    ensures { IfOk result (λ found. IsPrivateKey octets.now (text_in found)) }
{
    match read_private_key(octets) {
        Ok(key) => Ok(Some(text_of(alloc, PrivateKeyText::of(&key))?)),
        Err(_) => Ok(None),
    }
}

/// The text of an encrypted private key.
pub(crate) fn encrypted_key_text(alloc: Global, octets: &[u8]) -> Found
    ensures { IfOk result (λ found. IsEncryptedKey octets.now (text_in found)) }
{
    match read_encrypted_key(octets) {
        Ok(key) => Ok(Some(text_of(alloc, EncryptedKeyText::of(&key))?)),
        Err(_) => Ok(None),
    }
}

/// The text of a private key of RSA that stands alone.
pub(crate) fn rsa_key_text(alloc: Global, octets: &[u8]) -> Found
    ensures { IfOk result (λ found. IsRsaKey octets.now (text_in found)) }
{
    match read_rsa_private_key(octets) {
        Ok(key) => Ok(Some(text_of(alloc, RsaKeyText { key: &key })?)),
        Err(_) => Ok(None),
    }
}

/// The text of a private key of a curve that stands alone.
pub(crate) fn curve_key_text(alloc: Global, octets: &[u8]) -> Found
    ensures { IfOk result (λ found. IsCurveKey octets.now (text_in found)) }
{
    match read_ec_private_key(octets) {
        Ok(key) => Ok(Some(text_of(alloc, EcKeyText::of(&key))?)),
        Err(_) => Ok(None),
    }
}

/// The text of a public key.
pub(crate) fn public_key_text(alloc: Global, octets: &[u8]) -> Found
    ensures { IfOk result (λ found. IsPublicKey octets.now (text_in found)) }
{
    match read_public_key(octets) {
        Ok(key) => Ok(Some(text_of(alloc, PublicKeyText::of(&key))?)),
        Err(_) => Ok(None),
    }
}
