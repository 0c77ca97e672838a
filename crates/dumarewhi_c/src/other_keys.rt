//! Calls that read keys other than PKCS #8: elliptic private keys (RFC 5915 3), encrypted private keys (RFC 5958 3) and
//! public keys (RFC 5280 4.1.2.7, RFC 8017 A.1.1).
ghost use Rattle.std.specs.Prelude.{◌≡◌};
ghost use Rattle.c_formats.specs.OtherKeys.{IsEcKey, IsEncryptedKey, IsPublicKey, IsRsaPublicKey, ec_fault};
ghost use Rattle.c_formats.specs.OtherKeys.{encrypted_fault, public_fault, rsa_public_fault};
ghost use Rattle.c_values.specs.Faults.{Reads};
ghost use Rattle.x509.specs.Readers.{ReadsExactly};
ghost use Rattle.x509_keys.specs.Fields.{key_fault};
ghost use Rattle.x509_keys.specs.OtherKeys.{ec_of, encrypted_of, key_info_of, rsa_public_of, whole_ec_key};
ghost use Rattle.x509_keys.specs.OtherKeys.{whole_encrypted_key, whole_public_key, whole_rsa_public_key};

use c_formats::other_keys::{
    DmEcPrivateKey, DmEncryptedPrivateKey, DmPublicKey, DmRsaPublicKey, ec_fault, encrypted_fault,
    public_fault, rsa_public_fault, write_ec, write_encrypted, write_public, write_rsa_public,
};
use c_values::fault::DmFault;
use x509_keys::{read_ec_private_key, read_encrypted_key, read_public_key, read_rsa_public_key};

/// Reads an elliptic private key by DER; trailing data is an error. Returns the fault's status.
#[unsafe(no_mangle)]
pub extern "C" fn dm_read_ec_private_key<'a>(
    input: &'a [u8],
    key: &mut DmEcPrivateKey<'a>,
    fault: &mut DmFault,
) -> u32
    ensures exactly { Reads (ReadsExactly key_fault ec_of whole_ec_key input.now) IsEcKey ec_fault
        key.old key.new fault.new }
    ensures status { result ≡ fault.new.status }
{
    *fault = write_ec(read_ec_private_key(input), key);
    fault.status
}

/// Reads an encrypted private key by DER; trailing data is an error. Returns the fault's status.
#[unsafe(no_mangle)]
pub extern "C" fn dm_read_encrypted_private_key<'a>(
    input: &'a [u8],
    key: &mut DmEncryptedPrivateKey<'a>,
    fault: &mut DmFault,
) -> u32
    ensures exactly { Reads (ReadsExactly key_fault encrypted_of whole_encrypted_key input.now) IsEncryptedKey
        encrypted_fault key.old key.new fault.new }
    ensures status { result ≡ fault.new.status }
{
    *fault = write_encrypted(read_encrypted_key(input), key);
    fault.status
}

/// Reads a public key by DER; trailing data is an error. Returns the fault's status.
#[unsafe(no_mangle)]
pub extern "C" fn dm_read_public_key<'a>(
    input: &'a [u8],
    key: &mut DmPublicKey<'a>,
    fault: &mut DmFault,
) -> u32
    ensures exactly { Reads (ReadsExactly key_fault key_info_of whole_public_key input.now) IsPublicKey public_fault
        key.old key.new fault.new }
    ensures status { result ≡ fault.new.status }
{
    *fault = write_public(read_public_key(input), key);
    fault.status
}

/// Reads an RSA public key by DER; trailing data is an error. Returns the fault's status.
#[unsafe(no_mangle)]
pub extern "C" fn dm_read_rsa_public_key<'a>(
    input: &'a [u8],
    key: &mut DmRsaPublicKey<'a>,
    fault: &mut DmFault,
) -> u32
    ensures exactly { Reads (ReadsExactly key_fault rsa_public_of whole_rsa_public_key input.now) IsRsaPublicKey
        rsa_public_fault key.old key.new fault.new }
    ensures status { result ≡ fault.new.status }
{
    *fault = write_rsa_public(read_rsa_public_key(input), key);
    fault.status
}
