//! Calls that read private keys (RFC 5208 5, RFC 5958 2) and RSA private keys (RFC 8017 A.1.2).
ghost use Rattle.std.specs.Prelude.{◌≡◌};
ghost use Rattle.c_formats.specs.Keys.{IsKey, IsRsaKey, key_fault, rsa_fault};
ghost use Rattle.c_values.specs.Faults.{Reads};
ghost use Rattle.x509.specs.Readers.{ReadsExactly};
ghost use Rattle.x509_keys.specs.Fields.{key_fault as named_fault};
ghost use Rattle.x509_keys.specs.Keys.{key_of, rsa_of, whole_key, whole_rsa_key};

use c_formats::key::{DmPrivateKey, DmRsaPrivateKey, key_fault, rsa_fault, write, write_rsa};
use c_values::fault::DmFault;
use x509_keys::{read_private_key, read_rsa_private_key};

/// Reads a private key by DER; trailing data is an error. Returns the fault's status.
#[unsafe(no_mangle)]
pub extern "C" fn dm_read_private_key<'a>(
    input: &'a [u8],
    key: &mut DmPrivateKey<'a>,
    fault: &mut DmFault,
) -> u32
    ensures exactly { Reads (ReadsExactly named_fault key_of whole_key input.now) IsKey key_fault
        key.old key.new fault.new }
    ensures status { result ≡ fault.new.status }
{
    *fault = write(read_private_key(input), key);
    fault.status
}

/// Reads an RSA private key by DER; trailing data is an error. Returns the fault's status.
#[unsafe(no_mangle)]
pub extern "C" fn dm_read_rsa_private_key<'a>(
    input: &'a [u8],
    key: &mut DmRsaPrivateKey<'a>,
    fault: &mut DmFault,
) -> u32
    ensures exactly { Reads (ReadsExactly named_fault rsa_of whole_rsa_key input.now) IsRsaKey rsa_fault
        key.old key.new fault.new }
    ensures status { result ≡ fault.new.status }
{
    *fault = write_rsa(read_rsa_private_key(input), key);
    fault.status
}
