//! Reads private keys (PKCS #8: RFC 5208 5, RFC 5958 2), encrypted or not, keys of RSA (RFC 8017 A.1) and of elliptic
//! curves (SEC 1, RFC 5915), and public keys (RFC 5280 4.1.2.7). `request` reads and writes CSRs (PKCS #10).
#![tactic(auto)]

mod curve;
mod encrypted;
mod key;
mod public;
pub mod request;
mod rsa;

pub use curve::{EcPrivateKey, read_ec_private_key};
pub use encrypted::{EncryptedPrivateKeyInfo, read_encrypted_key};
pub use key::{Algorithm, PrivateKeyInfo, read_private_key};
pub use public::{RsaPublicKey, SubjectPublicKeyInfo, read_public_key, read_rsa_public_key};
pub use rsa::{RsaPrivateKey, read_rsa_private_key};
