//! Summaries of certificates, CRLs, CSRs and keys: a line for each field with its name and value, indented by two
//! columns for each structure around it. Secret numbers of private keys are never written. Nothing allocates.
#![tactic(auto)]

mod algorithm;
mod certificate;
mod curve_key;
pub mod expiry;
mod field;
mod identifier;
mod key;
mod partial;
mod private_key;
mod public_key;
mod reason;
mod request;
mod revoked;
mod rsa;
mod seal;
mod validity;

pub use algorithm::{AlgorithmText, EncryptedKeyText, ParametersText};
pub use certificate::{CertificateText, write_certificate};
pub use curve_key::EcKeyText;
pub use extension_text::{ErrorText, Why, is_at_end, why_of};
pub use identifier::NamedIdentifier;
pub use partial::{PartialText, write_partial};
pub use private_key::PrivateKeyText;
pub use public_key::PublicKeyText;
pub use request::{RequestText, write_request};
pub use revoked::{ListText, write_list};
pub use rsa::RsaKeyText;
