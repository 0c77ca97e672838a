//! Reads certificates in DER, by the ASN.1 of RFC 5280 4.1. Signatures aren't verified. `crl` reads CRLs, and `partial`
//! what it can of an invalid certificate.
//!
//! A value of any type (algorithm parameters, attribute values) is a DER header and as many octets. `Rule::DerValues`
//! checks the content, and `Rule::OrderedAttributes` the order of sets; `read_certificate` checks neither.
#![tactic(auto)]

mod algorithm;
mod certificate;
pub mod crl;
mod display;
mod error;
mod extension;
mod first_element;
mod identifier;
pub mod laws;
mod list_rules;
mod lists;
mod name;
pub mod partial;
pub mod parts;
mod repetition;
mod rules;
mod time;
mod value_rules;

pub use algorithm::{AlgorithmIdentifier, SubjectPublicKeyInfo};
pub use certificate::{Certificate, TbsCertificate, Version, read_certificate};
pub use error::{CertificateError, Field};
pub use extension::{Extension, Extensions};
pub use identifier::absolute_octets;
pub use list_rules::has_descent;
pub use lists::{Attributes, ExtensionIter, RelativeNames};
pub use name::{AttributeTypeAndValue, Name, RelativeDistinguishedName};
pub use repetition::{MOST_ITEMS, are_indistinct};
pub use rules::{Rule, StrictError, read_strict_certificate};
pub use time::{Time, Validity};
pub use value_rules::{name_breaks_der, parameters_break_der};
