//! Reads CRLs in DER, by the ASN.1 of RFC 5280 5.1. Signatures aren't verified.
//!
//! A value of any type (algorithm parameters, attribute values of the issuer) is a DER header and as many octets;
//! `is_element` of `der_elements::check` tells whether it is a DER element (X.690 10). The order of sets isn't checked,
//! nor are the rules of 5.1 and 5.2 beyond the ASN.1.
mod display;
mod entry;
mod error;
pub mod laws;
mod list;
mod lists;
mod reason;

pub use entry::{RevokedCertificate, RevokedCertificates};
pub use error::{CertificateListError, Field};
pub use list::{CertificateList, TbsCertList, read_certificate_list};
pub use lists::RevokedIter;
pub use reason::{Reason, read_reason, reason_of};
