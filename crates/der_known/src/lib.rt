//! Types of X.509, PKCS, CMS, OCSP, SNMP, LDAP and Kerberos as constants, from which der_schema names elements.
#![tactic(auto)]

mod algorithms;
mod attribute_certificates;
mod attributes;
mod certificates;
mod cms;
mod extensions;
mod kerberos;
mod keys;
mod known;
mod ldap;
mod names;
mod numbered;
mod ocsp;
mod pkcs12;
mod pkcs7;
mod signs;
mod snmp;
mod time_stamps;
mod universal;

pub use known::KnownTypes;
