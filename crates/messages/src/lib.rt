//! Messages of protocols: SNMP (RFC 3416), LDAP (RFC 4511) and requests of Kerberos (RFC 4120).
#![tactic(auto)]

pub mod kerberos;
pub mod ldap;
pub mod snmp;
