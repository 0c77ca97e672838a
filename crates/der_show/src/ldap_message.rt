//! LDAP messages (RFC 4511), by BER.
ghost use Rattle.std.specs.Prelude.{IfOk};
ghost use Rattle.der_show.specs.Messages.{IsLdap};

use crate::by_type::words_by_name;
use crate::message::{FoundWords, none_after};
use der_known::KnownTypes;
use messages::ldap::read_message;
use std::alloc::Global;

/// The summary of an LDAP message.
pub(crate) fn ldap_words(alloc: Global, octets: &[u8], types: &KnownTypes) -> FoundWords
    ensures { IfOk result (λ found. IsLdap types.now octets.now found) }
{
    match read_message(alloc, octets) {
        Ok((rest, _message)) => {
            if rest.is_empty() {
                words_by_name(alloc, octets, types, "LDAPMessage")
            } else {
                Ok(None)
            }
        }
        Err(e) => none_after(&e),
    }
}
