//! SNMP messages (RFC 1157, RFC 1901), by BER.
ghost use Rattle.std.specs.Prelude.{IfOk};
ghost use Rattle.der_show.specs.Messages.{IsSnmp};

use crate::by_type::words_by_name;
use crate::message::{FoundWords, none_after};
use der_known::KnownTypes;
use messages::snmp::read_message;
use std::alloc::Global;

/// The summary of an SNMP message.
pub(crate) fn snmp_words(alloc: Global, octets: &[u8], types: &KnownTypes) -> FoundWords
    ensures { IfOk result (λ found. IsSnmp types.now octets.now found) }
{
    match read_message(alloc, octets) {
        Ok((rest, _message)) => {
            if rest.is_empty() {
                words_by_name(alloc, octets, types, "Message")
            } else {
                Ok(None)
            }
        }
        Err(e) => none_after(&e),
    }
}
