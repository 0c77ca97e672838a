//! Kerberos requests for tickets (RFC 4120 5.4.1), by DER.
ghost use Rattle.std.specs.Prelude.{IfOk};
ghost use Rattle.der_show.specs.Messages.{IsKerberos};

use crate::by_type::words_by_name;
use crate::message::{FoundWords, none_after};
use der_known::KnownTypes;
use messages::kerberos::read_request;
use std::alloc::Global;

/// The summary of a request for a ticket.
pub(crate) fn kerberos_words(alloc: Global, octets: &[u8], types: &KnownTypes) -> FoundWords
    ensures { IfOk result (λ found. IsKerberos types.now octets.now found) }
{
    match read_request(alloc, octets) {
        Ok(_request) => words_by_name(alloc, octets, types, "AS-REQ"),
        Err(e) => none_after(&e),
    }
}
