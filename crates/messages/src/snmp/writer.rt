//! Writes SNMP messages of version 2c (RFC 1901, RFC 3416) to a buffer.
ghost use Rattle.der_writer.specs.Written.{Puts, Wrote};
ghost use Rattle.messages.specs.Snmp.Writer.Octets.{get_request, response};

pub mod laws;

use der_writer::{WriteError, Writer};

/// The version number of version 2c (RFC 1901 3).
const VERSION_2C: i32 = 1;

/// The tag numbers of the operations (RFC 3416 3).
const GET_REQUEST: u32 = 0;

const RESPONSE: u32 = 2;

/// Writes a GetRequest for one object; `name` is the content octets of its OID.
pub fn write_get_request(
    out: &mut [u8],
    community: &[u8],
    request_id: i32,
    name: &[u8],
) -> Result<usize, WriteError>
    ensures { Wrote (get_request community.now request_id name.now) out.old out.new result }
{
    let mut fields = Writer::new(out);
    put_get_request(&mut fields, community, request_id, name);
    fields.finish()
}

/// Writes a Response for one object with an OCTET STRING as its value; `name` is the content octets of its OID.
pub fn write_response(
    out: &mut [u8],
    community: &[u8],
    request_id: i32,
    name: &[u8],
    value: &[u8],
) -> Result<usize, WriteError>
    ensures { Wrote (response community.now request_id name.now value.now) out.old out.new result }
{
    let mut fields = Writer::new(out);
    put_response(&mut fields, community, request_id, name, value);
    fields.finish()
}

/// Puts a GetRequest into a writer.
pub fn put_get_request(fields: &mut Writer<'_>, community: &[u8], request_id: i32, name: &[u8])
    ensures { Puts (get_request community.now request_id name.now) fields.old fields.new }
{
    let message = fields.open_sequence();
    fields.put_i32(VERSION_2C);
    fields.put_octets(community);
    let pdu = fields.open_tagged(GET_REQUEST);
    fields.put_i32(request_id);
    fields.put_i32(0); // error-status
    fields.put_i32(0); // error-index
    let bindings = fields.open_sequence();
    let binding = fields.open_sequence();
    fields.put_oid(name);
    fields.put_null();
    fields.close(binding);
    fields.close(bindings);
    fields.close(pdu);
    fields.close(message);
}

/// Puts a Response into a writer.
pub fn put_response(
    fields: &mut Writer<'_>,
    community: &[u8],
    request_id: i32,
    name: &[u8],
    value: &[u8],
)
    ensures { Puts (response community.now request_id name.now value.now) fields.old fields.new }
{
    let message = fields.open_sequence();
    fields.put_i32(VERSION_2C);
    fields.put_octets(community);
    let pdu = fields.open_tagged(RESPONSE);
    fields.put_i32(request_id);
    fields.put_i32(0); // error-status
    fields.put_i32(0); // error-index
    let bindings = fields.open_sequence();
    let binding = fields.open_sequence();
    fields.put_oid(name);
    fields.put_octets(value);
    fields.close(binding);
    fields.close(bindings);
    fields.close(pdu);
    fields.close(message);
}
