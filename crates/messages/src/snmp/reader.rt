//! Reads messages.
ghost use Rattle.std.specs.Net.Addr.{ipv4_octets};
ghost use Rattle.std.specs.Prelude.{pos};
ghost use Rattle.der_cursor.specs.Formats.{Never, NoMemoryIn, ReadsContent, ReadsField};
ghost use Rattle.der_cursor.specs.Formats.{ReadsFront, Required, TellsNext};
ghost use Rattle.der_base.specs.declared.rules.Rules.{Rules};
ghost use Rattle.messages.specs.Snmp.Messages.{CommonContent, IpAddress, Message as MessageFormat, MessageContent};
ghost use Rattle.messages.specs.Snmp.Messages.{PduFormat, Pdus, Ticks};
ghost use Rattle.messages.specs.Snmp.Messages.{TrapContent, VersionFormat, content_of, message_of, pdu_of};

use crate::snmp::message::{Content, Message, Operation, Pdu, Version};
use crate::snmp::value::{address_of, read_bindings};
use der_base::error::BerError;
use der_base::header::Class;
use der_base::rules::Rules;
use der_cursor::{Cursor, FieldError, Named, ReadError};
use std::alloc::Global;
use std::net::Ipv4Addr;

/// Reads a message and returns the octets after it. Incomplete only if the message itself is cut.
pub fn read_message<'a>(
    alloc: Global,
    octets: &'a [u8],
) -> Result<(&'a [u8], Message<'a>), FieldError>
    ensures { ReadsFront Rules.Ber MessageFormat message_of NoMemoryIn octets.now result }
{
    let mut input = Cursor::by(Rules::Ber, octets);
    let fields = input.open_sequence().named("Message")?;
    match read_fields(alloc, fields) {
        Ok(message) => Ok((input.remaining(), message)),
        Err(refused) => Err(refused.settled()),
    }
}

fn read_fields<'a>(alloc: Global, mut fields: Cursor<'a>) -> Result<Message<'a>, FieldError>
    ensures { ReadsContent MessageContent message_of NoMemoryIn fields.entry result }
{
    let version = read_version(&mut fields).named("version")?;
    let community = fields.octets().named("community")?;
    let before = fields;
    let pdu = read_pdu(alloc, &mut fields)?;
    fields.end().named("Message")?;
    if !version.has(pdu.operation) {
        return Err(before.refuse(BerError::UnknownTag(pdu.operation.tag().0))).named("pdu");
    }
    Ok(Message {
        version,
        community,
        pdu,
    })
}

/// Reads a version, which is encoded as 0 or 1.
fn read_version(fields: &mut Cursor<'_>) -> Result<Version, ReadError<BerError>>
    ensures { ReadsField (Required VersionFormat) (λ v. v) Never fields.old result fields.new }
{
    let before = *fields;
    match fields.u32()? {
        0 => Ok(Version::One),
        1 => Ok(Version::TwoC),
        _ => Err(before.refuse(BerError::BerValueError)),
    }
}

fn read_pdu<'a>(alloc: Global, fields: &mut Cursor<'a>) -> Result<Pdu<'a>, FieldError>
    ensures { ReadsField Pdus pdu_of NoMemoryIn fields.old result fields.new }
{
    let operation = next_operation(*fields).named("pdu")?;
    let inside = fields.open(Class::ContextSpecific, true, operation.tag());
    let inside = inside.named("pdu")?;
    let content = match operation {
        Operation::Trap => read_trap(alloc, inside)?,
        _ => read_common(alloc, inside)?,
    };
    Ok(Pdu { operation, content })
}

/// Returns the operation that is next.
fn next_operation(fields: Cursor<'_>) -> Result<Operation, ReadError<BerError>>
    ensures { TellsNext PduFormat fields.entry result }
{
    let mut ahead = fields;
    let tag = ahead.any()?.tag();
    Operation::of_tag(tag).ok_or(fields.refuse(BerError::UnknownTag(tag.0)))
}

fn read_common<'a>(alloc: Global, mut pdu: Cursor<'a>) -> Result<Content<'a>, FieldError>
    ensures { ReadsContent CommonContent content_of NoMemoryIn pdu.entry result }
{
    let content = Content::Common {
        request_id: pdu.i32().named("pdu.request-id")?,
        error_status: pdu.u32().named("pdu.error-status")?,
        error_index: pdu.u32().named("pdu.error-index")?,
        bindings: read_bindings(alloc, &mut pdu).named("pdu.variable-bindings")?,
    };
    pdu.end().named("pdu")?;
    Ok(content)
}

fn read_trap<'a>(alloc: Global, mut pdu: Cursor<'a>) -> Result<Content<'a>, FieldError>
    ensures { ReadsContent TrapContent content_of NoMemoryIn pdu.entry result }
{
    let content = Content::Trap {
        enterprise: pdu.oid().named("pdu.enterprise")?,
        agent_address: read_address(&mut pdu).named("pdu.agent-addr")?,
        generic_trap: pdu.u32().named("pdu.generic-trap")?,
        specific_trap: pdu.i32().named("pdu.specific-trap")?,
        time_stamp: read_time_stamp(&mut pdu).named("pdu.time-stamp")?,
        bindings: read_bindings(alloc, &mut pdu).named("pdu.variable-bindings")?,
    };
    pdu.end().named("pdu")?;
    Ok(content)
}

/// Reads an IpAddress, as in `Value::Address`.
fn read_address(pdu: &mut Cursor<'_>) -> Result<Ipv4Addr, ReadError<BerError>>
    ensures { ReadsField (Required IpAddress) ipv4_octets Never pdu.old result pdu.new }
{
    let before = *pdu;
    let octets = pdu.implicit_of(Class::Application, 0).octets()?;
    address_of(octets).map_err(|e| before.refuse(e))
}

fn read_time_stamp(pdu: &mut Cursor<'_>) -> Result<u32, ReadError<BerError>>
    ensures { ReadsField (Required Ticks) pos Never pdu.old result pdu.new }
{
    pdu.implicit_of(Class::Application, 3).u32()
}
