//! Reads bindings and their values (RFC 1155 3.2.3, RFC 2578 2, RFC 3416 3).
ghost use Rattle.std.specs.Net.Addr.{ipv4_octets};
ghost use Rattle.std.specs.Prelude.{◌≡◌, ◌≢◌, [], length, map, MatchResult};
ghost use Rattle.der_cursor.specs.Formats.{Required, Never, NoMemory, ReadsField, ReadsWhole, element_of};
ghost use Rattle.messages.specs.Snmp.Messages.{ObjectSyntax, ReadsSyntax, VarBind, VarBindList, binding_of, syntax_of};

use crate::snmp::message::{Binding, Value};
use der_base::any::Any;
use der_base::error::BerError;
use der_base::header::Class;
use der_base::rules::Rules;
use der_cursor::{Cursor, ReadError};
use der_values::{read_i32, read_identifier, read_u32, read_u64};
use std::alloc::Global;
use std::net::Ipv4Addr;

pub fn read_bindings<'a>(
    alloc: Global,
    pdu: &mut Cursor<'a>,
) -> Result<Vec<Binding<'a>>, ReadError<BerError>>
    ensures { ReadsField (Required VarBindList) (λ x. map binding_of x.items) NoMemory pdu.old result pdu.new }
{
    pdu.open_sequence()?.read_all(alloc, read_binding)
}

fn read_binding<'a>(
    _alloc: Global,
    list: &mut Cursor<'a>,
) -> Result<Binding<'a>, ReadError<BerError>>
    ensures { ReadsField (Required VarBind) binding_of Never list.old result list.new }
{
    let mut binding = list.open_sequence()?;
    let name = binding.oid()?;
    let value = read_value(&mut binding)?;
    binding.end()?;
    Ok(Binding { name, value })
}

fn read_value<'a>(binding: &mut Cursor<'a>) -> Result<Value<'a>, ReadError<BerError>>
    ensures { ReadsField ObjectSyntax syntax_of Never binding.old result binding.new }
{
    let before = *binding;
    value_of(binding.any()?).map_err(|e| before.refuse(e))
}

/// The value of a primitive element, by its tag.
fn value_of(element: Any<'_>) -> Result<Value<'_>, BerError>
    ensures { ReadsSyntax (element_of element.entry) result }
{
    element.header.assert_primitive()?;
    let octets = element.bytes;
    match (element.class(), element.tag().0) {
        (Class::Universal, 2) => Ok(Value::Integer(read_i32(Rules::Ber, octets)?)),
        (Class::Universal, 4) => Ok(Value::OctetString(octets)),
        (Class::Universal, 5) => of_no_octets(octets, Value::Null),
        (Class::Universal, 6) => Ok(Value::Identifier(read_identifier(octets)?)),
        (Class::Application, 0) => Ok(Value::Address(address_of(octets)?)),
        (Class::Application, 1) => Ok(Value::Counter32(read_u32(Rules::Ber, octets)?)),
        (Class::Application, 2) => Ok(Value::Gauge32(read_u32(Rules::Ber, octets)?)),
        (Class::Application, 3) => Ok(Value::TimeTicks(read_u32(Rules::Ber, octets)?)),
        (Class::Application, 4) => Ok(Value::Opaque(octets)),
        (Class::Application, 6) => Ok(Value::Counter64(read_u64(Rules::Ber, octets)?)),
        (Class::ContextSpecific, 0) => of_no_octets(octets, Value::NoSuchObject),
        (Class::ContextSpecific, 1) => of_no_octets(octets, Value::NoSuchInstance),
        (Class::ContextSpecific, 2) => of_no_octets(octets, Value::EndOfMibView),
        (_, number) => Err(BerError::UnknownTag(number)),
    }
}

/// The value, if there are no octets: its encoding has none (X.690 8.8.2).
fn of_no_octets<'a>(octets: &[u8], value: Value<'a>) -> Result<Value<'a>, BerError>
    ensures { MatchResult result (λ x. (octets.now ≡ []) × (x ≡ value.entry)) (λ _. octets.now ≢ []) }
{
    match octets {
        [] => Ok(value),
        _ => Err(BerError::InvalidLength),
    }
}

/// The address in four octets.
pub fn address_of(octets: &[u8]) -> Result<Ipv4Addr, BerError>
    ensures { ReadsWhole (λ w. (w ≡ octets.now) × (length w ≡ 4)) ipv4_octets Never result }
{
    match octets {
        &[a, b, c, d] => Ok(Ipv4Addr::new(a, b, c, d)),
        _ => Err(BerError::InvalidLength),
    }
}
