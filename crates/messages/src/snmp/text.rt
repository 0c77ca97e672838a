//! The lines that describe a message.
use crate::snmp::message::{Content, Message, Operation, Value};
use std::fmt;

/// A line for the message, and a line for each binding.
impl fmt::Display for Message<'_> {
    fn fmt<W: fmt::Write>(&self, f: &mut fmt::Formatter<W>) -> fmt::Result {
        let version = self.version as u8;
        let community = self.community.escape_ascii();
        write!(f, "version {version} \"{community}\" ")?;
        let operation = self.pdu.operation;
        let bindings = match &self.pdu.content {
            Content::Common {
                request_id,
                error_status,
                error_index,
                bindings,
            } => {
                write!(
                    f,
                    "Pdu(\"{operation}\", {request_id}, {error_status}, {error_index})"
                )?;
                bindings
            }
            Content::Trap {
                enterprise,
                agent_address,
                generic_trap,
                specific_trap,
                time_stamp,
                bindings,
            } => {
                write!(f, "Trap({enterprise}, IpAddress({agent_address}), ")?;
                write!(
                    f,
                    "{generic_trap}, {specific_trap}, TimeTicks({time_stamp}))"
                )?;
                bindings
            }
        };
        for binding in bindings {
            write!(f, "\n  {} = {}", binding.name, binding.value)?;
        }
        Ok(())
    }
}

/// The name in the RFC.
impl fmt::Display for Operation {
    fn fmt<W: fmt::Write>(&self, f: &mut fmt::Formatter<W>) -> fmt::Result {
        match self {
            Operation::TrapOfVersion2 => f.write_str("SNMPv2-Trap"),
            other => write!(f, "{other:?}"),
        }
    }
}

impl fmt::Display for Value<'_> {
    fn fmt<W: fmt::Write>(&self, f: &mut fmt::Formatter<W>) -> fmt::Result {
        match self {
            Value::Integer(n) => write!(f, "Integer({n})"),
            Value::OctetString(octets) => write!(f, "OctetString(\"{}\")", octets.escape_ascii()),
            Value::Identifier(oid) => write!(f, "ObjectIdentifier({oid})"),
            Value::Address(address) => write!(f, "IpAddress({address})"),
            Value::Counter32(n) => write!(f, "Counter32({n})"),
            Value::Gauge32(n) => write!(f, "Gauge32({n})"),
            Value::TimeTicks(n) => write!(f, "TimeTicks({n})"),
            Value::Opaque(octets) => write!(f, "Opaque(\"{}\")", octets.escape_ascii()),
            Value::Counter64(n) => write!(f, "Counter64({n})"),
            Value::Null | Value::NoSuchObject | Value::NoSuchInstance | Value::EndOfMibView => {
                write!(f, "{self:?}")
            }
        }
    }
}
