//! Messages of version 1 (RFC 1157 4) and 2c (RFC 1901 3, RFC 3416 3), and the types of values (RFC 1155 3.2.3, RFC
//! 2578 2).
ghost use Rattle.std.specs.Prelude.{◌≡◌};
ghost use Rattle.messages.specs.Snmp.Operations.{IsOperationAt, has, number_of};

use der_base::header::Tag;
use der_values::ObjectIdentifier;
use std::net::Ipv4Addr;

/// A message. Texts are slices of the input.
#[derive(Drop)]
pub struct Message<'a> {
    pub version: Version,
    pub community: &'a [u8],
    pub pdu: Pdu<'a>,
}

/// The versions, in the order of their numbers.
#[derive(Clone, Copy, Debug, PartialEq)]
pub enum Version {
    One,
    TwoC,
}

/// An operation with its fields.
#[derive(Drop)]
pub struct Pdu<'a> {
    pub operation: Operation,
    pub content: Content<'a>,
}

/// The fields of a PDU.
#[derive(Drop)]
pub enum Content<'a> {
    /// Any PDU but a trap of version 1. In a GetBulkRequest, `error_status` is non-repeaters and `error_index` is
    /// max-repetitions.
    Common {
        request_id: i32,
        error_status: u32,
        error_index: u32,
        bindings: Vec<Binding<'a>>,
    },
    /// A trap of version 1.
    Trap {
        enterprise: ObjectIdentifier<'a>,
        agent_address: Ipv4Addr,
        generic_trap: u32,
        specific_trap: i32,
        time_stamp: u32,
        bindings: Vec<Binding<'a>>,
    },
}

/// The operations, in the order of their tag numbers.
#[derive(Clone, Copy, Debug, PartialEq)]
pub enum Operation {
    GetRequest,
    GetNextRequest,
    Response,
    SetRequest,
    Trap,
    GetBulkRequest,
    InformRequest,
    TrapOfVersion2,
    Report,
}

/// A variable binding: a name and its value.
#[derive(Drop)]
pub struct Binding<'a> {
    pub name: ObjectIdentifier<'a>,
    pub value: Value<'a>,
}

/// A value, or what a response has instead of one.
#[derive(Debug, Drop)]
pub enum Value<'a> {
    Integer(i32),
    OctetString(&'a [u8]),
    Null,
    Identifier(ObjectIdentifier<'a>),
    Address(Ipv4Addr),
    Counter32(u32),
    Gauge32(u32),
    TimeTicks(u32),
    Opaque(&'a [u8]),
    Counter64(u64),
    NoSuchObject,
    NoSuchInstance,
    EndOfMibView,
}

impl Version {
    /// Returns whether the version has the operation.
    pub fn has(self, operation: Operation) -> bool
        ensures { result ≡ has self operation }
    {
        match operation {
            Operation::GetBulkRequest
            | Operation::InformRequest
            | Operation::TrapOfVersion2
            | Operation::Report => self == Version::TwoC,
            Operation::Trap => self == Version::One,
            _ => true,
        }
    }
}

impl Operation {
    /// The tag of the operation (RFC 1157 4.1, RFC 3416 3).
    pub fn tag(self) -> Tag
        ensures { result.0 ≡ number_of self }
    {
        Tag(self as u32)
    }

    /// The operation with this tag.
    pub fn of_tag(tag: Tag) -> Option<Operation>
        ensures { IsOperationAt tag.0 result }
    {
        Some(match tag.0 {
            0 => Operation::GetRequest,
            1 => Operation::GetNextRequest,
            2 => Operation::Response,
            3 => Operation::SetRequest,
            4 => Operation::Trap,
            5 => Operation::GetBulkRequest,
            6 => Operation::InformRequest,
            7 => Operation::TrapOfVersion2,
            8 => Operation::Report,
            _ => return None,
        })
    }
}
