//! Messages and their operations (RFC 4511 4.1.1, appendix B).
ghost use Rattle.std.specs.Prelude.{◌≡◌};
ghost use Rattle.messages.specs.Ldap.Operations.{IsOperationAt, number_of};

use crate::ldap::filter::FilterPart;
use der_base::header::Tag;

/// A message. Names and texts are slices of the input.
#[derive(Drop)]
pub struct Message<'a> {
    pub id: u32,
    pub operation: Operation,
    pub content: Content<'a>,
    /// The controls (RFC 4511 4.1.11), if the field is there.
    pub controls: Option<Vec<Control<'a>>>,
}

/// A control (RFC 4511 4.1.11).
#[derive(Clone, Copy)]
pub struct Control<'a> {
    /// The OID as text, such as `1.2.840.113556.1.4.319`.
    pub kind: &'a [u8],
    /// Whether the operation must not be done without the control. None means false.
    pub criticality: Option<bool>,
    pub value: Option<&'a [u8]>,
}

/// The operations, with their tag numbers. `Debug` writes the RFC's names.
#[derive(Clone, Copy, Debug, PartialEq)]
pub enum Operation {
    BindRequest,
    BindResponse,
    UnbindRequest,
    SearchRequest,
    SearchResultEntry,
    SearchResultDone,
    ModifyRequest,
    ModifyResponse,
    AddRequest,
    AddResponse,
    DelRequest,
    DelResponse,
    ModifyDNRequest,
    ModifyDNResponse,
    CompareRequest,
    CompareResponse,
    AbandonRequest,
    SearchResultReference = 19,
    ExtendedRequest = 23,
    ExtendedResponse,
    IntermediateResponse,
}

/// The names, texts and values of an operation, without passwords.
#[derive(Drop)]
pub enum Content<'a> {
    Nothing,
    Name(&'a [u8]),
    Rename {
        name: &'a [u8],
        new_name: &'a [u8],
    },
    /// A search.
    Search(Search<'a>),
    /// An entry that was found or is to be added.
    Entry {
        name: &'a [u8],
        attributes: Vec<Attribute<'a>>,
    },
    /// An entry and its changes.
    Modification {
        name: &'a [u8],
        changes: Vec<Change<'a>>,
    },
    Comparison {
        name: &'a [u8],
        attribute: &'a [u8],
        value: &'a [u8],
    },
    References(Vec<&'a [u8]>),
    /// The result in a response (RFC 4511 4.1.9).
    Result {
        code: u64,
        matched_name: &'a [u8],
        diagnostic_message: &'a [u8],
        /// Other servers for the operation, if the field is there.
        referral: Option<Vec<&'a [u8]>>,
    },
}

/// A search request (RFC 4511 4.5.1).
#[derive(Drop)]
pub struct Search<'a> {
    /// The name of the base entry.
    pub base: &'a [u8],
    pub scope: u64,
    pub aliases: u64,
    pub size_limit: u32,
    pub time_limit: u32,
    pub types_only: bool,
    /// The parts of the filter.
    pub filter: Vec<FilterPart<'a>>,
    /// The requested attributes.
    pub attributes: Vec<&'a [u8]>,
}

/// An attribute and its values (RFC 4511 4.1.7).
#[derive(Drop)]
pub struct Attribute<'a> {
    pub name: &'a [u8],
    pub values: Vec<&'a [u8]>,
}

/// A change of an attribute (RFC 4511 4.6).
#[derive(Drop)]
pub struct Change<'a> {
    pub operation: u64,
    pub attribute: Attribute<'a>,
}

impl Operation {
    /// The tag, of class application.
    pub fn tag(self) -> Tag
        ensures { result.0 ≡ number_of self }
    {
        Tag(self as u32)
    }

    /// The operation with this tag of class application.
    pub fn of_tag(tag: Tag) -> Option<Operation>
        ensures { IsOperationAt tag.0 result }
    {
        Some(match tag.0 {
            0 => Operation::BindRequest,
            1 => Operation::BindResponse,
            2 => Operation::UnbindRequest,
            3 => Operation::SearchRequest,
            4 => Operation::SearchResultEntry,
            5 => Operation::SearchResultDone,
            6 => Operation::ModifyRequest,
            7 => Operation::ModifyResponse,
            8 => Operation::AddRequest,
            9 => Operation::AddResponse,
            10 => Operation::DelRequest,
            11 => Operation::DelResponse,
            12 => Operation::ModifyDNRequest,
            13 => Operation::ModifyDNResponse,
            14 => Operation::CompareRequest,
            15 => Operation::CompareResponse,
            16 => Operation::AbandonRequest,
            19 => Operation::SearchResultReference,
            23 => Operation::ExtendedRequest,
            24 => Operation::ExtendedResponse,
            25 => Operation::IntermediateResponse,
            _ => return None,
        })
    }
}
