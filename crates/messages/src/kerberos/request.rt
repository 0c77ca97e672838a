//! Requests for tickets (RFC 4120 5.4.1).
ghost use Rattle.der_base.specs.declared.rules.Rules.{Rules};
ghost use Rattle.der_cursor.specs.Formats.{Explicit, Never, NoMemory, NoMemoryIn, Only, ReadsContent, ReadsField};
ghost use Rattle.der_cursor.specs.Formats.{ReadsNamedInput, ReadsWhole, Required};
ghost use Rattle.messages.specs.Kerberos.Requests.{AsReq, BodyFields, Int32, Kinds, PassedFields, RequestFields};
ghost use Rattle.messages.specs.Kerberos.Requests.{TicketFields, Times as TimesFormat, body_of, request_of, ticket_of};

use crate::kerberos::fields::{
    check_number, open_field, open_last, open_sequence_alone, read_nonce, read_options, read_realm,
    read_till, read_time,
};
use crate::kerberos::name::{Principal, read_principal};
use der_base::error::BerError;
use der_base::header::{Class, Tag};
use der_base::time::ASN1DateTime;
use der_cursor::{Cursor, FieldError, Named, ReadError};
use std::alloc::Global;

/// The version of the protocol, pvno (RFC 4120 5.4.1).
const VERSION: u32 = 5;

/// The message type of an AS-REQ, also its tag number (RFC 4120 5.4.1).
const AS_REQ: u32 = 10;

/// A request for a ticket. Texts are slices of the input.
#[derive(Drop)]
pub struct Request<'a> {
    pub client: Option<Principal<'a>>,
    pub realm: &'a str,
    pub server: Option<Principal<'a>>,
    pub from: Option<ASN1DateTime>,
    pub till: ASN1DateTime,
    pub renewable_till: Option<ASN1DateTime>,
    /// The encryption types, the preferred one first.
    pub encryption_kinds: Vec<i32>,
}

/// Reads an AS-REQ. Trailing data is an error. Incomplete iff the input ends within the request.
pub fn read_request<'a>(alloc: Global, octets: &'a [u8]) -> Result<Request<'a>, FieldError>
    ensures { ReadsNamedInput Rules.Der AsReq request_of NoMemoryIn octets.now result }
{
    match read_whole_request(alloc, octets) {
        Ok(request) => Ok(request),
        Err(e) => {
            let input = Cursor::new(octets);
            Err(e.of_element(input, Class::Application, true, Tag(AS_REQ)))
        }
    }
}

fn read_whole_request<'a>(alloc: Global, octets: &'a [u8]) -> Result<Request<'a>, FieldError>
    ensures { ReadsWhole (Only (Required AsReq) Rules.Der octets.now) request_of NoMemoryIn result }
{
    let input = Cursor::new(octets);
    let fields = open_last(input, Class::Application, AS_REQ).named("AS-REQ")?;
    read_message(alloc, fields)
}

fn read_message<'a>(alloc: Global, mut fields: Cursor<'a>) -> Result<Request<'a>, FieldError>
    ensures { ReadsContent RequestFields request_of NoMemoryIn fields.entry result }
{
    check_number(&mut fields, 1, VERSION).named("pvno")?;
    check_number(&mut fields, 2, AS_REQ).named("msg-type")?;
    // The pre-authentication data isn't read.
    fields.open_tagged(3).named("padata")?;
    let body = open_last(fields, Class::ContextSpecific, 4).named("req-body")?;
    read_body(alloc, body)
}

fn read_body<'a>(alloc: Global, mut body: Cursor<'a>) -> Result<Request<'a>, FieldError>
    ensures { ReadsContent BodyFields body_of NoMemoryIn body.entry result }
{
    let request = read_ticket(alloc, &mut body).named("req-body")?;
    end_body(body).named("req-body")?;
    Ok(request)
}

/// Reads the fields of the requested ticket.
fn read_ticket<'a>(alloc: Global, body: &mut Cursor<'a>) -> Result<Request<'a>, FieldError>
    ensures { ReadsField TicketFields ticket_of NoMemoryIn body.old result body.new }
{
    read_options(body).named("kdc-options")?;
    let client = read_principal(alloc, body, 1).named("cname")?;
    let realm = read_realm(body).named("realm")?;
    let server = read_principal(alloc, body, 3).named("sname")?;
    let (from, till, renewable_till) = read_times(body)?;
    read_nonce(body).named("nonce")?;
    let encryption_kinds = read_kinds(alloc, body).named("etype")?;
    Ok(Request {
        client,
        realm,
        server,
        from,
        till,
        renewable_till,
        encryption_kinds,
    })
}

/// `from`, `till` and `rtime`; the first and the last may be absent.
type Times = (Option<ASN1DateTime>, ASN1DateTime, Option<ASN1DateTime>);

/// Reads the times of the ticket: `from`, `till` and `rtime`.
fn read_times(body: &mut Cursor<'_>) -> Result<Times, FieldError>
    ensures { ReadsField TimesFormat (λ x. (x.0, (x.1, x.2))) Never body.old result body.new }
{
    let from = read_time(body, 4).named("from")?;
    let till = read_till(body).named("till")?;
    let renewable_till = read_time(body, 6).named("rtime")?;
    Ok((from, till, renewable_till))
}

fn read_kinds(alloc: Global, body: &mut Cursor<'_>) -> Result<Vec<i32>, ReadError<BerError>>
    ensures { ReadsField (Required (Explicit 8 (Required Kinds))) (λ v. v.items) NoMemory
        body.old result body.new }
{
    let field = open_field(body, 8)?;
    let kinds = open_sequence_alone(field)?;
    kinds.read_all(alloc, read_kind)
}

fn read_kind(_alloc: Global, kinds: &mut Cursor<'_>) -> Result<i32, ReadError<BerError>>
    ensures { ReadsField (Required Int32) (λ n. n) Never kinds.old result kinds.new }
{
    kinds.i32()
}

/// Skips the fields up to the end: addresses, authorization data and additional tickets.
fn end_body(mut body: Cursor<'_>) -> Result<(), ReadError<BerError>>
    ensures { ReadsContent PassedFields (λ _. (tt, (tt, (tt, tt)))) Never body.entry result }
{
    body.open_tagged(9)?;
    body.open_tagged(10)?;
    body.open_tagged(11)?;
    body.end()
}
