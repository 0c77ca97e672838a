//! Reads messages (RFC 4511 4). Fields after those of the RFC are skipped.
ghost use Rattle.der_base.specs.declared.rules.Rules.{Rules};
ghost use Rattle.der_cursor.specs.Formats.{As, Choice, Never, NoMemoryIn, Others, ReadsContent, ReadsField, ReadsFront};
ghost use Rattle.der_cursor.specs.Formats.{Required, TellsNext};
ghost use Rattle.messages.specs.Ldap.Messages.{Assertion, BindContent, CompareContent, EntryContent};
ghost use Rattle.messages.specs.Ldap.Messages.{Message as MessageFormat, MessageContent};
ghost use Rattle.messages.specs.Ldap.Messages.{ModifyContent, ProtocolOp, ReferenceContent, RenameContent, ResultContent};
ghost use Rattle.messages.specs.Ldap.Messages.{SearchContent, list_content, message_of, nothing, parts_of};

use crate::ldap::controls::{read_controls, read_referral};
use crate::ldap::filters::read_search_filter;
use crate::ldap::items::{
    pass_over, read_attributes, read_changes, read_choice, read_text, read_texts,
};
use crate::ldap::message::{Content, Message, Operation, Search};
use der_base::error::BerError;
use der_base::header::Class;
use der_base::rules::Rules;
use der_cursor::{Cursor, FieldError, Named, ReadError};
use std::alloc::Global;

/// Reads a message and returns the octets after it. Incomplete only if the input ends within the message.
pub fn read_message<'a>(
    alloc: Global,
    octets: &'a [u8],
) -> Result<(&'a [u8], Message<'a>), FieldError>
    ensures { ReadsFront Rules.Ber MessageFormat message_of NoMemoryIn octets.now result }
{
    let mut input = Cursor::by(Rules::Ber, octets);
    let fields = input.open_sequence().named("LDAPMessage")?;
    match read_fields(alloc, fields) {
        Ok(message) => Ok((input.remaining(), message)),
        Err(refused) => Err(refused.settled()),
    }
}

fn read_fields<'a>(alloc: Global, mut fields: Cursor<'a>) -> Result<Message<'a>, FieldError>
    ensures { ReadsContent MessageContent message_of NoMemoryIn fields.entry result }
{
    let id = fields.u32().named("messageID")?;
    let (operation, content) = read_operation(alloc, &mut fields)?;
    let controls = read_controls(alloc, &mut fields).named("controls")?;
    pass_over(alloc, fields).named("extensions")?;
    Ok(Message {
        id,
        operation,
        content,
        controls,
    })
}

fn read_operation<'a>(
    alloc: Global,
    fields: &mut Cursor<'a>,
) -> Result<(Operation, Content<'a>), FieldError>
    ensures { ReadsField (Choice ProtocolOp) (λ x. (x.0, parts_of x.1)) NoMemoryIn fields.old result fields.new }
{
    let operation = next_operation(*fields).named("protocolOp")?;
    let content = read_content(alloc, operation, fields)?;
    Ok((operation, content))
}

/// Returns the operation that is next.
fn next_operation(fields: Cursor<'_>) -> Result<Operation, ReadError<BerError>>
    ensures { TellsNext ProtocolOp fields.entry result }
{
    let mut ahead = fields;
    let tag = ahead.any()?.tag();
    Operation::of_tag(tag).ok_or(fields.refuse(BerError::UnknownTag(tag.0)))
}

/// Reads an operation under its implicit tag.
fn read_content<'a>(
    alloc: Global,
    operation: Operation,
    fields: &mut Cursor<'a>,
) -> Result<Content<'a>, FieldError>
    ensures { ReadsField (Required (ProtocolOp operation)) parts_of NoMemoryIn fields.old result fields.new }
{
    match operation {
        Operation::UnbindRequest => {
            let field = fields.implicit_of(Class::Application, 2);
            field.null().named("protocolOp")?;
            Ok(Content::Nothing)
        }
        Operation::AbandonRequest => {
            let field = fields.implicit_of(Class::Application, 16);
            field.u32().named("protocolOp")?;
            Ok(Content::Nothing)
        }
        Operation::DelRequest => {
            let field = fields.implicit_of(Class::Application, 10);
            Ok(Content::Name(field.octets().named("protocolOp")?))
        }
        _ => {
            let list = fields.open(Class::Application, true, operation.tag());
            let list = list.named("protocolOp")?;
            read_list(alloc, operation, list).named("protocolOp")
        }
    }
}

/// Reads an operation that is a SEQUENCE.
fn read_list<'a>(
    alloc: Global,
    operation: Operation,
    list: Cursor<'a>,
) -> Result<Content<'a>, FieldError>
    ensures { ReadsContent (list_content operation) parts_of NoMemoryIn list.entry result }
{
    match operation {
        Operation::BindRequest => read_bind(alloc, list),
        Operation::SearchRequest => read_search(alloc, list),
        Operation::SearchResultEntry | Operation::AddRequest => read_entry(alloc, list),
        Operation::ModifyRequest => read_modification(alloc, list),
        Operation::ModifyDNRequest => read_rename(alloc, list),
        Operation::CompareRequest => read_comparison(alloc, list),
        Operation::SearchResultReference => read_references(alloc, list),
        Operation::ExtendedRequest | Operation::IntermediateResponse => read_nothing(alloc, list),
        _ => read_result(alloc, list),
    }
}

fn read_bind<'a>(alloc: Global, mut list: Cursor<'a>) -> Result<Content<'a>, FieldError>
    ensures { ReadsContent BindContent parts_of NoMemoryIn list.entry result }
{
    list.u32().named("version")?;
    let name = list.octets().named("name")?;
    read_choice(&mut list).named("authentication")?;
    pass_over(alloc, list).named("extensions")?;
    Ok(Content::Name(name))
}

fn read_search<'a>(alloc: Global, mut list: Cursor<'a>) -> Result<Content<'a>, FieldError>
    ensures { ReadsContent SearchContent parts_of NoMemoryIn list.entry result }
{
    let base = list.octets().named("baseObject")?;
    let scope = list.enumerated().named("scope")?;
    let aliases = list.enumerated().named("derefAliases")?;
    let size_limit = list.u32().named("sizeLimit")?;
    let time_limit = list.u32().named("timeLimit")?;
    let types_only = list.boolean().named("typesOnly")?;
    let filter = read_search_filter(alloc, &mut list).named("filter")?;
    let attributes = read_texts(alloc, &mut list).named("attributes")?;
    pass_over(alloc, list).named("extensions")?;
    Ok(Content::Search(Search {
        base,
        scope,
        aliases,
        size_limit,
        time_limit,
        types_only,
        filter,
        attributes,
    }))
}

fn read_entry<'a>(alloc: Global, mut list: Cursor<'a>) -> Result<Content<'a>, FieldError>
    ensures { ReadsContent EntryContent parts_of NoMemoryIn list.entry result }
{
    let name = list.octets().named("name")?;
    let attributes = read_attributes(alloc, &mut list).named("attributes")?;
    pass_over(alloc, list).named("extensions")?;
    Ok(Content::Entry { name, attributes })
}

fn read_modification<'a>(alloc: Global, mut list: Cursor<'a>) -> Result<Content<'a>, FieldError>
    ensures { ReadsContent ModifyContent parts_of NoMemoryIn list.entry result }
{
    let name = list.octets().named("object")?;
    let changes = read_changes(alloc, &mut list).named("changes")?;
    pass_over(alloc, list).named("extensions")?;
    Ok(Content::Modification { name, changes })
}

fn read_rename<'a>(alloc: Global, mut list: Cursor<'a>) -> Result<Content<'a>, FieldError>
    ensures { ReadsContent RenameContent parts_of NoMemoryIn list.entry result }
{
    let name = list.octets().named("entry")?;
    let new_name = list.octets().named("newrdn")?;
    pass_over(alloc, list).named("extensions")?;
    Ok(Content::Rename { name, new_name })
}

fn read_comparison<'a>(alloc: Global, mut list: Cursor<'a>) -> Result<Content<'a>, FieldError>
    ensures { ReadsContent CompareContent parts_of NoMemoryIn list.entry result }
{
    let name = list.octets().named("entry")?;
    let assertion = read_assertion(&mut list)?;
    pass_over(alloc, list).named("extensions")?;
    Ok(Content::Comparison {
        name,
        attribute: assertion.0,
        value: assertion.1,
    })
}

fn read_assertion<'a>(list: &mut Cursor<'a>) -> Result<(&'a [u8], &'a [u8]), FieldError>
    ensures { ReadsField (Required Assertion) (λ x. (x.0.now, (x.1.now, tt))) Never list.old result list.new }
{
    let mut fields = list.open_sequence().named("ava")?;
    let attribute = fields.octets().named("attributeDesc")?;
    let value = fields.octets().named("assertionValue")?;
    Ok((attribute, value))
}

fn read_references<'a>(alloc: Global, list: Cursor<'a>) -> Result<Content<'a>, FieldError>
    ensures { ReadsContent ReferenceContent parts_of NoMemoryIn list.entry result }
{
    let uris = list.read_all(alloc, read_text).named("uri")?;
    Ok(Content::References(uris))
}

fn read_nothing<'a>(alloc: Global, list: Cursor<'a>) -> Result<Content<'a>, FieldError>
    ensures { ReadsContent (As (λ v. nothing) Others) parts_of NoMemoryIn list.entry result }
{
    pass_over(alloc, list).named("extensions")?;
    Ok(Content::Nothing)
}

fn read_result<'a>(alloc: Global, mut list: Cursor<'a>) -> Result<Content<'a>, FieldError>
    ensures { ReadsContent ResultContent parts_of NoMemoryIn list.entry result }
{
    let code = list.enumerated().named("resultCode")?;
    let matched_name = list.octets().named("matchedDN")?;
    let diagnostic_message = list.octets().named("diagnosticMessage")?;
    let referral = read_referral(alloc, &mut list).named("referral")?;
    pass_over(alloc, list).named("extensions")?;
    Ok(Content::Result {
        code,
        matched_name,
        diagnostic_message,
        referral,
    })
}
