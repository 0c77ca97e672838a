//! Names of clients and servers (RFC 4120 5.2.2).
ghost use Rattle.std.specs.Option.{option_map};
ghost use Rattle.der_cursor.specs.Formats.{Never, NoMemory, Only, OptionalTagged, ReadsContent, ReadsField, Required};
ghost use Rattle.messages.specs.Kerberos.Requests.{KerberosString, NameFields, PrincipalName, name_of};

use crate::kerberos::fields::{open_last, open_sequence_alone, read_name_kind};
use der_base::error::BerError;
use der_base::header::Class;
use der_cursor::{Cursor, ReadError};
use std::alloc::Global;

/// The components of a name (RFC 4120 5.2.2).
#[derive(Drop)]
pub struct Principal<'a>(pub Vec<&'a str>);

/// Reads a name under this tag, if it is next.
pub(crate) fn read_principal<'a>(
    alloc: Global,
    body: &mut Cursor<'a>,
    number: u8,
) -> Result<Option<Principal<'a>>, ReadError<BerError>>
    ensures { ReadsField (OptionalTagged number (Only (Required PrincipalName))) (λ x. option_map name_of x) NoMemory
        body.old result body.new }
{
    match body.open_tagged(number)? {
        Some(field) => Ok(Some(read_last_name(alloc, field)?)),
        None => Ok(None),
    }
}

fn read_last_name<'a>(
    alloc: Global,
    field: Cursor<'a>,
) -> Result<Principal<'a>, ReadError<BerError>>
    ensures { ReadsContent (Only (Required PrincipalName)) name_of NoMemory field.entry result }
{
    let fields = open_sequence_alone(field)?;
    read_name(alloc, fields)
}

fn read_name<'a>(
    alloc: Global,
    mut fields: Cursor<'a>,
) -> Result<Principal<'a>, ReadError<BerError>>
    ensures { ReadsContent NameFields name_of NoMemory fields.entry result }
{
    read_name_kind(&mut fields)?;
    let texts = open_last(fields, Class::ContextSpecific, 1)?;
    let components = texts.read_all(alloc, read_text)?;
    Ok(Principal(components))
}

fn read_text<'a>(_alloc: Global, texts: &mut Cursor<'a>) -> Result<&'a str, ReadError<BerError>>
    ensures { ReadsField (Required KerberosString) (λ t. t.now) Never texts.old result texts.new }
{
    texts.general_string()
}
