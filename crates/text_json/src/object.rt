//! An element as an object of JSON.
ghost use Rattle.std.specs.Prelude.{◌≡◌, IfOk, OnOk, option_map, string_bytes};
ghost use Rattle.hex.specs.Hex.{encode_lower};
ghost use Rattle.text_json.specs.Json.{AddsJson, HasMembers, HasOctets, IsFrom, IsHeadOf, IsJsonOf, IsObjectOf};
ghost use Rattle.text_json.specs.Json.{IsOutlineOf, IsSecretOf, IsWholeOf, class_word};
ghost use Rattle.der_print.specs.Names.{table_of};
ghost use Rattle.der_print.specs.Texts.{content_of};
ghost use Rattle.der_elements.specs.TypeNames.{type_text};
ghost use Rattle.der_elements.specs.Walked.{visited_of};

use crate::members::{Members, members_of};
use der_base::header::Class;
use der_elements::Element;
use der_print::{Hex, Limit};
use oid_names::OwnNames;
use serde_json::Value;
use std::alloc::{AllocError, Global};
use std::io;
use std::io::{ErrorKind, Write};

/// The source of an element, and the members to write of it.
#[derive(Clone, Copy)]
pub struct Source<'a> {
    /// The file name, if there are several files.
    pub file: Option<&'a str>,
    /// The number of the block, if the file has blocks.
    pub block: Option<usize>,
    /// The label of the block, as printed.
    pub label: Option<&'a str>,
    /// The path to the element, as in errors.
    pub path: &'a str,
    /// The name of the element's field, if a type has one.
    pub field: Option<&'a str>,
    /// The path to the element by field names, if a type names the input.
    pub field_path: Option<&'a str>,
    /// The octets of the element, if requested.
    pub octets: Option<&'a [u8]>,
}

/// An element as an object of JSON.
#[derive(Drop)]
pub struct Object<'a> {
    pub file: Option<&'a str>,
    pub block: Option<usize>,
    pub label: Option<&'a str>,
    pub offset: usize,
    pub depth: usize,
    pub header: usize,
    pub length: Option<usize>,
    pub class: &'static str,
    pub tag: u32,
    pub constructed: bool,
    pub kind: String,
    pub path: &'a str,
    pub field: Option<&'a str>,
    pub field_path: Option<&'a str>,
    /// True if the content is secret and so left out, else None.
    pub secret: Option<bool>,
    pub value: Value,
    pub bits: Option<usize>,
    pub time: Option<String>,
    pub name: Option<&'a str>,
    pub fault: Option<String>,
    pub octets: Option<String>,
}

/// Writes an element as a line of JSON. `own` names an OBJECT IDENTIFIER before the built-in table does.
pub fn write_json<'n, W: Write>(
    alloc: Global,
    source: Source<'_>,
    element: &Element<'_>,
    own: Option<&'n OwnNames<'n>>,
    out: &mut W,
) -> io::Result<()>
    ensures { OnOk result (AddsJson
        (IsWholeOf source.entry (table_of own.entry) (visited_of element.now) (content_of element.now))
        (W.contents out.old) (W.contents out.new)) }
{
    let object = object_of(alloc, source, element, own)?;
    write_object(alloc, &object, out)
}

/// Writes a secret element as a line of JSON: with the member `secret`, without its value and octets.
pub fn write_secret<W: Write>(
    alloc: Global,
    source: Source<'_>,
    element: &Element<'_>,
    out: &mut W,
) -> io::Result<()>
    ensures { OnOk result (AddsJson (IsSecretOf source.entry (visited_of element.now))
        (W.contents out.old) (W.contents out.new)) }
{
    let object = outline_of(alloc, source, element)?;
    write_object(alloc, &object, out)
}

/// Writes an object as a line.
fn write_object<W: Write>(alloc: Global, object: &Object<'_>, out: &mut W) -> io::Result<()>
    ensures { OnOk result (AddsJson (λ o. o ≡ object.now) (W.contents out.old) (W.contents out.new)) }
{
    let text = json_of(alloc, object)?;
    out.write_all(text.as_bytes())?;
    out.write_all(b"\n")
}

/// The text of an object, on one line.
fn json_of(alloc: Global, object: &Object<'_>) -> io::Result<String>
    ensures { IfOk result (λ text. IsJsonOf object.now (string_bytes text)) }
{
    match serde_json::to_string(alloc, object) {
        Ok(text) => Ok(text),
        Err(_) => Err(io::Error::from(ErrorKind::OutOfMemory)),
    }
}

/// An element as an object.
fn object_of<'a>(
    alloc: Global,
    source: Source<'a>,
    element: &Element<'_>,
    own: Option<&'a OwnNames<'a>>,
) -> Result<Object<'a>, AllocError>
    ensures element { IfOk result
        (IsObjectOf (table_of own.entry) (visited_of element.now) (content_of element.now)) }
    ensures source { IfOk result (IsFrom source.entry) }
    ensures octets { IfOk result (HasOctets source.entry) }
{
    let octets = hex_of(alloc, source.octets)?;
    let members = members_of(alloc, element, own)?;
    object_with(alloc, source, element, members, octets, None)
}

/// A secret element as an object.
fn outline_of<'a>(
    alloc: Global,
    source: Source<'a>,
    element: &Element<'_>,
) -> Result<Object<'a>, AllocError>
    ensures element { IfOk result (IsOutlineOf (visited_of element.now)) }
    ensures source { IfOk result (IsFrom source.entry) }
{
    let members = Members {
        value: Value::Null,
        bits: None,
        time: None,
        name: None,
        fault: None,
    };
    object_with(alloc, source, element, members, None, Some(true))
}

/// The object of an element with these members, octets and mark of secrecy.
fn object_with<'a>(
    alloc: Global,
    source: Source<'a>,
    element: &Element<'_>,
    members: Members<'a>,
    octets: Option<String>,
    secret: Option<bool>,
) -> Result<Object<'a>, AllocError>
    ensures head { IfOk result (IsHeadOf (visited_of element.now)) }
    ensures source { IfOk result (IsFrom source.entry) }
    ensures members { IfOk result (HasMembers members.entry) }
    ensures octets { IfOk result (λ o. o.octets ≡ octets) }
    ensures secret { IfOk result (λ o. o.secret ≡ secret) }
{
    let kind = kind_of(alloc, element)?;
    let Members {
        value,
        bits,
        time,
        name,
        fault,
    } = members;
    Ok(Object {
        file: source.file,
        block: source.block,
        label: source.label,
        offset: element.offset,
        depth: element.depth,
        header: element.header,
        length: element.length,
        class: class_name(element.class),
        tag: element.number,
        constructed: element.constructed,
        kind,
        path: source.path,
        field: source.field,
        field_path: source.field_path,
        secret,
        value,
        bits,
        time,
        name,
        fault,
        octets,
    })
}

/// The name of the type or tag of an element.
fn kind_of(alloc: Global, element: &Element<'_>) -> Result<String, AllocError>
    ensures { IfOk result (λ kind. string_bytes kind ≡ type_text element.now.class element.now.number) }
{
    format!(in alloc; "{}", element.name())
}

/// Octets in hexadecimal, if there are any.
fn hex_of(alloc: Global, octets: Option<&[u8]>) -> Result<Option<String>, AllocError>
    ensures { IfOk result (λ digits. option_map string_bytes digits
        ≡ option_map (λ w. encode_lower w.now) octets.entry) }
{
    match octets {
        Some(octets) => {
            let limit = Limit::Whole;
            Ok(Some(format!(in alloc; "{}", Hex { octets, limit })?))
        }
        None => Ok(None),
    }
}

/// The name of a class.
fn class_name(class: Class) -> &'static str
    ensures { result.now ≡ class_word class }
{
    match class {
        Class::Universal => "universal",
        Class::Application => "application",
        Class::ContextSpecific => "context-specific",
        Class::Private => "private",
    }
}
