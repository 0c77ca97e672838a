//! Names: lists of sets of attributes. Each attribute is a type, which is an object identifier, and a string.
ghost use Rattle.std.specs.Prelude.{◌≡◌};
ghost use Rattle.der_uses.specs.Names.Inner.{AnswersItem, AnswersWhole};
ghost use Rattle.der_uses.specs.Names.Names.{AnswersName, AnswersSpelled, SpellsAttribute, SpellsIdentifier};
ghost use Rattle.der_uses.specs.Names.Names.{SpellsParts, SpellsSet, SpellsString};
ghost use Rattle.der_uses.specs.Names.Views.{attribute_of, attributes_of, identifier_of, name_of};
ghost use Rattle.der_parser.specs.View.{tree};

use der_parser::IResult;
use der_parser::ber::BerObject;
use der_parser::der::{
    Class, Header, Tag, der_read_element_header, parse_der_ia5string, parse_der_oid,
    parse_der_printablestring, parse_der_sequence_defined_g, parse_der_sequence_of_v,
    parse_der_set_of_v, parse_der_utf8string,
};
use der_parser::error::{BerError, BerResult, Err as Refused, ErrorKind};
use der_parser::oid::Oid;
use std::alloc::Global;

/// A distinguished name: its relative names, each with its attributes, in the order of the input.
#[derive(Debug, Drop)]
pub struct Name<'a> {
    /// The relative names. One that was an empty SET has no attributes.
    pub rdns: Vec<Vec<Attr<'a>>>,
}

/// An attribute: its type, and the string that is its value.
#[derive(Debug, Drop)]
pub struct Attr<'a> {
    /// The type.
    pub oid: Oid<'a>,
    /// The string, with its header.
    pub value: BerObject<'a>,
}

/// Reads a name by DER: a SEQUENCE OF relative names, each a SET OF attributes in ascending order (X.690 11.6). An
/// attribute is a SEQUENCE of an OBJECT IDENTIFIER and a UTF8String, PrintableString or IA5String, and nothing more.
/// Nothing of the input is copied.
///
/// SEQUENCE and SET are recognized by their tag number alone: their class and constructed bit may be any. An empty SET
/// is a relative name.
///
/// An input that isn't a name is rejected: at the outermost SEQUENCE by Error or Incomplete, inside it by Failure, and
/// by the Error Eof if octets are left in it.
pub fn read_name<'a>(alloc: Global, i: &'a [u8]) -> BerResult<'a, Name<'a>>
    ensures { AnswersName name_of i.now result }
{
    let relative_name = of_attributes(
        |i|
            ensures { AnswersItem SpellsSet attributes_of i.now result }
        { read_relative_name(alloc, i) },
    );
    match parse_der_sequence_of_v(alloc, relative_name).parse(i) {
        Ok((rest, rdns)) => return Ok((rest, Name { rdns })),
        Err(e) => return Err(e),
    }
}

/// Returns the parser. The bound says which slices the attributes borrow.
fn of_attributes<'a, F, E>(f: F) -> F
where
    F: FnMut(&'a [u8]) -> IResult<&'a [u8], Vec<Attr<'a>>, E>,
    ensures { result ≡ f }
{
    f
}

/// Reads a relative name.
fn read_relative_name<'a>(alloc: Global, i: &'a [u8]) -> BerResult<'a, Vec<Attr<'a>>>
    ensures { AnswersItem SpellsSet attributes_of i.now result }
{
    let attribute = of_attribute(
        |i|
            ensures { AnswersItem SpellsAttribute attribute_of i.now result }
        { read_attribute(alloc, i) },
    );
    parse_der_set_of_v(alloc, attribute).parse(i)
}

/// Returns the parser. The bound says which slices the attribute borrows.
fn of_attribute<'a, F, E>(f: F) -> F
where
    F: FnMut(&'a [u8]) -> IResult<&'a [u8], Attr<'a>, E>,
    ensures { result ≡ f }
{
    f
}

/// Reads an attribute.
fn read_attribute<'a>(alloc: Global, i: &'a [u8]) -> BerResult<'a, Attr<'a>>
    ensures { AnswersItem SpellsAttribute attribute_of i.now result }
{
    let parts = of_parts(|content, _| read_parts(alloc, content));
    parse_der_sequence_defined_g(parts).parse(i)
}

/// Returns the parser. The bound says which slices the attribute borrows.
fn of_parts<'a, F, E>(f: F) -> F
where
    F: FnMut(&'a [u8], Header<'a>) -> IResult<&'a [u8], Attr<'a>, E>,
    ensures { result ≡ f }
{
    f
}

/// Reads the content of an attribute.
fn read_parts<'a>(alloc: Global, i: &'a [u8]) -> BerResult<'a, Attr<'a>>
    ensures { AnswersWhole SpellsParts attribute_of i.now result }
{
    let (behind, oid) = match read_type(alloc, i) {
        Ok(read) => read,
        Err(e) => return Err(e),
    };
    let (rest, value) = match read_value(behind) {
        Ok(read) => read,
        Err(e) => return Err(e),
    };
    if !rest.is_empty() {
        return Err(Refused::Error(BerError::NomError(ErrorKind::Eof)));
    }
    Ok((rest, Attr { oid, value }))
}

/// Reads the type of an attribute.
fn read_type<'a>(alloc: Global, i: &'a [u8]) -> BerResult<'a, Oid<'a>>
    ensures { AnswersSpelled SpellsIdentifier identifier_of i.now result }
{
    let (rest, object) = match parse_der_oid(i) {
        Ok(read) => read,
        Err(e) => return Err(e),
    };
    match object.as_oid_val(alloc) {
        Ok(oid) => return Ok((rest, oid)),
        Err(e) => return Err(e),
    }
}

/// Reads the value of an attribute.
fn read_value<'a>(i: &'a [u8]) -> BerResult<'a>
    ensures { AnswersSpelled SpellsString tree i.now result }
{
    let (_, header) = match der_read_element_header(i) {
        Ok(read) => read,
        Err(e) => return Err(e),
    };
    match header.assert_class(Class::Universal) {
        Ok(()) => (),
        Err(e) => return Err(Refused::Error(e)),
    }
    match header.tag() {
        Tag::Utf8String => return parse_der_utf8string(i),
        Tag::PrintableString => return parse_der_printablestring(i),
        Tag::Ia5String => return parse_der_ia5string(i),
        _ => return Err(Refused::Error(BerError::BerTypeError)),
    }
}
