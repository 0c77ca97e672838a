//! Functions of the library that are passed to other functions of it by name.
ghost use Rattle.std.specs.Prelude.{◌≡◌, map, pos};
ghost use Rattle.der_parser.specs.declared.Rules.{Rules};
ghost use Rattle.der_parser.specs.declared.error.Err.TheVariants.{OutOfMemory};
ghost use Rattle.der_parser.specs.Formats.{Each, Never, NoMemory, ObjectIdentifier as Identifier, ReadsField};
ghost use Rattle.der_parser.specs.Formats.{ReadsWhole, Required, Sequence};
ghost use Rattle.der_parser.specs.Kinds.{borrowed_octets};
ghost use Rattle.der_parser.specs.Numbers.{unsigned};
ghost use Rattle.der_parser.specs.View.{tree};
ghost use Rattle.der_uses.specs.Uses.{Begins, BeginsWithElementOf, IsSequenceOf, NumberOf, TicketFields, ticket_of};

use der_parser::ber::Any;
use der_parser::cursor::{Cursor, ReadError};
use der_parser::der::{
    parse_der_integer, parse_der_sequence_of, parse_der_sequence_of_v, parse_der_u32, parse_der_u64,
};
use der_parser::error::{BerError, BerResult, IResult};
use der_parser::oid::ObjectIdentifier;
use der_parser::values::BitString;
use std::alloc::Global;

/// Some fields.
#[derive(Drop)]
pub struct Ticket<'a> {
    pub identifier: ObjectIdentifier<'a>,
    pub flags: BitString<'a>,
    pub number: u64,
    pub last: Any<'a>,
}

/// Reads field after field with the library's readers.
pub fn read_ticket(input: &[u8]) -> Result<Ticket<'_>, ReadError<BerError>>
    ensures { ReadsWhole (Begins (Required (Sequence TicketFields)) input.now) ticket_of Never result }
{
    let mut fields = Cursor::new(input).open_sequence()?;
    let identifier = fields.oid()?;
    let flags = fields.bits()?;
    let number = fields.read(parse_der_u64)?;
    let last = fields.read_last(Any::from_der)?;
    Ok(Ticket {
        identifier,
        flags,
        number,
        last,
    })
}

/// Reads a SEQUENCE OF identifiers.
pub fn read_identifiers(
    alloc: Global,
    input: &[u8],
) -> Result<Vec<ObjectIdentifier<'_>>, ReadError<BerError>>
    ensures { ReadsWhole (Begins (Required (Sequence (Each (Required Identifier)))) input.now)
        (λ v. map borrowed_octets v.items) NoMemory result }
{
    Cursor::new(input)
        .open_sequence()?
        .read_all(alloc, read_identifier)
}

fn read_identifier<'a>(
    _alloc: Global,
    list: &mut Cursor<'a>,
) -> Result<ObjectIdentifier<'a>, ReadError<BerError>>
    ensures { ReadsField (Required Identifier) borrowed_octets Never list.old result list.new }
{
    list.oid()
}

/// Reads a SEQUENCE OF numbers.
pub fn read_numbers(alloc: Global, input: &[u8]) -> IResult<&[u8], Vec<u32>, BerError>
    ensures { ReadsWhole (BeginsWithElementOf 16 (Each (NumberOf (unsigned 32)) Rules.Der) input.now)
        (λ x. (map pos x.1.items, x.0.now)) (λ e. e ≡ OutOfMemory) result }
{
    parse_der_sequence_of_v(alloc, parse_der_u32).parse(input)
}

/// Reads a SEQUENCE OF INTEGER as an object.
pub fn read_objects(alloc: Global, input: &[u8]) -> BerResult<'_>
    ensures { ReadsWhole (BeginsWithElementOf 16 (IsSequenceOf 2) input.now) (λ x. (tree x.1, x.0.now))
        (λ e. e ≡ OutOfMemory) result }
{
    parse_der_sequence_of(alloc, parse_der_integer).parse(input)
}
