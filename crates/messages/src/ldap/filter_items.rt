//! Filters without inner filters (RFC 4511 4.5.1.7).
ghost use Rattle.std.specs.Prelude.{◌≡◌, true};
ghost use Rattle.der_cursor.specs.Formats.{Boolean, Choice, Implicit, Never, NoMemory, OctetString, Optional};
ghost use Rattle.der_cursor.specs.Formats.{ReadsField, Required, TellsNext};
ghost use Rattle.messages.specs.Ldap.Filters.{AnyPieces, ItemType, PieceType, Pieces};
ghost use Rattle.messages.specs.Ldap.Filters.{in_order, may_stand, option_now, part_of, piece_of, pieces_of};
ghost use Rattle.messages.specs.declared.ldap.filter.ItemKind.{ItemKind};

use crate::ldap::filter::{FilterPart, Piece, Place, Relation};
use crate::ldap::items::pass_over;
use der_base::error::BerError;
use der_base::header::{Class, Tag};
use der_cursor::{Cursor, ReadError};
use std::alloc::Global;

/// The result of reading a field.
type Read<T> = Result<T, ReadError<BerError>>;

/// Reads an attribute and the value to compare it with.
pub fn read_comparison<'a>(
    alloc: Global,
    list: &mut Cursor<'a>,
    relation: Relation,
) -> Read<FilterPart<'a>>
    ensures { ReadsField (Required (ItemType (ItemKind.Comparison relation))) part_of NoMemory
        list.old result list.new }
{
    let mut fields = list.open(Class::ContextSpecific, true, relation.tag())?;
    let attribute = fields.octets()?;
    let value = fields.octets()?;
    pass_over(alloc, fields)?;
    Ok(FilterPart::Comparison {
        relation,
        attribute,
        value,
    })
}

/// Reads an attribute that an entry must have.
pub fn read_present<'a>(list: &mut Cursor<'a>) -> Read<FilterPart<'a>>
    ensures { ReadsField (Required (ItemType ItemKind.Present)) part_of NoMemory list.old result list.new }
{
    let attribute = read_tagged(list, 7)?;
    Ok(FilterPart::Present(attribute))
}

/// Reads an attribute and the pieces of its value.
pub fn read_substrings<'a>(alloc: Global, list: &mut Cursor<'a>) -> Read<FilterPart<'a>>
    ensures { ReadsField (Required (ItemType ItemKind.Substrings)) part_of NoMemory list.old result list.new }
{
    let mut fields = list.open(Class::ContextSpecific, true, Tag(4))?;
    let attribute = fields.octets()?;
    let pieces = read_pieces(alloc, &mut fields)?;
    pass_over(alloc, fields)?;
    Ok(FilterPart::Substrings { attribute, pieces })
}

/// Reads a match by a matching rule.
pub fn read_extensible<'a>(alloc: Global, list: &mut Cursor<'a>) -> Read<FilterPart<'a>>
    ensures { ReadsField (Required (ItemType ItemKind.Extensible)) part_of NoMemory list.old result list.new }
{
    let mut fields = list.open(Class::ContextSpecific, true, Tag(9))?;
    let rule = read_optional(&mut fields, 1)?;
    let attribute = read_optional(&mut fields, 2)?;
    let value = read_tagged(&mut fields, 3)?;
    let name_attributes = read_flag(&mut fields, 4)?;
    pass_over(alloc, fields)?;
    Ok(FilterPart::Extensible {
        rule,
        attribute,
        value,
        name_attributes,
    })
}

/// Reads a text under an implicit tag.
fn read_tagged<'a>(list: &mut Cursor<'a>, number: u32) -> Read<&'a [u8]>
    ensures { ReadsField (Required (Implicit number OctetString)) (λ x. x.now) Never list.old result list.new }
{
    list.implicit(number).octets()
}

/// Reads a text under an implicit tag, if it is next.
fn read_optional<'a>(list: &mut Cursor<'a>, number: u32) -> Read<Option<&'a [u8]>>
    ensures { ReadsField (Optional (Implicit number OctetString)) option_now Never list.old result list.new }
{
    list.implicit(number).optional_octets()
}

/// Reads a BOOLEAN under an implicit tag, if it is next.
fn read_flag(list: &mut Cursor<'_>, number: u32) -> Read<Option<bool>>
    ensures { ReadsField (Optional (Implicit number Boolean)) (λ x. x) Never list.old result list.new }
{
    list.implicit(number).optional_boolean()
}

/// Reads the pieces of a value; they must be in order.
fn read_pieces<'a>(alloc: Global, fields: &mut Cursor<'a>) -> Read<Vec<Piece<'a>>>
    ensures { ReadsField (Required Pieces) (λ x. pieces_of x.items) NoMemory fields.old result fields.new }
{
    let before = *fields;
    let pieces = read_any_pieces(alloc, fields)?;
    if !are_in_order(&pieces) {
        return Err(before.refuse(BerError::BerValueError));
    }
    Ok(pieces)
}

/// Reads pieces in any order.
fn read_any_pieces<'a>(alloc: Global, fields: &mut Cursor<'a>) -> Read<Vec<Piece<'a>>>
    ensures { ReadsField (Required AnyPieces) (λ x. pieces_of x.items) NoMemory fields.old result fields.new }
{
    fields.open_sequence()?.read_all(alloc, read_piece)
}

fn read_piece<'a>(_alloc: Global, pieces: &mut Cursor<'a>) -> Read<Piece<'a>>
    ensures { ReadsField (Choice PieceType) piece_of Never pieces.old result pieces.new }
{
    let place = next_place(*pieces)?;
    let value = read_tagged(pieces, place.number())?;
    Ok(Piece { place, value })
}

/// The position of the next piece.
fn next_place(pieces: Cursor<'_>) -> Read<Place>
    ensures { TellsNext PieceType pieces.entry result }
{
    let mut ahead = pieces;
    let tag = ahead.any()?.tag();
    Place::of_tag(tag).ok_or(pieces.refuse(BerError::UnknownTag(tag.0)))
}

/// Returns whether there are pieces, only the first may be initial, and only the last may be final.
fn are_in_order(pieces: &[Piece<'_>]) -> bool
    ensures { result ≡ in_order true (pieces_of pieces.now) }
{
    let mut left = pieces;
    let mut first = true;
    while let [piece, rest @ ..] = left {
        if !may_stand(piece.place, first, rest.is_empty()) {
            return false;
        }
        left = rest;
        first = false;
    }
    !first
}

/// Returns whether a piece may be at its position.
fn may_stand(place: Place, first: bool, last: bool) -> bool
    ensures { result ≡ may_stand place first last }
{
    match place {
        Place::Initial => first,
        Place::Any => true,
        Place::Final => last,
    }
}
