//! Reads filters, up to a depth (RFC 4511 4.5.1.7).
ghost use Rattle.std.specs.Prelude.{◌<◌, ◌≤◌, IsFalse, IsTrue, length};
ghost use Rattle.der_cursor.specs.Cursors.{octets_left};
ghost use Rattle.der_cursor.specs.Formats.{NoMemory, ReadsField, Required, TellsNext};
ghost use Rattle.messages.specs.Ldap.Filters.{Adds, AddsContent, FilterField, FilterType, ItemType, inside_content};
ghost use Rattle.messages.specs.Ldap.Filters.{IsAdded, NoFilter, filter_of, part_of};
ghost use Rattle.messages.specs.declared.ldap.filter.FilterKind.{FilterKind};
ghost use Rattle.messages.specs.declared.ldap.filter.Connective.{Connective};

use crate::ldap::filter::{Connective, FilterKind, FilterPart, ItemKind};
use crate::ldap::filter_items::{read_comparison, read_extensible, read_present, read_substrings};
use der_base::error::{BerError, Err as Refused, ErrorKind};
use der_base::header::Class;
use der_cursor::{Cursor, ReadError};
use std::alloc::Global;

/// The result of reading a field.
type Read<T> = Result<T, ReadError<BerError>>;

/// The most filters inside each other, including the outermost.
pub const DEEPEST_FILTER: usize = 32;

/// Reads the filter of a search.
pub fn read_search_filter<'a>(alloc: Global, list: &mut Cursor<'a>) -> Read<Vec<FilterPart<'a>>>
    ensures { ReadsField (FilterField 32) (λ x. filter_of x.items) NoMemory list.old result list.new }
{
    let mut parts = Vec::new(alloc);
    read_filter(alloc, list, DEEPEST_FILTER, &mut parts)?;
    Ok(parts)
}

/// Reads a filter and adds its parts.
#[cycle(filters)]
fn read_filter<'a>(
    alloc: Global,
    list: &mut Cursor<'a>,
    depth: usize,
    parts: &mut Vec<FilterPart<'a>>,
) -> Read<()>
    ensures { Adds (FilterField depth) parts.old.items parts.new.items list.old result list.new }
{
    if depth == 0 {
        return Err(list.refuse(BerError::BerMaxDepth));
    }
    let kind = next_filter(*list)?;
    match kind {
        FilterKind::Connective(connective) => {
            read_connective(alloc, list, connective, depth - 1, parts)
        }
        FilterKind::Item(item) => {
            let offset = list.offset();
            let part = read_item(alloc, list, item)?;
            add(part, offset, parts)
        }
    }
}

/// Reads the filters of a connective.
#[cycle(filters)]
fn read_connective<'a>(
    alloc: Global,
    list: &mut Cursor<'a>,
    connective: Connective,
    depth: usize,
    parts: &mut Vec<FilterPart<'a>>,
) -> Read<()>
    ensures { Adds (Required (FilterType (FilterField depth) (FilterKind.Connective connective)))
        parts.old.items parts.new.items list.old result list.new }
{
    let offset = list.offset();
    let inside = list.open(Class::ContextSpecific, true, connective.tag())?;
    add(FilterPart::Open(connective), offset, parts)?;
    read_inside(alloc, inside, connective, depth, parts)?;
    add(FilterPart::Close, offset, parts)
}

/// Reads the inner filters of a filter.
#[cycle(filters)]
fn read_inside<'a>(
    alloc: Global,
    inside: Cursor<'a>,
    connective: Connective,
    depth: usize,
    parts: &mut Vec<FilterPart<'a>>,
) -> Read<()>
    ensures { AddsContent (inside_content (FilterField depth) connective)
        parts.old.items parts.new.items inside.entry result }
{
    match connective {
        Connective::Not => {
            let mut rest = inside;
            read_filter(alloc, &mut rest, depth, parts)?;
            rest.end()
        }
        _ => read_filters(alloc, inside, depth, parts),
    }
}

/// Reads filters to the end and adds their parts.
#[cycle(filters)]
fn read_filters<'a>(
    alloc: Global,
    inside: Cursor<'a>,
    depth: usize,
    parts: &mut Vec<FilterPart<'a>>,
) -> Read<()>
    ensures { AddsContent (inside_content (FilterField depth) Connective.And)
        parts.old.items parts.new.items inside.entry result }
{
    let mut rest = inside;
    'filters: while !rest.is_empty() {
        let before = rest;
        read_filter(alloc, &mut rest, depth, parts)?;
        if is_stuck(before, rest) {
            return Err(before.refuse(BerError::NomError(ErrorKind::Many0)));
        }
    }
    Ok(())
}

/// Returns whether a reader consumed no octets.
fn is_stuck(before: Cursor<'_>, after: Cursor<'_>) -> bool
    ensures stuck { IsTrue result → length (octets_left before.entry) ≤ length (octets_left after.entry) }
    ensures goes_on { IsFalse result → length (octets_left after.entry) < length (octets_left before.entry) }
{
    after.remaining().len() >= before.remaining().len()
}

/// The kind of the next filter.
fn next_filter(list: Cursor<'_>) -> Read<FilterKind>
    ensures { TellsNext (FilterType NoFilter) list.entry result }
{
    let mut ahead = list;
    let tag = ahead.any()?.tag();
    FilterKind::of_tag(tag).ok_or(list.refuse(BerError::UnknownTag(tag.0)))
}

/// Reads a filter without inner filters.
fn read_item<'a>(alloc: Global, list: &mut Cursor<'a>, item: ItemKind) -> Read<FilterPart<'a>>
    ensures { ReadsField (Required (ItemType item)) part_of NoMemory list.old result list.new }
{
    match item {
        ItemKind::Comparison(relation) => read_comparison(alloc, list, relation),
        ItemKind::Substrings => read_substrings(alloc, list),
        ItemKind::Present => read_present(list),
        ItemKind::Extensible => read_extensible(alloc, list),
    }
}

/// Adds a part.
fn add<'a>(part: FilterPart<'a>, offset: usize, parts: &mut Vec<FilterPart<'a>>) -> Read<()>
    ensures { IsAdded part.entry parts.old.items result parts.new.items }
{
    if parts.push(part).is_err() {
        return Err(ReadError {
            offset,
            list_end: None,
            reason: Refused::OutOfMemory,
        });
    }
    Ok(())
}
