//! Writes fields that a cursor read, for C. The cursor moves after the field, or stays if there is a fault.
ghost use Rattle.std.specs.Prelude.{◌≡◌, ◌∷◌, MatchResult, Result, pos};
ghost use Rattle.c_values.specs.Cursors.{DecodesFound, Finishes, IsAny, IsBit, IsBits, IsIdentifier, IsInner, IsNull};
ghost use Rattle.c_values.specs.Cursors.{IsOctets, IsTime, RefusesAtStart, TestsUnusedBits, end_fault};
ghost use Rattle.c_values.specs.Cursors.{refused_at_start, unused_bits_tests};
ghost use Rattle.der_base.specs.declared.error.Error.{Error as BerError};
ghost use Rattle.der_base.specs.declared.rules.Rules.{Rules};
ghost use Rattle.der_base.specs.LeafRefusal.{IsFirstRefusal, NoneHolds};
ghost use Rattle.der_base.specs.Numbers.{signed, unsigned};
ghost use Rattle.der_base.specs.Refusal.{refusal};
ghost use Rattle.der_cursor.specs.declared.error.ReadError.{ReadError};
ghost use Rattle.der_cursor.specs.declared.cursor.Cursor.{Cursor};
ghost use Rattle.der_values.specs.Kinds.{enumerated_numbers, integers, numbers};

use crate::any::{DmAny, any_fields};
use crate::cursor::{DmCursor, advance, moved_fault};
use crate::element::bit;
use crate::fault::{DmFault, no_fault};
use crate::octets::DmOctets;
use crate::parts::{DmBits, bits, identifier_octets};
use crate::time::{DmTime, time_fields};
use der_base::any::Any;
use der_base::error::{BerError, DerConstraint, Err as Refused};
use der_base::header::Tag;
use der_base::rules::Rules;
use der_base::time::ASN1DateTime;
use der_cursor::{Cursor, ReadError};
use der_values::{BitString, ObjectIdentifier, read_enumerated, read_i64, read_integer, read_u64};

/// Writes a BOOLEAN and moves after it; or returns the fault.
pub fn finish_bool<'a>(
    cursor: &mut DmCursor<'a>,
    after: Cursor<'a>,
    found: Result<bool, ReadError<BerError>>,
    value: &mut u8,
) -> DmFault
    ensures { Finishes IsBit cursor.old after.entry found cursor.new value.old value.new result }
{
    match found {
        Ok(found) => {
            *value = bit(found);
            advance(cursor, after);
            no_fault()
        }
        Err(e) => moved_fault(cursor, e),
    }
}

/// Writes octets and moves after them; or returns the fault.
pub fn finish_octets<'a>(
    cursor: &mut DmCursor<'a>,
    after: Cursor<'a>,
    found: Result<&'a [u8], ReadError<BerError>>,
    octets: &mut DmOctets<'a>,
) -> DmFault
    ensures { Finishes IsOctets cursor.old after.entry found.entry cursor.new octets.old octets.new result }
{
    match found {
        Ok(found) => {
            octets.octets = found;
            advance(cursor, after);
            no_fault()
        }
        Err(e) => moved_fault(cursor, e),
    }
}

/// Writes an OBJECT IDENTIFIER and moves after it; or returns the fault.
pub fn finish_oid<'a>(
    cursor: &mut DmCursor<'a>,
    after: Cursor<'a>,
    found: Result<ObjectIdentifier<'a>, ReadError<BerError>>,
    octets: &mut DmOctets<'a>,
) -> DmFault
    ensures { Finishes IsIdentifier cursor.old after.entry found.entry cursor.new octets.old octets.new result }
{
    match found {
        Ok(found) => {
            octets.octets = identifier_octets(found);
            advance(cursor, after);
            no_fault()
        }
        Err(e) => moved_fault(cursor, e),
    }
}

/// The octets of an INTEGER at the start of an input. Also in BER they must be the fewest (X.690 8.3.1, 8.3.2);
/// `Cursor::integer` takes any, as der-parser does.
pub fn exact_integer<'a>(
    found: Result<&'a [u8], ReadError<BerError>>,
) -> Result<&'a [u8], ReadError<BerError>>
    ensures { DecodesFound (λ v. v.now) (integers Rules.Der) found.entry result }
{
    match found {
        Ok(octets) => at_start(read_integer(Rules::Der, octets)),
        Err(e) => Err(e),
    }
}

/// The number from 0 to 2^64-1 of an INTEGER, whose octets must be the fewest.
pub fn exact_u64(found: Result<&[u8], ReadError<BerError>>) -> Result<u64, ReadError<BerError>>
    ensures { DecodesFound pos (numbers Rules.Der (unsigned 64)) found.entry result }
{
    match found {
        Ok(octets) => at_start(read_u64(Rules::Der, octets)),
        Err(e) => Err(e),
    }
}

/// The number from -2^63 to 2^63-1 of an INTEGER, whose octets must be the fewest.
pub fn exact_i64(found: Result<&[u8], ReadError<BerError>>) -> Result<i64, ReadError<BerError>>
    ensures { DecodesFound (λ v. v) (numbers Rules.Der (signed 64)) found.entry result }
{
    match found {
        Ok(octets) => at_start(read_i64(Rules::Der, octets)),
        Err(e) => Err(e),
    }
}

/// The number from 0 to 2^64-1 of an ENUMERATED that was read as an INTEGER (X.690 8.4). Its octets must be the fewest.
pub fn exact_enumerated(
    found: Result<&[u8], ReadError<BerError>>,
) -> Result<u64, ReadError<BerError>>
    ensures { DecodesFound (λ v. v) (enumerated_numbers Rules.Der) found.entry result }
{
    match found {
        Ok(octets) => at_start(read_enumerated(Rules::Der, octets)),
        Err(e) => Err(e),
    }
}

/// The value of content octets, or their error at the start of an input.
fn at_start<T>(value: Result<T, BerError>) -> Result<T, ReadError<BerError>>
    ensures { RefusesAtStart value result }
{
    match value {
        Ok(value) => Ok(value),
        Err(e) => Err(refused_at_start(e)),
    }
}

/// An error at the start of an input.
fn refused_at_start(e: BerError) -> ReadError<BerError>
    ensures { result ≡ refused_at_start e }
{
    ReadError {
        offset: 0,
        list_end: None,
        reason: Refused::Error(e),
    }
}

/// Bits at the start of an input, or the error of their unused bits.
pub fn with_unused_bits_tested<'a>(
    found: Result<BitString<'a>, ReadError<BerError>>,
) -> Result<BitString<'a>, ReadError<BerError>>
    ensures { TestsUnusedBits found.entry result }
{
    match found {
        Ok(bits) => match check_unused_bits(bits) {
            Ok(()) => Ok(bits),
            Err(e) => Err(refused_at_start(e)),
        },
        Err(e) => Err(e),
    }
}

/// Checks that at most seven bits are unused (X.690 8.6.2.2), and none of no octets (8.6.2.3). By BER, `read_bits`
/// takes any number, as der-parser does.
fn check_unused_bits(bits: BitString<'_>) -> Result<(), BerError>
    ensures { MatchResult result
        (λ _. NoneHolds (unused_bits_tests (bits.entry.unused ∷ bits.entry.octets.now)))
        (λ e. IsFirstRefusal (unused_bits_tests (bits.entry.unused ∷ bits.entry.octets.now)) (refusal e)) }
{
    if bits.unused > 7 {
        return Err(BerError::invalid_value(Tag::BitString, "More than 7 unused bits"));
    }
    if bits.octets.is_empty() && bits.unused != 0 {
        return Err(BerError::DerConstraintFailed(DerConstraint::UnusedBitsNotZero));
    }
    Ok(())
}

/// Writes a BIT STRING and moves after it; or returns the fault.
pub fn finish_bits<'a>(
    cursor: &mut DmCursor<'a>,
    after: Cursor<'a>,
    found: Result<BitString<'a>, ReadError<BerError>>,
    value: &mut DmBits<'a>,
) -> DmFault
    ensures { Finishes IsBits cursor.old after.entry found.entry cursor.new value.old value.new result }
{
    match found {
        Ok(found) => {
            *value = bits(found);
            advance(cursor, after);
            no_fault()
        }
        Err(e) => moved_fault(cursor, e),
    }
}

/// Writes the cursor over an opened content and moves after it; or returns the fault.
pub fn finish_opening<'a>(
    cursor: &mut DmCursor<'a>,
    after: Cursor<'a>,
    found: Result<Cursor<'a>, ReadError<BerError>>,
    inner: &mut DmCursor<'a>,
) -> DmFault
    ensures { Finishes (IsInner cursor.old) cursor.old after.entry found.entry cursor.new inner.old inner.new result }
{
    match found {
        Ok(found) => {
            *inner = inner_cursor(cursor, found);
            advance(cursor, after);
            no_fault()
        }
        Err(e) => moved_fault(cursor, e),
    }
}

/// A cursor over the content of the next element.
fn inner_cursor<'a>(cursor: &DmCursor<'a>, inner: Cursor<'a>) -> DmCursor<'a>
    ensures { IsInner cursor.now inner.entry result }
{
    DmCursor {
        left: inner.remaining(),
        offset: cursor.offset.saturating_add(inner.offset()),
        rules: cursor.rules,
        is_inside: 1,
        implicit: 0,
        number: 0,
    }
}

/// Writes a time and moves after it; or returns the fault.
pub fn finish_time<'a>(
    cursor: &mut DmCursor<'a>,
    after: Cursor<'a>,
    found: Result<ASN1DateTime, ReadError<BerError>>,
    time: &mut DmTime,
) -> DmFault
    ensures { Finishes IsTime cursor.old after.entry found cursor.new time.old time.new result }
{
    match found {
        Ok(found) => {
            *time = time_fields(found);
            advance(cursor, after);
            no_fault()
        }
        Err(e) => moved_fault(cursor, e),
    }
}

/// Moves after a NULL, or returns the fault.
pub fn finish_null<'a>(
    cursor: &mut DmCursor<'a>,
    after: Cursor<'a>,
    found: Result<(), ReadError<BerError>>,
) -> DmFault
    ensures { Finishes IsNull cursor.old after.entry found cursor.new tt tt result }
{
    match found {
        Ok(()) => {
            advance(cursor, after);
            no_fault()
        }
        Err(e) => moved_fault(cursor, e),
    }
}

/// Writes an element and moves after it; or returns the fault.
pub fn finish_any<'a>(
    cursor: &mut DmCursor<'a>,
    after: Cursor<'a>,
    found: Result<Any<'a>, ReadError<BerError>>,
    element: &mut DmAny<'a>,
) -> DmFault
    ensures { Finishes IsAny cursor.old after.entry found.entry cursor.new element.old element.new result }
{
    match found {
        Ok(found) => {
            *element = any_fields(&found);
            advance(cursor, after);
            no_fault()
        }
        Err(e) => moved_fault(cursor, e),
    }
}

/// The fault of a list with octets left over.
pub fn end_fault(cursor: &DmCursor<'_>, found: Result<(), ReadError<BerError>>) -> DmFault
    ensures { result ≡ end_fault cursor.now found }
{
    match found {
        Ok(()) => no_fault(),
        Err(e) => moved_fault(cursor, e),
    }
}
