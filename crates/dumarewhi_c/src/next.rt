//! Calls that read the next field of a cursor. Each returns the fault's status. If it isn't 0, the cursor and the value
//! stay.
ghost use Rattle.std.specs.Prelude.{◌≡◌, ◌≤◌, ◌↔◌, Result, pos, true};
ghost use Rattle.c_formats.specs.CursorTexts.{ReadsText};
ghost use Rattle.c_values.specs.Cursors.{Continues, IsAny, IsBit, IsBits, IsIdentifier, IsInner, IsNull, IsOctets};
ghost use Rattle.c_values.specs.Cursors.{IsSame, IsTime, ReadsField, end_fault, exact_bit_strings, rules_in};
ghost use Rattle.c_values.specs.Writers.{class_of, is_set};
ghost use Rattle.der_base.specs.declared.error.Error.{Error as BerError};
ghost use Rattle.der_base.specs.declared.rules.Rules.{Rules};
ghost use Rattle.der_base.specs.Numbers.{signed, unsigned};
ghost use Rattle.der_cursor.specs.declared.error.ReadError.{ReadError};
ghost use Rattle.der_cursor.specs.declared.cursor.Cursor.{Cursor};
ghost use Rattle.der_cursor.specs.Cursors.{EndsAt, OpensAt, OpensType, ReadsAnyAt, ReadsValue};
ghost use Rattle.der_cursor.specs.Elements.{IsNext};
ghost use Rattle.der_values.specs.Kinds.{booleans, borrowed_octets, enumerated_numbers, identifiers};
ghost use Rattle.der_values.specs.Kinds.{integers, nulls, numbers, octet_strings, times};

use c_formats::text::next_text;
use c_values::any::DmAny;
use c_values::cursor::{DmCursor, finish, resume, resume_enumerated};
use c_values::element::bit;
use c_values::fault::DmFault;
use c_values::next::{
    end_fault, exact_enumerated, exact_i64, exact_integer, exact_u64, finish_any, finish_bits,
    finish_bool, finish_null, finish_octets, finish_oid, finish_opening, finish_time,
    with_unused_bits_tested,
};
use c_values::octets::DmOctets;
use c_values::parts::DmBits;
use c_values::state::class_of;
use c_values::time::DmTime;
use der_base::error::BerError;
use der_base::header::Tag;
use der_cursor::{Cursor, ReadError};

/// Reads a BOOLEAN (X.690 8.2, 11.1) as 0 or 1.
#[unsafe(no_mangle)]
pub extern "C" fn dm_next_bool(
    cursor: &mut DmCursor<'_>,
    value: &mut u8,
    fault: &mut DmFault,
) -> u32
    ensures exactly { ReadsField (ReadsValue (λ v. v) (booleans (rules_in cursor.old.rules)) 1) IsBit
        cursor.old cursor.new value.old value.new fault.new }
    ensures status { result ≡ fault.new.status }
{
    let mut fields = resume(cursor);
    let found = fields.boolean();
    *fault = finish_bool(cursor, fields, found, value);
    fault.status
}

/// Reads an INTEGER from 0 to 2^64-1 (X.690 8.3). Also in BER its octets must be the fewest (8.3.2).
#[unsafe(no_mangle)]
pub extern "C" fn dm_next_u64(
    cursor: &mut DmCursor<'_>,
    value: &mut u64,
    fault: &mut DmFault,
) -> u32
    ensures exactly { ReadsField (ReadsValue pos (numbers Rules.Der (unsigned 64)) 2) IsSame
        cursor.old cursor.new value.old value.new fault.new }
    ensures status { result ≡ fault.new.status }
{
    let mut fields = resume(cursor);
    let found = exact_u64(fields.integer());
    *fault = finish(cursor, fields, found, value);
    fault.status
}

/// Reads an INTEGER from -2^63 to 2^63-1, as `dm_next_u64`.
#[unsafe(no_mangle)]
pub extern "C" fn dm_next_i64(
    cursor: &mut DmCursor<'_>,
    value: &mut i64,
    fault: &mut DmFault,
) -> u32
    ensures exactly { ReadsField (ReadsValue (λ v. v) (numbers Rules.Der (signed 64)) 2) IsSame
        cursor.old cursor.new value.old value.new fault.new }
    ensures status { result ≡ fault.new.status }
{
    let mut fields = resume(cursor);
    let found = exact_i64(fields.integer());
    *fault = finish(cursor, fields, found, value);
    fault.status
}

/// Reads an ENUMERATED from 0 to 2^64-1 (X.690 8.4), as `dm_next_u64`.
#[unsafe(no_mangle)]
pub extern "C" fn dm_next_enumerated(
    cursor: &mut DmCursor<'_>,
    value: &mut u64,
    fault: &mut DmFault,
) -> u32
    ensures exactly { ReadsField (ReadsValue (λ v. v) (enumerated_numbers Rules.Der) 10) IsSame
        cursor.old cursor.new value.old value.new fault.new }
    ensures status { result ≡ fault.new.status }
{
    let mut fields = resume_enumerated(cursor);
    let found = exact_enumerated(fields.integer());
    *fault = finish(cursor, fields, found, value);
    fault.status
}

/// Reads the content octets of an INTEGER, in two's complement. Also in BER they must be the fewest (X.690 8.3.2).
#[unsafe(no_mangle)]
pub extern "C" fn dm_next_integer<'a>(
    cursor: &mut DmCursor<'a>,
    octets: &mut DmOctets<'a>,
    fault: &mut DmFault,
) -> u32
    ensures exactly { ReadsField (ReadsValue (λ v. v.now) (integers Rules.Der) 2) IsOctets
        cursor.old cursor.new octets.old octets.new fault.new }
    ensures status { result ≡ fault.new.status }
{
    let mut fields = resume(cursor);
    let found = exact_integer(fields.integer());
    *fault = finish_octets(cursor, fields, found, octets);
    fault.status
}

/// Reads the octets of an OCTET STRING (X.690 8.7).
#[unsafe(no_mangle)]
pub extern "C" fn dm_next_octets<'a>(
    cursor: &mut DmCursor<'a>,
    octets: &mut DmOctets<'a>,
    fault: &mut DmFault,
) -> u32
    ensures exactly { ReadsField (ReadsValue (λ v. v.now) octet_strings 4) IsOctets
        cursor.old cursor.new octets.old octets.new fault.new }
    ensures status { result ≡ fault.new.status }
{
    let mut fields = resume(cursor);
    let found = fields.octets();
    *fault = finish_octets(cursor, fields, found, octets);
    fault.status
}

/// Reads a text of the string type with this tag number (X.690 8.23). A number of no such type is an error.
#[unsafe(no_mangle)]
pub extern "C" fn dm_next_text<'a>(
    cursor: &mut DmCursor<'a>,
    number: u32,
    text: &mut DmOctets<'a>,
    fault: &mut DmFault,
) -> u32
    ensures exactly { ReadsField (ReadsText number) IsOctets
        cursor.old cursor.new text.old text.new fault.new }
    ensures status { result ≡ fault.new.status }
{
    *fault = next_text(cursor, number, text);
    fault.status
}

/// Reads the content octets of an OBJECT IDENTIFIER (X.690 8.19). Padded arcs are an error.
#[unsafe(no_mangle)]
pub extern "C" fn dm_next_oid<'a>(
    cursor: &mut DmCursor<'a>,
    octets: &mut DmOctets<'a>,
    fault: &mut DmFault,
) -> u32
    ensures exactly { ReadsField (ReadsValue borrowed_octets identifiers 6) IsIdentifier
        cursor.old cursor.new octets.old octets.new fault.new }
    ensures status { result ≡ fault.new.status }
{
    let mut fields = resume(cursor);
    let found = fields.oid();
    *fault = finish_oid(cursor, fields, found, octets);
    fault.status
}

/// Reads a BIT STRING (X.690 8.6, 11.2). Also in BER at most seven bits are unused, and none of no octets (8.6.2).
#[unsafe(no_mangle)]
pub extern "C" fn dm_next_bits<'a>(
    cursor: &mut DmCursor<'a>,
    value: &mut DmBits<'a>,
    fault: &mut DmFault,
) -> u32
    ensures exactly { ReadsField
        (ReadsValue (λ v. (v.unused, v.octets.now)) (exact_bit_strings (rules_in cursor.old.rules)) 3) IsBits
        cursor.old cursor.new value.old value.new fault.new }
    ensures status { result ≡ fault.new.status }
{
    let mut fields = resume(cursor);
    let found = with_unused_bits_tested(fields.bits());
    *fault = finish_bits(cursor, fields, found, value);
    fault.status
}

/// Opens a SEQUENCE (X.690 8.9): a cursor over its items.
#[unsafe(no_mangle)]
pub extern "C" fn dm_next_sequence<'a>(
    cursor: &mut DmCursor<'a>,
    items: &mut DmCursor<'a>,
    fault: &mut DmFault,
) -> u32
    ensures exactly { ReadsField (OpensType true 16) (IsInner cursor.old)
        cursor.old cursor.new items.old items.new fault.new }
    ensures status { result ≡ fault.new.status }
{
    let mut fields = resume(cursor);
    let found = fields.open_sequence();
    *fault = finish_opening(cursor, fields, found, items);
    fault.status
}

/// Opens a SET (X.690 8.11): a cursor over its items.
#[unsafe(no_mangle)]
pub extern "C" fn dm_next_set<'a>(
    cursor: &mut DmCursor<'a>,
    items: &mut DmCursor<'a>,
    fault: &mut DmFault,
) -> u32
    ensures exactly { ReadsField (OpensType true 17) (IsInner cursor.old)
        cursor.old cursor.new items.old items.new fault.new }
    ensures status { result ≡ fault.new.status }
{
    let mut fields = resume(cursor);
    let found = fields.open_set();
    *fault = finish_opening(cursor, fields, found, items);
    fault.status
}

/// Opens the next element, which must have this class, constructed bit and tag number: a cursor over its content.
#[unsafe(no_mangle)]
pub extern "C" fn dm_next_content<'a>(
    cursor: &mut DmCursor<'a>,
    tag_class: u8,
    constructed: u8,
    number: u32,
    content: &mut DmCursor<'a>,
    fault: &mut DmFault,
) -> u32
    ensures exactly { ReadsField (OpensAt (class_of tag_class) (is_set constructed) number) (IsInner cursor.old)
        cursor.old cursor.new content.old content.new fault.new }
    ensures status { result ≡ fault.new.status }
{
    let mut fields = resume(cursor);
    let found = fields.open(class_of(tag_class), constructed != 0, Tag(number));
    *fault = finish_opening(cursor, fields, found, content);
    fault.status
}

/// Reads a UTCTime (X.690 8.25, 11.8), with a year from 1950 to 2049.
#[unsafe(no_mangle)]
pub extern "C" fn dm_next_utc_time(
    cursor: &mut DmCursor<'_>,
    time: &mut DmTime,
    fault: &mut DmFault,
) -> u32
    ensures exactly { ReadsField (ReadsValue (λ v. v) (times (rules_in cursor.old.rules) 23) 23) IsTime
        cursor.old cursor.new time.old time.new fault.new }
    ensures status { result ≡ fault.new.status }
{
    let mut fields = resume(cursor);
    let found = fields.utc_time();
    *fault = finish_time(cursor, fields, found, time);
    fault.status
}

/// Reads a GeneralizedTime (X.690 8.25, 11.7).
#[unsafe(no_mangle)]
pub extern "C" fn dm_next_generalized_time(
    cursor: &mut DmCursor<'_>,
    time: &mut DmTime,
    fault: &mut DmFault,
) -> u32
    ensures exactly { ReadsField (ReadsValue (λ v. v) (times (rules_in cursor.old.rules) 24) 24) IsTime
        cursor.old cursor.new time.old time.new fault.new }
    ensures status { result ≡ fault.new.status }
{
    let mut fields = resume(cursor);
    let found = fields.generalized_time();
    *fault = finish_time(cursor, fields, found, time);
    fault.status
}

/// Reads a NULL (X.690 8.8).
#[unsafe(no_mangle)]
pub extern "C" fn dm_next_null(cursor: &mut DmCursor<'_>, fault: &mut DmFault) -> u32
    ensures exactly { ReadsField (ReadsValue (λ v. v) (nulls (rules_in cursor.old.rules)) 5) IsNull
        cursor.old cursor.new tt tt fault.new }
    ensures status { result ≡ fault.new.status }
{
    let mut fields = resume(cursor);
    let found = fields.null();
    *fault = finish_null(cursor, fields, found);
    fault.status
}

/// Reads an element of any type. Its content isn't read.
#[unsafe(no_mangle)]
pub extern "C" fn dm_next_any<'a>(
    cursor: &mut DmCursor<'a>,
    element: &mut DmAny<'a>,
    fault: &mut DmFault,
) -> u32
    ensures exactly { ReadsField ReadsAnyAt IsAny cursor.old cursor.new element.old element.new fault.new }
    ensures status { result ≡ fault.new.status }
{
    let mut fields = resume(cursor);
    let found = fields.any();
    *fault = finish_any(cursor, fields, found, element);
    fault.status
}

/// Returns 1 if an element of this class and tag number is next, constructed or not, else 0.
#[unsafe(no_mangle)]
pub extern "C" fn dm_is_next(cursor: &DmCursor<'_>, tag_class: u8, number: u32) -> u32
    ensures exactly { (result ≡ 1) ↔ IsNext (class_of tag_class) number cursor.now.left.now }
    ensures most { result ≤ 1 }
{
    let fields = Cursor::new(cursor.left);
    bit(fields.is_next(class_of(tag_class), Tag(number))).into()
}

/// Ends a list. Octets left over are an error.
#[unsafe(no_mangle)]
pub extern "C" fn dm_end(cursor: &DmCursor<'_>, fault: &mut DmFault) -> u32
    ensures exactly { (c : Cursor) × (found : Result (Unit {0}) (ReadError BerError)) × Continues cursor.now c
        × EndsAt c found × (fault.new ≡ end_fault cursor.now found) }
    ensures status { result ≡ fault.new.status }
{
    *fault = end_fault(cursor, resume(cursor).end());
    fault.status
}
