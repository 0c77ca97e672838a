//! The encoder for any writer (X.690 8, with the lengths of 10). It doesn't allocate. It counts the length of an
//! element first, and collects small runs of octets in an array.
ghost use Rattle.std.specs.Prelude.{◌<◌, ◌≤◌, ◌^◌, ◌∷◌, ◌++◌, length};
ghost use Rattle.der_base.specs.Encoding.{encoding, encodings, content_octets, element};
ghost use Rattle.der_base.specs.Header.{class_of, is_constructed, number_of};
ghost use Rattle.der_base.specs.Octets.{identifier, shortest_integer};
ghost use Rattle.der_base.specs.Time.{text_from_year};
ghost use Rattle.der_object.specs.Encoders.{header_octets, length_octets, explicit_octets, implicit_octets};
ghost use Rattle.der_object.specs.View.{tree, content_tree, trees};
ghost use Rattle.der_object.specs.Writing.{Encodes, IoWhereFaultsRose, Wrote};
ghost use Rattle.der_values.specs.Octets.Room.{PutsBefore};

use crate::length::{
    content_length, explicit_length, header_length, implicit_length, object_length, raw_length,
};
use crate::object::{BerObject, BerObjectContent};
use crate::writer::{FaultWriter, send};
use der_base::error::GenError;
use der_base::header::{Class, Header, Length, Tag};
use der_base::time::ASN1DateTime;
use der_values::octets::header::{
    integer_octet_count, write_identifier, write_integer, write_length,
};
use der_values::octets::time::{GENERALIZED_YEAR, UTC_YEAR, time_length, write_time};
use der_values::octets::write_octet;
use std::io::Write;

/// The most octets of a header: 6 identifier octets and 9 length octets.
const HEADER_ROOM: usize = 15;

/// The most octets of a 64-bit number in two's complement.
const INTEGER_ROOM: usize = 9;

/// The most octets in the text of a time.
const TIME_ROOM: usize = 119;

/// Writes a header with its own length, definite or indefinite (8.1.2, 8.1.3). Errors: `Io` if a write failed.
pub fn ber_encode_header<W: Write>(
    w: &mut FaultWriter<W>,
    header: &Header<'_>,
) -> Result<(), GenError>
    ensures octets { Wrote W.contents w.old w.new result (header_octets header.now) }
    ensures io { IoWhereFaultsRose w.old w.new result }
{
    send_header(w, header, header.length())
}

/// Writes an object: its header as DER has it (8.1.2, 10.1), and its content octets. Nothing is written for an optional
/// object that is absent. A tagged object is written inside an element with the tag.
///
/// Errors: `TooLarge` if there are more than 2^64-1 octets; then nothing is written. `Io` if a write failed. A write
/// failed iff `faults` of the writer rose, unless it was at its greatest value of 2^128-1.
///
/// ```
/// let mut out = FaultWriter::new(Vec::<u8>::new(alloc));
/// ber_encode_object(&mut out, &object)?;
/// let octets = out.into_inner();
/// ```
pub fn ber_encode_object<W: Write>(
    w: &mut FaultWriter<W>,
    o: &BerObject<'_>,
) -> Result<(), GenError>
    ensures octets { Encodes W.contents w.old w.new result (encoding (tree o.now)) }
    ensures io { IoWhereFaultsRose w.old w.new result }
{
    if object_length(o).is_none() {
        return Err(GenError::TooLarge);
    }
    send_object(w, o)
}

/// Writes this header with its own length, and then all content octets. Errors: as for `ber_encode_object`.
pub fn ber_encode_object_raw<W: Write>(
    w: &mut FaultWriter<W>,
    header: &Header<'_>,
    content: &BerObjectContent<'_>,
) -> Result<(), GenError>
    ensures octets { let octets = header_octets header.now ++ content_octets (content_tree content.now) in
        Encodes W.contents w.old w.new result octets }
    ensures io { IoWhereFaultsRose w.old w.new result }
{
    if raw_length(header, content).is_none() {
        return Err(GenError::TooLarge);
    }
    send_raw(w, header, content)
}

/// Writes an object under an explicit tag: inside an element with that tag (8.14.2). Errors: as for
/// `ber_encode_object`.
pub fn ber_encode_tagged_explicit<W: Write>(
    w: &mut FaultWriter<W>,
    tag: Tag,
    class: Class,
    o: &BerObject<'_>,
) -> Result<(), GenError>
    ensures octets { Encodes W.contents w.old w.new result (explicit_octets class tag.0 (tree o.now)) }
    ensures io { IoWhereFaultsRose w.old w.new result }
{
    if explicit_length(tag, o).is_none() {
        return Err(GenError::TooLarge);
    }
    send_tagged(w, class, tag, o)
}

/// Writes an object under an implicit tag: as an element with that tag, which has the object's constructed bit and
/// content octets (8.14.3). Errors: as for `ber_encode_object`.
pub fn ber_encode_tagged_implicit<W: Write>(
    w: &mut FaultWriter<W>,
    tag: Tag,
    class: Class,
    o: &BerObject<'_>,
) -> Result<(), GenError>
    ensures octets { Encodes W.contents w.old w.new result (implicit_octets class tag.0 (tree o.now)) }
    ensures io { IoWhereFaultsRose w.old w.new result }
{
    if implicit_length(tag, o).is_none() {
        return Err(GenError::TooLarge);
    }
    let header = Header::new(class, o.header.constructed(), tag, Length::Definite(0));
    send_element(w, &header, &o.content)
}

/// Sends a header with its own length, and content octets.
fn send_raw<W: Write>(
    w: &mut FaultWriter<W>,
    header: &Header<'_>,
    content: &BerObjectContent<'_>,
) -> Result<(), GenError>
    requires { length (content_octets (content_tree content.now)) < 2 ^ 64 }
    ensures { let octets = header_octets header.now ++ content_octets (content_tree content.now) in
        Wrote W.contents w.old w.new result octets }
{
    send_header(w, header, header.length())?;
    send_content(w, content)
}

/// Sends an object (8.1.1).
#[cycle(encode)]
fn send_object<W: Write>(w: &mut FaultWriter<W>, o: &BerObject<'_>) -> Result<(), GenError>
    requires { length (encoding (tree o.now)) < 2 ^ 64 }
    ensures { Wrote W.contents w.old w.new result (encoding (tree o.now)) }
{
    match &o.content {
        BerObjectContent::Optional(held) => match held {
            Some(inner) => send_object(w, inner),
            None => Ok(()),
        },
        BerObjectContent::Tagged(class, tag, inner) => send_tagged(w, *class, *tag, inner),
        content => send_element(w, &o.header, content),
    }
}

/// Sends an object inside an element with a tag (8.14.2).
#[cycle(encode)]
fn send_tagged<W: Write>(
    w: &mut FaultWriter<W>,
    class: Class,
    tag: Tag,
    o: &BerObject<'_>,
) -> Result<(), GenError>
    requires { length (explicit_octets class tag.0 (tree o.now)) < 2 ^ 64 }
    ensures { Wrote W.contents w.old w.new result (explicit_octets class tag.0 (tree o.now)) }
{
    let n = object_length(o).unwrap();
    let header = Header::new(class, true, tag, Length::Definite(n));
    send_header(w, &header, Length::Definite(n))?;
    send_object(w, o)
}

/// Sends an element: the header with the length of its content, and the content octets.
#[cycle(encode)]
fn send_element<W: Write>(
    w: &mut FaultWriter<W>,
    header: &Header<'_>,
    content: &BerObjectContent<'_>,
) -> Result<(), GenError>
    requires { let h = header.now in
        let octets = content_octets (content_tree content.now) in
        length (element (class_of h) (is_constructed h) (number_of h) octets) < 2 ^ 64 }
    ensures { let h = header.now in
        let octets = content_octets (content_tree content.now) in
        Wrote W.contents w.old w.new result (element (class_of h) (is_constructed h) (number_of h) octets) }
{
    let n = content_length(content).unwrap();
    send_header(w, header, Length::Definite(n))?;
    send_content(w, content)
}

/// Sends content octets.
#[cycle(encode)]
#[tactic(auto, using(crate::proofs::Trees::sequence_tree, crate::proofs::Trees::set_tree))]
fn send_content<W: Write>(
    w: &mut FaultWriter<W>,
    content: &BerObjectContent<'_>,
) -> Result<(), GenError>
    requires { length (content_octets (content_tree content.now)) < 2 ^ 64 }
    ensures { Wrote W.contents w.old w.new result (content_octets (content_tree content.now)) }
{
    match content {
        BerObjectContent::Boolean(b) => send(w, &[if *b { 0xff } else { 0 }]),
        BerObjectContent::BitString(unused, bits) => send_bits(w, *unused, bits.bytes),
        BerObjectContent::Enum(n) => send_integer(w, *n),
        BerObjectContent::Sequence(items) => send_items(w, items),
        BerObjectContent::Set(items) => send_items(w, items),
        BerObjectContent::UTCTime(time) => send_time(w, UTC_YEAR, *time),
        BerObjectContent::GeneralizedTime(time) => send_time(w, GENERALIZED_YEAR, *time),
        BerObjectContent::Optional(held) => match held {
            Some(inner) => send_content(w, &inner.content),
            None => Ok(()),
        },
        BerObjectContent::Tagged(_, _, inner) => send_object(w, inner),
        _ => send(w, content.kept_octets()),
    }
}

/// Sends objects, one after another.
#[cycle(encode)]
fn send_items<W: Write>(w: &mut FaultWriter<W>, items: &[BerObject<'_>]) -> Result<(), GenError>
    requires { length (encodings (trees items.now)) < 2 ^ 64 }
    ensures { Wrote W.contents w.old w.new result (encodings (trees items.now)) }
{
    for o in items {
        send_object(w, o)?;
    }
    Ok(())
}

/// Sends the number of unused bits and the octets of a BIT STRING (8.6.2).
fn send_bits<W: Write>(w: &mut FaultWriter<W>, unused: u8, octets: &[u8]) -> Result<(), GenError>
    ensures { Wrote W.contents w.old w.new result (unused ∷ octets.now) }
{
    send(w, &[unused])?;
    send(w, octets)
}

/// Sends the identifier octets of a header, and the octets of a length.
fn send_header<W: Write>(
    w: &mut FaultWriter<W>,
    header: &Header<'_>,
    stated: Length,
) -> Result<(), GenError>
    ensures { let h = header.now in
        let octets = identifier (class_of h) (is_constructed h) (number_of h) in
        Wrote W.contents w.old w.new result (octets ++ length_octets stated) }
{
    let mut room = [0; HEADER_ROOM];
    let end = header_length(header, stated);
    let begin = write_any_length(&mut room, end, stated);
    write_identifier(
        &mut room,
        begin,
        header.class(),
        header.constructed(),
        header.tag(),
    );
    send(w, &room[..end])
}

/// Writes the octets of a definite or indefinite length so that they end at an offset (8.1.3.6).
fn write_any_length(out: &mut [u8], end: usize, stated: Length) -> usize
    requires room { length (length_octets stated) ≤ end }
    requires within { end ≤ length out.old }
    ensures { PutsBefore out.old out.new end (length_octets stated) result }
{
    match stated {
        Length::Definite(n) => write_length(out, end, n),
        Length::Indefinite => write_octet(out, end, 0x80),
    }
}

/// Sends a number in two's complement, in the fewest octets (8.3.2).
fn send_integer<W: Write>(w: &mut FaultWriter<W>, n: u64) -> Result<(), GenError>
    ensures { Wrote W.contents w.old w.new result (shortest_integer n) }
{
    let mut room = [0; INTEGER_ROOM];
    let end = integer_octet_count(n);
    write_integer(&mut room, end, n);
    send(w, &room[..end])
}

/// Sends the text of a time, with at least this many digits for the year (11.7, 11.8).
pub fn send_time<W: Write>(
    w: &mut FaultWriter<W>,
    year_digits: usize,
    time: ASN1DateTime,
) -> Result<(), GenError>
    requires { year_digits ≤ 4 }
    ensures { Wrote W.contents w.old w.new result (text_from_year year_digits time) }
{
    let mut room = [0; TIME_ROOM];
    let end = time_length(year_digits, time);
    write_time(&mut room, end, year_digits, time);
    send(w, &room[..end])
}
