//! The encoding of an object: its header as DER has it (X.690 8.1.2, 10.1), and its content octets.
//!
//! The octets are written from the last to the first. Each length is written after its content, so no content is
//! measured again for every list around it.
ghost use Rattle.std.specs.Prelude.{◌≡◌, ◌≢◌, ◌≤◌, ◌^◌, ◌↔◌, ◌⊎◌, [], ◌++◌, length};
ghost use Rattle.std.specs.Prelude.{IfOk, IfErr};
ghost use Rattle.std.specs.Result.{IsErrOf};
ghost use Rattle.der_base.specs.Encoding.{encoding, encodings, content_octets};
ghost use Rattle.der_base.specs.Header.{class_of, is_constructed, number_of};
ghost use Rattle.der_base.specs.Octets.{identifier, shortest_length};
ghost use Rattle.der_object.specs.View.{tree, content_tree, trees};
ghost use Rattle.der_values.specs.Octets.Room.{PutsBefore};

use crate::length::object_length;
use crate::object::{BerObject, BerObjectContent};
use der_base::error::GenError;
use der_base::header::{Header, Length};
use der_values::octets::header::{write_identifier, write_integer, write_length};
use der_values::octets::time::{GENERALIZED_YEAR, UTC_YEAR, write_time};
use der_values::octets::{write_octet, write_octets};
use std::alloc::Global;

impl BerObject<'_> {
    /// The encoding of the object: identifier octets, a length in the fewest octets, and content octets (8.1, 10.1). If
    /// the object is valid by DER, this is its DER encoding. If it was read by BER, this is an encoding of it.
    ///
    /// Errors: `TooLarge` if there are more than 2^64-1 octets, and `OutOfMemory`. It allocates once.
    ///
    /// ```
    /// match parse_ber(alloc, input) {
    ///     Ok((_rest, object)) => object.to_vec(alloc), // DER's lengths
    ///     Err(_) => Ok(Vec::new(alloc)),
    /// }
    /// ```
    pub fn to_vec(&self, alloc: Global) -> Result<Vec<u8>, GenError>
        ensures ok { IfOk result (λ v. v.items ≡ encoding (tree self.now)) }
        ensures too_large { IsErrOf result GenError.TooLarge ↔ (2 ^ 64 ≤ length (encoding (tree self.now))) }
        ensures memory { IsErrOf result GenError.OutOfMemory → encoding (tree self.now) ≢ [] }
        ensures errors { IfErr result (λ e. (e ≡ GenError.TooLarge) ⊎ (e ≡ GenError.OutOfMemory)) }
    {
        let Some(length) = object_length(self) else {
            return Err(GenError::TooLarge);
        };
        if length == 0 {
            return Ok(Vec::new(alloc));
        }
        let mut out = vec![in alloc; 0; length]?;
        write_object(&mut out, length, self);
        Ok(out)
    }
}

/// Writes an object so that it ends at an offset, and returns where it begins (8.1.1).
#[cycle(serialize)]
fn write_object(out: &mut [u8], end: usize, o: &BerObject<'_>) -> usize
    requires room { length (encoding (tree o.now)) ≤ end }
    requires within { end ≤ length out.old }
    ensures { PutsBefore out.old out.new end (encoding (tree o.now)) result }
{
    match &o.content {
        BerObjectContent::Optional(held) => match held {
            Some(inner) => write_object(out, end, inner),
            None => end,
        },
        BerObjectContent::Tagged(class, tag, inner) => {
            let begin = write_object(out, end, inner);
            let header = Header::new(*class, true, *tag, Length::Definite(0));
            write_header(out, begin, &header, end - begin)
        }
        content => {
            let begin = write_content(out, end, content);
            write_header(out, begin, &o.header, end - begin)
        }
    }
}

/// Writes content octets so that they end at an offset.
#[cycle(serialize)]
#[tactic(auto, using(crate::proofs::Trees::sequence_tree, crate::proofs::Trees::set_tree))]
fn write_content(out: &mut [u8], end: usize, content: &BerObjectContent<'_>) -> usize
    requires room { length (content_octets (content_tree content.now)) ≤ end }
    requires within { end ≤ length out.old }
    ensures { PutsBefore out.old out.new end (content_octets (content_tree content.now)) result }
{
    match content {
        BerObjectContent::Boolean(b) => write_octet(out, end, if *b { 0xff } else { 0 }),
        BerObjectContent::BitString(unused, bits) => {
            let begin = write_octets(out, end, bits.bytes);
            write_octet(out, begin, *unused)
        }
        BerObjectContent::Enum(n) => write_integer(out, end, *n),
        BerObjectContent::Sequence(items) => write_items(out, end, items),
        BerObjectContent::Set(items) => write_items(out, end, items),
        BerObjectContent::UTCTime(time) => write_time(out, end, UTC_YEAR, *time),
        BerObjectContent::GeneralizedTime(time) => write_time(out, end, GENERALIZED_YEAR, *time),
        BerObjectContent::Optional(held) => match held {
            Some(inner) => write_content(out, end, &inner.content),
            None => end,
        },
        BerObjectContent::Tagged(_, _, inner) => write_object(out, end, inner),
        _ => write_octets(out, end, content.kept_octets()),
    }
}

/// Writes objects one after another, so that the last one ends at an offset.
#[cycle(serialize)]
fn write_items(out: &mut [u8], end: usize, items: &[BerObject<'_>]) -> usize
    requires room { length (encodings (trees items.now)) ≤ end }
    requires within { end ≤ length out.old }
    ensures { PutsBefore out.old out.new end (encodings (trees items.now)) result }
{
    let mut begin = end;
    for i in (0..items.len()).rev() {
        begin = write_object(out, begin, &items[i]);
    }
    begin
}

/// Writes the identifier octets of a header and a length so that they end at an offset.
fn write_header(out: &mut [u8], end: usize, header: &Header<'_>, n: usize) -> usize
    requires room { let h = header.now in
        length (identifier (class_of h) (is_constructed h) (number_of h) ++ shortest_length n) ≤ end }
    requires within { end ≤ length out.old }
    ensures { let h = header.now in
        let octets = identifier (class_of h) (is_constructed h) (number_of h) in
        PutsBefore out.old out.new end (octets ++ shortest_length n) result }
{
    let begin = write_length(out, end, n);
    write_identifier(
        out,
        begin,
        header.class(),
        header.constructed(),
        header.tag(),
    )
}
