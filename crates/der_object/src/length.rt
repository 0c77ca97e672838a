//! The size of an object in octets, which is counted before anything is written.
ghost use Rattle.std.specs.Prelude.{◌≡◌, ◌+◌, ◌<◌, ◌≤◌, ◌^◌, ◌++◌, Bool, length};
ghost use Rattle.std.specs.Option.{SomeIff};
ghost use Rattle.der_base.specs.declared.header.Class.{Class};
ghost use Rattle.der_base.specs.Encoding.{encoding, encodings, content_octets, element};
ghost use Rattle.der_base.specs.Header.{class_of, is_constructed, number_of};
ghost use Rattle.der_base.specs.Octets.{identifier, shortest_length};
ghost use Rattle.der_object.specs.Encoders.{length_octets, header_octets, explicit_octets, implicit_octets};
ghost use Rattle.der_object.specs.View.{tree, content_tree, trees};

use crate::object::{BerObject, BerObjectContent};
use der_base::header::{Header, Length, Tag};
use der_values::octets::header::{identifier_octet_count, integer_octet_count, length_octet_count};
use der_values::octets::time::{GENERALIZED_YEAR, UTC_YEAR, time_length};

/// The number of octets of an object, if it is at most 2^64-1.
#[cycle(length)]
pub fn object_length(o: &BerObject<'_>) -> Option<usize>
    ensures { SomeIff result (length (encoding (tree o.now)) < 2 ^ 64) (length (encoding (tree o.now))) }
{
    match &o.content {
        BerObjectContent::Optional(held) => match held {
            Some(inner) => object_length(inner),
            None => Some(0),
        },
        BerObjectContent::Tagged(_, tag, inner) => element_length(*tag, object_length(inner)?),
        content => element_length(o.header.tag(), content_length(content)?),
    }
}

/// The number of content octets, if it is at most 2^64-1.
#[cycle(length)]
#[tactic(auto, using(crate::proofs::Trees::sequence_tree, crate::proofs::Trees::set_tree))]
pub fn content_length(content: &BerObjectContent<'_>) -> Option<usize>
    ensures { let n = length (content_octets (content_tree content.now)) in
        SomeIff result (n < 2 ^ 64) n }
{
    match content {
        BerObjectContent::Boolean(_) => Some(1),
        BerObjectContent::BitString(_, bits) => Some(1 + bits.bytes.len()),
        BerObjectContent::Enum(n) => Some(integer_octet_count(*n)),
        BerObjectContent::Sequence(items) => items_length(items),
        BerObjectContent::Set(items) => items_length(items),
        BerObjectContent::UTCTime(time) => Some(time_length(UTC_YEAR, *time)),
        BerObjectContent::GeneralizedTime(time) => Some(time_length(GENERALIZED_YEAR, *time)),
        BerObjectContent::Optional(held) => match held {
            Some(inner) => content_length(&inner.content),
            None => Some(0),
        },
        BerObjectContent::Tagged(_, _, inner) => object_length(inner),
        _ => Some(content.kept_octets().len()),
    }
}

/// The number of octets of all these objects, if it is at most 2^64-1.
#[cycle(length)]
#[tactic(auto, using(crate::proofs::Trees::trees_end))]
fn items_length(items: &[BerObject<'_>]) -> Option<usize>
    ensures { let n = length (encodings (trees items.now)) in
        SomeIff result (n < 2 ^ 64) n }
{
    let mut total: usize = 0;
    for o in items {
        total = total.checked_add(object_length(o)?)?;
    }
    Some(total)
}

/// The number of octets of an object under an explicit tag, if it is at most 2^64-1 (8.14.2).
pub fn explicit_length(tag: Tag, o: &BerObject<'_>) -> Option<usize>
    ensures { (c : Class) → let n = length (explicit_octets c tag.0 (tree o.now)) in
        SomeIff result (n < 2 ^ 64) n }
{
    element_length(tag, object_length(o)?)
}

/// The number of octets of an object under an implicit tag, if it is at most 2^64-1 (8.14.3).
pub fn implicit_length(tag: Tag, o: &BerObject<'_>) -> Option<usize>
    ensures { (c : Class) → let n = length (implicit_octets c tag.0 (tree o.now)) in
        SomeIff result (n < 2 ^ 64) n }
{
    element_length(tag, content_length(&o.content)?)
}

/// The number of octets of a header with its own length and of the content octets after it, if it is at most 2^64-1.
pub fn raw_length(header: &Header<'_>, content: &BerObjectContent<'_>) -> Option<usize>
    ensures { let n = length (header_octets header.now ++ content_octets (content_tree content.now)) in
        SomeIff result (n < 2 ^ 64) n }
{
    header_length(header, header.length()).checked_add(content_length(content)?)
}

/// The number of octets of an element with this tag and n content octets, if it is at most 2^64-1.
fn element_length(tag: Tag, n: usize) -> Option<usize>
    ensures { (c : Class) (p : Bool) →
        let total = length (identifier c p tag.0) + length (shortest_length n) + n in
        SomeIff result (total < 2 ^ 64) total }
{
    (identifier_octet_count(tag) + length_octet_count(n)).checked_add(n)
}

/// The number of octets of a header with this length, which may be indefinite (8.1.3.6).
pub fn header_length(header: &Header<'_>, stated: Length) -> usize
    ensures count { let h = header.now in
        let octets = identifier (class_of h) (is_constructed h) (number_of h) in
        result ≡ length (octets ++ length_octets stated) }
    ensures few { result ≤ 15 }
{
    let length_octets = match stated {
        Length::Definite(n) => length_octet_count(n),
        Length::Indefinite => 1,
    };
    identifier_octet_count(header.tag()) + length_octets
}
