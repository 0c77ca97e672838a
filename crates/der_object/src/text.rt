//! The text of an object, sent through a writer. It doesn't allocate: numbers and small runs of octets are collected in
//! an array.
ghost use Rattle.std.specs.Prelude.{◌≡◌, ◌≤◌, ◌++◌, [], Option, Some, None, codes, decimal, if◌then◌else◌};
ghost use Rattle.der_base.specs.Arcs.{arcs};
ghost use Rattle.der_base.specs.Header.{class_of, is_constructed, number_of, length_of};
ghost use Rattle.der_base.specs.Names.{class_name, type_name};
ghost use Rattle.der_base.specs.Oids.{arcs_left, is_relative_of, octets_of};
ghost use Rattle.der_base.specs.Pretty.{pretty, content_text, items_text, front_text, header_text, further, spaces};
ghost use Rattle.der_base.specs.Pretty.{list_name, list_text, bracketed, tagged_text, leaf_text, tag_name, length_text};
ghost use Rattle.der_base.specs.Pretty.{arcs_text, boolean_text, decoded, characters_text, dotted, pointed};
ghost use Rattle.der_base.specs.Pretty.{hex, named_hex, plain, quoted};
ghost use Rattle.der_base.specs.Time.{text_from_year};
ghost use Rattle.der_object.specs.Characters.{chars_of, text_of_chars};
ghost use Rattle.der_object.specs.HeaderFacts.{form_of, forms_of, inner_forms};
ghost use Rattle.der_object.specs.Layouts.{style};
ghost use Rattle.der_object.specs.View.{content_tree, tree, trees};
ghost use Rattle.der_object.specs.Writing.{Wrote};

use crate::encode::send_time;
use crate::hex::send_hex;
use crate::object::{BerObject, BerObjectContent};
use crate::wide_strings::{Coding, are_characters, send_characters};
use crate::writer::{FaultWriter, send};
use der_base::error::GenError;
use der_base::header::{Class, Header, Length, Tag};
use der_base::oid::{Oid, OidIter};
use der_base::time::ASN1DateTime;
use der_values::octets::decimal::write_decimal;
use der_values::octets::time::{GENERALIZED_YEAR, UTC_YEAR};
use der_values::octets::write_octet;
use std::io::Write;

/// How objects are printed.
#[derive(Clone, Copy)]
pub struct Layout {
    /// Whether the items of lists are printed.
    pub recursive: bool,
    /// Whether the headers are printed.
    pub headers: bool,
    /// How many spaces an item is indented more than its list.
    pub increment: usize,
}

/// The spaces that are sent at once.
const SPACES: [u8; 64] = [b' '; 64];

/// The most digits of a 64-bit number.
const DIGITS: usize = 20;

/// Sends the text of an object, indented by `indent` spaces.
#[cycle(text)]
pub fn send_text<W: Write>(
    w: &mut FaultWriter<W>,
    o: &BerObject<'_>,
    layout: Layout,
    indent: usize,
) -> Result<(), GenError>
    ensures { Wrote W.contents w.old w.new result (pretty (style layout) indent (tree o.now) (form_of o.now)) }
{
    send_front(w, &o.header, layout, indent)?;
    send_content(w, &o.content, o.header.tag(), layout, indent)
}

/// Sends the text of a content whose header has this tag number.
#[cycle(text)]
fn send_content<W: Write>(
    w: &mut FaultWriter<W>,
    content: &BerObjectContent<'_>,
    tag: Tag,
    layout: Layout,
    indent: usize,
) -> Result<(), GenError>
    ensures { let x = content_tree content.now in
        Wrote W.contents w.old w.new result (content_text (style layout) indent tag.0 x (inner_forms content.now)) }
{
    match content {
        BerObjectContent::Sequence(items) => send_list(w, items, tag, layout, indent),
        BerObjectContent::Set(items) => send_list(w, items, tag, layout, indent),
        BerObjectContent::Optional(held) => match held {
            Some(inner) => send_present(w, inner, layout),
            None => send_str(w, "NONE"),
        },
        BerObjectContent::Tagged(class, tag, inner) => {
            send_tagged(w, *class, *tag, inner, layout, indent)
        }
        leaf => send_leaf(w, leaf),
    }
}

/// Sends the text of a list whose header has this tag number.
#[cycle(text)]
fn send_list<W: Write>(
    w: &mut FaultWriter<W>,
    items: &[BerObject<'_>],
    tag: Tag,
    layout: Layout,
    indent: usize,
) -> Result<(), GenError>
    ensures { let s = style layout in
        let inside = items_text s (further s indent) (trees items.now) (forms_of items.now) in
        Wrote W.contents w.old w.new result (list_text s indent tag.0 inside) }
{
    if !layout.recursive {
        return send_str(w, list_name(tag));
    }
    send_str(w, list_name(tag))?;
    send_inside(w, items, layout, indent)
}

/// Sends the items of a list in brackets, from the next line on.
#[cycle(text)]
fn send_inside<W: Write>(
    w: &mut FaultWriter<W>,
    items: &[BerObject<'_>],
    layout: Layout,
    indent: usize,
) -> Result<(), GenError>
    ensures { let s = style layout in
        let inside = items_text s (further s indent) (trees items.now) (forms_of items.now) in
        Wrote W.contents w.old w.new result (bracketed indent inside) }
{
    send_str(w, "[\n")?;
    send_items(w, items, layout, indent.saturating_add(layout.increment))?;
    send_spaces(w, indent)?;
    send_str(w, "]")
}

/// Sends the texts of items, with nothing between them.
#[cycle(text)]
fn send_items<W: Write>(
    w: &mut FaultWriter<W>,
    items: &[BerObject<'_>],
    layout: Layout,
    indent: usize,
) -> Result<(), GenError>
    ensures { let s = style layout in
        Wrote W.contents w.old w.new result (items_text s indent (trees items.now) (forms_of items.now)) }
{
    for o in items {
        send_text(w, o, layout, indent)?;
    }
    Ok(())
}

/// Sends the text of an optional object that is there.
#[cycle(text)]
fn send_present<W: Write>(
    w: &mut FaultWriter<W>,
    o: &BerObject<'_>,
    layout: Layout,
) -> Result<(), GenError>
    ensures { let inner = pretty (style layout) 0 (tree o.now) (form_of o.now) in
        Wrote W.contents w.old w.new result (codes "OPTION " ++ inner) }
{
    send_str(w, "OPTION ")?;
    send_text(w, o, layout, 0)
}

/// Sends the text of an object inside a tag.
#[cycle(text)]
fn send_tagged<W: Write>(
    w: &mut FaultWriter<W>,
    class: Class,
    tag: Tag,
    o: &BerObject<'_>,
    layout: Layout,
    indent: usize,
) -> Result<(), GenError>
    ensures { let s = style layout in
        let inner = pretty s (further s indent) (tree o.now) (form_of o.now) in
        Wrote W.contents w.old w.new result (tagged_text indent class tag.0 inner) }
{
    send_str(w, "ContextSpecific [")?;
    send_class_and_number(w, class, tag)?;
    send_str(w, "] {\n")?;
    send_text(w, o, layout, indent.saturating_add(layout.increment))?;
    send_spaces(w, indent)?;
    send_str(w, "}")
}

/// Sends the text of a content that contains no object. For another content it sends nothing.
fn send_leaf<W: Write>(
    w: &mut FaultWriter<W>,
    content: &BerObjectContent<'_>,
) -> Result<(), GenError>
    ensures { Wrote W.contents w.old w.new result (leaf_text (content_tree content.now)) }
{
    match content {
        BerObjectContent::EndOfContent => send_str(w, "EndOfContent"),
        BerObjectContent::Boolean(value) => send_boolean(w, *value),
        BerObjectContent::Integer(octets) => send_octets(w, "Integer", octets),
        BerObjectContent::BitString(unused, bits) => send_bits(w, *unused, bits.bytes),
        BerObjectContent::OctetString(octets) => send_octets(w, "OctetString", octets),
        BerObjectContent::Null => send_str(w, "Null"),
        BerObjectContent::Enum(number) => send_enum(w, *number),
        BerObjectContent::OID(oid) => send_identifier(w, "OID", oid),
        BerObjectContent::RelativeOID(oid) => send_identifier(w, "RelativeOID", oid),
        BerObjectContent::NumericString(text) => send_quoted(w, "NumericString", text),
        BerObjectContent::VisibleString(text) => send_quoted(w, "VisibleString", text),
        BerObjectContent::PrintableString(text) => send_quoted(w, "PrintableString", text),
        BerObjectContent::IA5String(text) => send_quoted(w, "IA5String", text),
        BerObjectContent::UTF8String(text) => send_quoted(w, "UTF8String", text),
        BerObjectContent::T61String(text) => send_plain(w, "T61String", text),
        BerObjectContent::VideotexString(text) => send_plain(w, "VideotexString", text),
        BerObjectContent::ObjectDescriptor(text) => send_quoted(w, "ObjectDescriptor", text),
        BerObjectContent::GraphicString(text) => send_quoted(w, "GraphicString", text),
        BerObjectContent::GeneralString(text) => send_quoted(w, "GeneralString", text),
        BerObjectContent::BmpString(octets) => send_coded(w, "BmpString", Coding::Utf16, octets),
        BerObjectContent::UniversalString(octets) => {
            send_coded(w, "UniversalString", Coding::Utf32, octets)
        }
        BerObjectContent::UTCTime(time) => send_moment(w, "UTCTime", UTC_YEAR, *time),
        BerObjectContent::GeneralizedTime(time) => {
            send_moment(w, "GeneralizedTime", GENERALIZED_YEAR, *time)
        }
        BerObjectContent::Unknown(any) => send_unknown(w, any.bytes),
        BerObjectContent::Sequence(_) => Ok(()),
        BerObjectContent::Set(_) => Ok(()),
        BerObjectContent::Optional(_) => Ok(()),
        BerObjectContent::Tagged(..) => Ok(()),
    }
}

/// Sends what comes before a content: spaces, and the header if headers are printed.
fn send_front<W: Write>(
    w: &mut FaultWriter<W>,
    header: &Header<'_>,
    layout: Layout,
    indent: usize,
) -> Result<(), GenError>
    ensures { let h = header.now in
        let text = front_text (style layout) indent (class_of h) (is_constructed h) (number_of h) (length_of h) in
        Wrote W.contents w.old w.new result text }
{
    if !layout.headers {
        return send_spaces(w, indent);
    }
    send_spaces(w, indent)?;
    send_shown_header(w, header)
}

/// Sends the text of a header, and a space.
fn send_shown_header<W: Write>(w: &mut FaultWriter<W>, header: &Header<'_>) -> Result<(), GenError>
    ensures { let h = header.now in
        let text = header_text (class_of h) (is_constructed h) (number_of h) (length_of h) in
        Wrote W.contents w.old w.new result (text ++ codes " ") }
{
    send_header(w, header)?;
    send_str(w, " ")
}

/// Sends the text of a header.
fn send_header<W: Write>(w: &mut FaultWriter<W>, header: &Header<'_>) -> Result<(), GenError>
    ensures { let h = header.now in
        let text = header_text (class_of h) (is_constructed h) (number_of h) (length_of h) in
        Wrote W.contents w.old w.new result text }
{
    send_str(w, "[")?;
    send_tag_name(w, header.class(), header.tag())?;
    send_str(w, "]")?;
    send_form(w, header.constructed())?;
    send_str(w, " ")?;
    send_length(w, header.length())
}

/// Sends the name of a tag.
fn send_tag_name<W: Write>(w: &mut FaultWriter<W>, class: Class, tag: Tag) -> Result<(), GenError>
    ensures { Wrote W.contents w.old w.new result (tag_name class tag.0) }
{
    match class {
        Class::Universal => send_type_name(w, tag),
        Class::ContextSpecific => send_number(w, u64::from(tag.0)),
        Class::Application => send_class_and_number(w, class, tag),
        Class::Private => send_class_and_number(w, class, tag),
    }
}

/// Sends the name of a universal type, or its number if it has no name.
fn send_type_name<W: Write>(w: &mut FaultWriter<W>, tag: Tag) -> Result<(), GenError>
    ensures { Wrote W.contents w.old w.new result (type_name tag.0) }
{
    match tag.name() {
        Some(name) => send_str(w, name),
        None => send_unnamed(w, tag),
    }
}

/// Sends the number of a universal type that has no name.
fn send_unnamed<W: Write>(w: &mut FaultWriter<W>, tag: Tag) -> Result<(), GenError>
    ensures { Wrote W.contents w.old w.new result (codes "Tag(" ++ decimal tag.0 ++ codes ")") }
{
    send_str(w, "Tag(")?;
    send_number(w, u64::from(tag.0))?;
    send_str(w, ")")
}

/// Sends a class and a tag number.
fn send_class_and_number<W: Write>(
    w: &mut FaultWriter<W>,
    class: Class,
    tag: Tag,
) -> Result<(), GenError>
    ensures { Wrote W.contents w.old w.new result (class_name class ++ codes " " ++ decimal tag.0) }
{
    send_str(w, class.name())?;
    send_str(w, " ")?;
    send_number(w, u64::from(tag.0))
}

/// Sends the mark of a constructed element, `+`, or nothing for a primitive one.
fn send_form<W: Write>(w: &mut FaultWriter<W>, constructed: bool) -> Result<(), GenError>
    ensures { Wrote W.contents w.old w.new result (if constructed then codes "+" else []) }
{
    if constructed {
        send_str(w, "+")
    } else {
        Ok(())
    }
}

/// Sends a length.
fn send_length<W: Write>(w: &mut FaultWriter<W>, length: Length) -> Result<(), GenError>
    ensures { Wrote W.contents w.old w.new result (length_text length) }
{
    match length {
        Length::Definite(n) => send_number(w, n as u64),
        Length::Indefinite => send_str(w, "Indefinite"),
    }
}

/// The name of a list whose header has this tag number.
fn list_name(tag: Tag) -> &'static str
    ensures { result.now ≡ list_name tag.0 }
{
    if tag == Tag::Sequence {
        "Sequence"
    } else {
        "Set"
    }
}

/// Sends the text of a BOOLEAN.
fn send_boolean<W: Write>(w: &mut FaultWriter<W>, value: bool) -> Result<(), GenError>
    ensures { Wrote W.contents w.old w.new result (plain (codes "Boolean") (boolean_text value)) }
{
    if value {
        send_str(w, "Boolean(true)")
    } else {
        send_str(w, "Boolean(false)")
    }
}

/// Sends the text of a BIT STRING.
fn send_bits<W: Write>(w: &mut FaultWriter<W>, unused: u8, octets: &[u8]) -> Result<(), GenError>
    ensures { let text = decimal unused ++ codes "," ++ hex octets.now in
        Wrote W.contents w.old w.new result (plain (codes "BitString") text) }
{
    send_str(w, "BitString(")?;
    send_number(w, u64::from(unused))?;
    send_str(w, ",")?;
    send_hex(w, octets)?;
    send_str(w, ")")
}

/// Sends the text of an ENUMERATED.
fn send_enum<W: Write>(w: &mut FaultWriter<W>, n: u64) -> Result<(), GenError>
    ensures { Wrote W.contents w.old w.new result (plain (codes "Enum") (decimal n)) }
{
    send_str(w, "Enum(")?;
    send_number(w, n)?;
    send_str(w, ")")
}

/// Sends the text of an identifier: its arcs, or its octets if they aren't arcs.
fn send_identifier<W: Write>(
    w: &mut FaultWriter<W>,
    name: &str,
    oid: &Oid<'_>,
) -> Result<(), GenError>
    ensures { let octets = octets_of oid.now in
        let text = arcs_text (arcs (is_relative_of oid.now) octets) octets in
        Wrote W.contents w.old w.new result (plain name.now text) }
{
    send_str(w, name)?;
    send_str(w, "(")?;
    send_arcs(w, oid)?;
    send_str(w, ")")
}

/// Sends the arcs of an identifier with dots between them, or its octets if they aren't arcs.
fn send_arcs<W: Write>(w: &mut FaultWriter<W>, oid: &Oid<'_>) -> Result<(), GenError>
    ensures { let octets = octets_of oid.now in
        Wrote W.contents w.old w.new result (arcs_text (arcs (is_relative_of oid.now) octets) octets) }
{
    let Some(mut arcs) = oid.iter() else {
        return send_hex(w, oid.as_bytes());
    };
    let Some(first) = arcs.next() else {
        return Ok(());
    };
    send_number(w, first)?;
    send_further_arcs(w, arcs)
}

/// Sends arcs, each after a dot.
fn send_further_arcs<W: Write>(w: &mut FaultWriter<W>, arcs: OidIter<'_>) -> Result<(), GenError>
    ensures { Wrote W.contents w.old w.new result (pointed (arcs_left arcs.entry)) }
{
    for arc in arcs {
        send_pointed(w, arc)?;
    }
    Ok(())
}

/// Sends a dot and a number.
fn send_pointed<W: Write>(w: &mut FaultWriter<W>, n: u64) -> Result<(), GenError>
    ensures { Wrote W.contents w.old w.new result (codes "." ++ decimal n) }
{
    let mut room = [0; DIGITS + 1];
    let begin = write_decimal(&mut room, DIGITS + 1, n);
    let begin = write_octet(&mut room, begin, b'.');
    send(w, &room[begin..])
}

/// Sends a number in decimal.
fn send_number<W: Write>(w: &mut FaultWriter<W>, n: u64) -> Result<(), GenError>
    ensures { Wrote W.contents w.old w.new result (decimal n) }
{
    let mut room = [0; DIGITS];
    let begin = write_decimal(&mut room, DIGITS, n);
    send(w, &room[begin..])
}

/// Sends the text of a time, with at least this many digits for the year.
fn send_moment<W: Write>(
    w: &mut FaultWriter<W>,
    name: &str,
    year_digits: usize,
    time: ASN1DateTime,
) -> Result<(), GenError>
    requires { year_digits ≤ 4 }
    ensures { Wrote W.contents w.old w.new result (quoted name.now (text_from_year year_digits time)) }
{
    send_str(w, name)?;
    send_str(w, "(\"")?;
    send_time(w, year_digits, time)?;
    send_str(w, "\")")
}

/// Sends the characters of a string from its octets, or the octets if they aren't characters, and ends the line.
fn send_coded<W: Write>(
    w: &mut FaultWriter<W>,
    name: &str,
    coding: Coding,
    octets: &[u8],
) -> Result<(), GenError>
    ensures { let text = characters_text (chars_of coding octets.now) in
        Wrote W.contents w.old w.new result (decoded name.now text octets.now) }
{
    if !are_characters(coding, octets) {
        return send_undecoded(w, name, octets);
    }
    send_decoded(w, name, coding, octets)
}

/// Sends a name and the characters that octets encode, and ends the line.
fn send_decoded<W: Write>(
    w: &mut FaultWriter<W>,
    name: &str,
    coding: Coding,
    octets: &[u8],
) -> Result<(), GenError>
    ensures { let text = text_of_chars (chars_of coding octets.now) in
        Wrote W.contents w.old w.new result (quoted name.now text ++ codes "\n") }
{
    send_str(w, name)?;
    send_str(w, "(\"")?;
    send_characters(w, coding, octets)?;
    send_str(w, "\")")?;
    send_str(w, "\n")
}

/// Sends a name and octets that aren't characters, and ends the line.
fn send_undecoded<W: Write>(
    w: &mut FaultWriter<W>,
    name: &str,
    octets: &[u8],
) -> Result<(), GenError>
    ensures { let text = named_hex name.now octets.now ++ codes " <error decoding utf32 string>\n" in
        Wrote W.contents w.old w.new result text }
{
    send_octets(w, name, octets)?;
    send_str(w, " <error decoding utf32 string>\n")
}

/// Sends a name and octets.
fn send_octets<W: Write>(w: &mut FaultWriter<W>, name: &str, octets: &[u8]) -> Result<(), GenError>
    ensures { Wrote W.contents w.old w.new result (named_hex name.now octets.now) }
{
    send_str(w, name)?;
    send_str(w, "(")?;
    send_hex(w, octets)?;
    send_str(w, ")")
}

/// Sends the text of a content that is kept as octets.
fn send_unknown<W: Write>(w: &mut FaultWriter<W>, octets: &[u8]) -> Result<(), GenError>
    ensures { Wrote W.contents w.old w.new result (codes "Unknown " ++ hex octets.now) }
{
    send_str(w, "Unknown ")?;
    send_hex(w, octets)
}

/// Sends a name and a text.
fn send_plain<W: Write>(w: &mut FaultWriter<W>, name: &str, text: &str) -> Result<(), GenError>
    ensures { Wrote W.contents w.old w.new result (plain name.now text.now) }
{
    send_str(w, name)?;
    send_str(w, "(")?;
    send_str(w, text)?;
    send_str(w, ")")
}

/// Sends a name and a text in quotes, with no character escaped.
fn send_quoted<W: Write>(w: &mut FaultWriter<W>, name: &str, text: &str) -> Result<(), GenError>
    ensures { Wrote W.contents w.old w.new result (quoted name.now text.now) }
{
    send_str(w, name)?;
    send_str(w, "(\"")?;
    send_str(w, text)?;
    send_str(w, "\")")
}

/// Sends this many spaces.
fn send_spaces<W: Write>(w: &mut FaultWriter<W>, count: usize) -> Result<(), GenError>
    ensures { Wrote W.contents w.old w.new result (spaces count) }
{
    let mut left = count;
    while left > SPACES.len() {
        send(w, &SPACES)?;
        left -= SPACES.len();
    }
    send(w, &SPACES[..left])
}

/// Sends a text.
fn send_str<W: Write>(w: &mut FaultWriter<W>, text: &str) -> Result<(), GenError>
    ensures { Wrote W.contents w.old w.new result text.now }
{
    send(w, text.as_bytes())
}
