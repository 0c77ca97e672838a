//! The values of primitive elements.
ghost use Rattle.std.specs.Prelude.{◌≡◌, ◌⊎◌, ◌++◌, ℕ, List, Option, Some, codes, false, true};
ghost use Rattle.std.specs.Fmt.{DisplaysOnOk};
ghost use Rattle.der_print.specs.Lines.{IsValueAlone};
ghost use Rattle.der_print.specs.Names.{name_text, table_of};
ghost use Rattle.der_print.specs.Quotes.{quoted_text};
ghost use Rattle.der_print.specs.Texts.{content_of, octets_or_none};
ghost use Rattle.der_print.specs.Values.{IsUniversalValue, IsValue, boolean_text, identifier_text};
ghost use Rattle.der_print.specs.Values.{is_quoted_type, octets_text, truth_text};
ghost use Rattle.der_print.specs.Writes.{WritesOne};
ghost use Rattle.der_elements.specs.Walked.{visited_of};
ghost use Rattle.oid_names.specs.OwnNames.{IsNameAmong, Named};

use crate::bits::Bits;
use crate::characters::write_pair;
use crate::identifier::Arcs;
use crate::name::Name;
use crate::number::Number;
use crate::octets::Hex;
use crate::real::Real;
use crate::spaced::write_spaced;
use crate::style::Limit;
use crate::text::{Quoted, is_printable_ascii};
use crate::time::Moment;
use der_base::header::{Class, Tag};
use der_base::text::is_text_type;
use der_base::time::read_time;
use der_elements::Element;
use oid_names::{OwnNames, name_among};
use std::fmt;

/// The octet of TRUE by DER (X.690 11.1).
const TRUE: u8 = 0xff;

/// The value of a primitive element, after a space. Empty for NULL, and if the content is elements.
#[derive(Clone, Copy)]
pub struct Value<'a> {
    pub element: Element<'a>,
    pub limit: Limit,
}

impl fmt::Display for Value<'_> {
    fn fmt<W: fmt::Write>(&self, f: &mut fmt::Formatter<W>) -> fmt::Result {
        write_value_alone(f, &self.element, self.limit)
    }
}

/// Writes the value of a primitive element; nothing if the content is elements.
fn write_value_alone<W: fmt::Write>(
    f: &mut fmt::Formatter<W>,
    element: &Element<'_>,
    limit: Limit,
) -> fmt::Result
    ensures { let v = visited_of element.now in let w = content_of element.now in
        WritesOne W.Write.write_str_gives f.old result (IsValueAlone limit v w) f.new }
{
    match element.holds {
        Some(_) => Ok(()),
        None if element.constructed => Ok(()),
        None => write_value(f, element, limit, None),
    }
}

/// Writes the value of a primitive element. `own` names an OBJECT IDENTIFIER before the built-in table does.
pub(crate) fn write_value<'n, W: fmt::Write>(
    f: &mut fmt::Formatter<W>,
    element: &Element<'_>,
    limit: Limit,
    own: Option<&'n OwnNames<'n>>,
) -> fmt::Result
    ensures { let w = content_of element.now in WritesOne W.Write.write_str_gives f.old result
        (IsValue (table_of own.entry) limit element.now.class element.now.number w) f.new }
{
    let octets = octets_or_none(element.content);
    if element.class != Class::Universal {
        return write_octets(f, octets, limit);
    }
    write_universal(f, element.number, octets, limit, own)
}

/// The content octets, or none.
pub fn octets_or_none(content: Option<&[u8]>) -> &[u8]
    ensures { result.now ≡ octets_or_none content.entry }
{
    match content {
        Some(octets) => octets,
        None => &[],
    }
}

/// Writes a value of a universal type.
fn write_universal<'n, W: fmt::Write>(
    f: &mut fmt::Formatter<W>,
    number: u32,
    octets: &[u8],
    limit: Limit,
    own: Option<&'n OwnNames<'n>>,
) -> fmt::Result
    ensures { WritesOne W.Write.write_str_gives f.old result
        (IsUniversalValue (table_of own.entry) limit number octets.now) f.new }
{
    match number {
        0 | 5 => write_octets(f, octets, limit),
        1 => write_boolean(f, octets, limit),
        2 | 10 => write_spaced(f, Number { octets, limit }),
        3 => write_spaced(f, Bits { octets, limit }),
        6 => write_identifier(f, octets, limit, own),
        9 => write_spaced(f, Real { octets, limit }),
        13 => write_relative(f, octets),
        23 => write_time(f, number, octets, limit),
        24 => write_time(f, number, octets, limit),
        _ if is_quoted_type(number) => write_quoted(f, number, octets, limit),
        _ => write_octets(f, octets, limit),
    }
}

/// Returns whether values of a universal type are character strings.
pub fn is_quoted_type(number: u32) -> bool
    ensures { result ≡ is_quoted_type number }
{
    is_text_type(Tag(number)) || matches!(number, 28 | 30)
}

/// Writes a string in quotes.
fn write_quoted<W: fmt::Write>(
    f: &mut fmt::Formatter<W>,
    number: u32,
    octets: &[u8],
    limit: Limit,
) -> fmt::Result
    ensures { DisplaysOnOk W.Write.write_str_gives f.old result
        (Some (codes " " ++ quoted_text limit number octets.now)) f.new }
{
    write_spaced(
        f,
        Quoted {
            octets,
            number,
            limit,
        },
    )
}

/// Writes octets in hexadecimal, or as text if they are printable ASCII.
fn write_octets<W: fmt::Write>(
    f: &mut fmt::Formatter<W>,
    octets: &[u8],
    limit: Limit,
) -> fmt::Result
    ensures { DisplaysOnOk W.Write.write_str_gives f.old result (Some (octets_text limit octets.now)) f.new }
{
    if octets.is_empty() {
        return Ok(());
    }
    if is_printable_ascii(octets) {
        return write_quoted(f, Tag::Ia5String.0, octets, limit);
    }
    write_spaced(f, Hex { octets, limit })
}

/// Writes a BOOLEAN, or octets that aren't one.
fn write_boolean<W: fmt::Write>(
    f: &mut fmt::Formatter<W>,
    octets: &[u8],
    limit: Limit,
) -> fmt::Result
    ensures { DisplaysOnOk W.Write.write_str_gives f.old result (Some (boolean_text limit octets.now)) f.new }
{
    match octets {
        [octet] => write_truth(f, *octet),
        _ => write_octets(f, octets, limit),
    }
}

/// Writes the value of a BOOLEAN's octet.
fn write_truth<W: fmt::Write>(f: &mut fmt::Formatter<W>, octet: u8) -> fmt::Result
    ensures { DisplaysOnOk W.Write.write_str_gives f.old result (Some (truth_text octet)) f.new }
{
    if octet == 0 {
        return write!(f, " FALSE");
    }
    if octet == TRUE {
        return write!(f, " TRUE");
    }
    write!(f, " TRUE (")?;
    write_pair(f, octet)?;
    write!(f, ")")
}

/// Writes an identifier and its name.
fn write_identifier<'n, W: fmt::Write>(
    f: &mut fmt::Formatter<W>,
    octets: &[u8],
    limit: Limit,
    own: Option<&'n OwnNames<'n>>,
) -> fmt::Result
    ensures { let w = octets.now in WritesOne W.Write.write_str_gives f.old result (λ text. (name : Option (List ℕ))
        × IsNameAmong (table_of own.entry) w name
        × (text ≡ codes " " ++ identifier_text false w ++ name_text limit name)) f.new }
{
    let arcs = Arcs {
        octets,
        relative: false,
    };
    match name_among(own, octets) {
        Some(text) => {
            write_spaced(f, arcs)?;
            write_spaced(f, Name { text, limit })
        }
        None => write_spaced(f, arcs),
    }
}

/// Writes a relative identifier.
fn write_relative<W: fmt::Write>(f: &mut fmt::Formatter<W>, octets: &[u8]) -> fmt::Result
    ensures { DisplaysOnOk W.Write.write_str_gives f.old result
        (Some (codes " " ++ identifier_text true octets.now)) f.new }
{
    let arcs = Arcs {
        octets,
        relative: true,
    };
    write_spaced(f, arcs)
}

/// Writes a time, or the characters if they aren't a valid time.
fn write_time<W: fmt::Write>(
    f: &mut fmt::Formatter<W>,
    number: u32,
    octets: &[u8],
    limit: Limit,
) -> fmt::Result
    ensures { (own : Option (List Named)) → (number ≡ 23) ⊎ (number ≡ 24)
        → WritesOne W.Write.write_str_gives f.old result (IsUniversalValue own limit number octets.now) f.new }
{
    match read_time(Tag(number), octets) {
        Some(time) => {
            let is_utc_time = number == Tag::UtcTime.0;
            write_spaced(f, Moment { time, is_utc_time })
        }
        None => write_quoted(f, number, octets, limit),
    }
}
