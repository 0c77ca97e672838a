//! The texts of elements, with slashes between them.
ghost use Rattle.std.specs.Prelude.{Some};
ghost use Rattle.std.specs.Fmt.{DisplaysOnOk};
ghost use Rattle.der_print.specs.Writes.{WritesOne};
ghost use Rattle.type_words.specs.Joined.{AreJoined, part_text};

use crate::octets::quoted;
use der_base::rules::Rules;
use der_elements::Walk;
use der_schema::content_of;
use std::fmt;

/// Writes the texts of the outermost elements that these octets begin with by BER, with slashes between them.
pub(crate) fn write_joined<W: fmt::Write>(f: &mut fmt::Formatter<W>, octets: &[u8]) -> fmt::Result
    ensures { WritesOne W.Write.write_str_gives f.old result (AreJoined octets.now) f.new }
{
    let mut walk = Walk::new(octets, Rules::Ber, false).keeping_values();
    'elements: loop {
        match walk.next_element() {
            Ok(Some(element)) if element.depth == 0 => {
                let text = content_of(octets, &element);
                write_part(f, element.index, text)?;
            }
            Ok(Some(_)) => {}
            Ok(None) => return Ok(()),
            Err(_) => return Ok(()),
        }
    }
}

/// Writes a text in quotes, after a slash if it isn't the first.
fn write_part<W: fmt::Write>(f: &mut fmt::Formatter<W>, index: usize, octets: &[u8]) -> fmt::Result
    ensures { DisplaysOnOk W.Write.write_str_gives f.old result (Some (part_text index octets.now)) f.new }
{
    let text = quoted(octets);
    if index == 0 {
        write!(f, "{text}")
    } else {
        write!(f, "/{text}")
    }
}
