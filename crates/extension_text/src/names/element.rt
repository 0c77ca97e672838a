//! Values of any type, and texts.
ghost use Rattle.std.specs.Prelude.{◌≡◌, ◌&&◌};
ghost use Rattle.der_cursor.specs.Elements.{element_of};
ghost use Rattle.extension_text.specs.Names.Values.{is_string};

use der_base::any::Any;
use der_base::header::{Class, Tag};
use der_print::{Hex, Limit, Quoted, is_printable_ascii, is_quoted_type};
use std::fmt;

/// A value of any type: a string in quotes, or the content octets of another type.
#[derive(Clone, Copy)]
pub struct AnyValue<'a> {
    pub element: Any<'a>,
}

impl fmt::Display for AnyValue<'_> {
    ghost use Rattle.std.specs.Prelude.{Some};
    ghost use Rattle.der_cursor.specs.Elements.{element_of};
    ghost use Rattle.extension_text.specs.Names.Values.{any_text};

    ghost output = { λ x. Some (any_text (element_of x.element)) };

    fn fmt<W: fmt::Write>(&self, f: &mut fmt::Formatter<W>) -> fmt::Result {
        let octets = self.element.bytes;
        let limit = Limit::Whole;
        if is_string(&self.element) {
            let number = self.element.tag().0;
            return write!(
                f,
                "{}",
                Quoted {
                    octets,
                    number,
                    limit
                }
            );
        }
        write!(f, "{}", Hex { octets, limit })
    }
}

/// Returns whether an element is primitive and a character string.
pub(crate) fn is_string(element: &Any<'_>) -> bool
    ensures { result ≡ is_string (element_of element.now) }
{
    element.class() == Class::Universal
        && !element.header.constructed()
        && is_quoted_type(element.tag().0)
}

/// A text: as it is if it is at least two printable ASCII characters, else in quotes.
#[derive(Clone, Copy)]
pub(crate) struct Plain<'a> {
    pub text: &'a str,
}

impl fmt::Display for Plain<'_> {
    ghost use Rattle.std.specs.Prelude.{Some};
    ghost use Rattle.extension_text.specs.Names.Values.{plain_text};

    ghost output = { λ x. Some (plain_text x.text.now) };

    fn fmt<W: fmt::Write>(&self, f: &mut fmt::Formatter<W>) -> fmt::Result {
        let octets = self.text.as_bytes();
        if is_printable_ascii(octets) {
            return f.write_str(self.text);
        }
        let number = Tag::Utf8String.0;
        let limit = Limit::Whole;
        write!(
            f,
            "{}",
            Quoted {
                octets,
                number,
                limit
            }
        )
    }
}
