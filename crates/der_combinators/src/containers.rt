//! Combinators that keep the parser of an element's content.
ghost use Rattle.std.specs.Prelude.{◌≡◌};
ghost use Rattle.der_base.specs.declared.rules.Rules.TheVariants.{Ber, Der};
ghost use Rattle.der_base.specs.Containers.{ElementRun, Keeps, NumberRun};

use crate::opening::{open_element, open_number, parse_content};
use der_base::error::{BerError, IResult, ParseError};
use der_base::header::{Header, Tag};
use der_base::rules::Rules;
use std::marker::Model;

/// A parser of an element, which keeps the rules and the parser of its content.
#[derive(Drop)]
pub struct Container<F> {
    rules: Rules,
    f: F,
}

impl<F> Model for Container<F> {
    ghost use Rattle.der_base.specs.declared.rules.Rules.{Rules};

    ghost Value = { Rules × F };

    ghost view = { λ c. (c.rules, c.f) };
}

/// A BER parser of an element with any tag. `f` gets its content and header.
pub fn parse_ber_container<'a, F, O, E>(f: F) -> Container<F>
where
    F: FnMut(&'a [u8], Header<'a>) -> IResult<&'a [u8], O, E>,
    ensures { result ≡ (Ber, f) }
{
    Container {
        rules: Rules::Ber,
        f,
    }
}

/// A DER parser of an element with any tag. `f` gets its content and header.
pub fn parse_der_container<'a, F, O, E>(f: F) -> Container<F>
where
    F: FnMut(&'a [u8], Header<'a>) -> IResult<&'a [u8], O, E>,
    ensures { result ≡ (Der, f) }
{
    Container {
        rules: Rules::Der,
        f,
    }
}

impl<F> Container<F> {
    /// Reads an element by the rules. Calls the kept parser once, on exactly the content octets and the header, and
    /// returns its result. The rest of an Ok is what follows the element; what the parser leaves of the content is
    /// dropped. By BER the length may be definite or indefinite (X.690 8.1.3), and end-of-contents octets are no part
    /// of the content. The content isn't checked. It allocates nothing.
    ///
    /// Errors, without a call of the parser: by BER those of `Any::from_ber`, by DER those of
    /// `der_read_element_header`; if a definite content is cut short, the Error of Eof at the octets after the header.
    /// Incomplete if the input ends within a header, or within the content of an indefinite length.
    #[inline(always)]
    pub fn parse<'a, O, E>(&mut self, i: &'a [u8]) -> IResult<&'a [u8], O, E>
    where
        F: FnMut(&'a [u8], Header<'a>) -> IResult<&'a [u8], O, E>,
        E: ParseError<&'a [u8]> + From<BerError>,
        requires { F.IsAlwaysCallable self.old.1 }
        ensures callable { F.IsAlwaysCallable self.new.1 }
        ensures run { Keeps (λ t. ElementRun t E.from_error_kind_gives E.from_gives i.now F.step)
            self.old result self.new }
    {
        parse_content(&mut self.f, open_element(self.rules, i))
    }
}

/// A parser of an element of a tag number, which keeps the rules, the number and the parser of its
/// content.
#[derive(Drop)]
pub struct NumberedContainer<F> {
    rules: Rules,
    tag: Tag,
    f: F,
}

impl<F> Model for NumberedContainer<F> {
    ghost use Rattle.std.specs.Prelude.{ℕ};
    ghost use Rattle.der_base.specs.declared.rules.Rules.{Rules};

    ghost Value = { (Rules × ℕ) × F };

    ghost view = { λ c. ((c.rules, c.tag.0), c.f) };
}

/// A BER parser of an element with tag number 16, SEQUENCE. `f` gets its content and header.
pub fn parse_ber_sequence_defined_g<'a, F, O, E>(f: F) -> NumberedContainer<F>
where
    F: FnMut(&'a [u8], Header<'a>) -> IResult<&'a [u8], O, E>,
    ensures { result ≡ ((Ber, 16), f) }
{
    NumberedContainer {
        rules: Rules::Ber,
        tag: Tag::Sequence,
        f,
    }
}

/// A BER parser of an element with tag number 17, SET. `f` gets its content and header.
pub fn parse_ber_set_defined_g<'a, F, O, E>(f: F) -> NumberedContainer<F>
where
    F: FnMut(&'a [u8], Header<'a>) -> IResult<&'a [u8], O, E>,
    ensures { result ≡ ((Ber, 17), f) }
{
    NumberedContainer {
        rules: Rules::Ber,
        tag: Tag::Set,
        f,
    }
}

/// A DER parser of an element with tag number 16, SEQUENCE. `f` gets its content and header.
pub fn parse_der_sequence_defined_g<'a, F, O, E>(f: F) -> NumberedContainer<F>
where
    F: FnMut(&'a [u8], Header<'a>) -> IResult<&'a [u8], O, E>,
    ensures { result ≡ ((Der, 16), f) }
{
    NumberedContainer {
        rules: Rules::Der,
        tag: Tag::Sequence,
        f,
    }
}

/// A DER parser of an element with tag number 17, SET. `f` gets its content and header.
pub fn parse_der_set_defined_g<'a, F, O, E>(f: F) -> NumberedContainer<F>
where
    F: FnMut(&'a [u8], Header<'a>) -> IResult<&'a [u8], O, E>,
    ensures { result ≡ ((Der, 17), f) }
{
    NumberedContainer {
        rules: Rules::Der,
        tag: Tag::Set,
        f,
    }
}

impl<F> NumberedContainer<F> {
    /// `Container::parse` for an element with the tag number, of any class, primitive or constructed. Another number is
    /// UnexpectedTag, after the errors of `Container::parse`, without a call of the parser.
    #[inline(always)]
    pub fn parse<'a, O, E>(&mut self, i: &'a [u8]) -> IResult<&'a [u8], O, E>
    where
        F: FnMut(&'a [u8], Header<'a>) -> IResult<&'a [u8], O, E>,
        E: ParseError<&'a [u8]> + From<BerError>,
        requires { F.IsAlwaysCallable self.old.1 }
        ensures callable { F.IsAlwaysCallable self.new.1 }
        ensures run { Keeps (λ t. NumberRun t.0 t.1 E.from_error_kind_gives E.from_gives i.now F.step)
            self.old result self.new }
    {
        parse_content(&mut self.f, open_number(self.rules, i, self.tag))
    }
}
