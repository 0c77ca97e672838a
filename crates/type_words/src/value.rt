//! The values of items as text.
ghost use Rattle.std.specs.Prelude.{◌≡◌, Some, false};
ghost use Rattle.std.specs.Fmt.{DisplaysOnOk};
ghost use Rattle.std.specs.Option.{option_copied};
ghost use Rattle.type_words.specs.Texts.{flag_text, name_among, name_of, named_text, number_named};

use crate::octets::{Count, Octets, Shown, digits, quoted};
use der_base::integer::read_u64;
use der_print::{Arcs, Limit, Number};
use der_schema::words::{Notation, NumberName};
use std::fmt;
use std::net::Ipv4Addr;

/// What is read of content octets in a notation.
#[derive(Clone, Copy)]
pub(crate) struct Value<'a> {
    pub notation: Notation,
    pub octets: &'a [u8],
}

impl fmt::Display for Value<'_> {
    ghost use Rattle.std.specs.Prelude.{Some};
    ghost use Rattle.type_words.specs.Texts.{value_text};

    ghost output = { λ x. Some (value_text x.notation x.octets.now) };

    fn fmt<W: fmt::Write>(&self, f: &mut fmt::Formatter<W>) -> fmt::Result {
        let octets = self.octets;
        match self.notation {
            Notation::Word(word) => f.write_str(word),
            Notation::Number => {
                let number = number(octets);
                write!(f, "{number}")
            }
            Notation::NumberOf(names) => write_named(f, octets, names),
            Notation::NameOf(names) => write_name(f, octets, names),
            Notation::Arcs => {
                let arcs = arcs(octets);
                write!(f, "{arcs}")
            }
            Notation::Octets => {
                let text = Octets(octets);
                write!(f, "{text}")
            }
            Notation::Hex => {
                let hex = digits(octets);
                write!(f, "{hex}")
            }
            Notation::Length => {
                let count = Count(octets.len());
                write!(f, "{count}")
            }
            Notation::Address => {
                let address = Address(octets);
                write!(f, "{address}")
            }
            Notation::Boolean => write_flag(f, octets),
            Notation::Text => {
                let text = quoted(octets);
                write!(f, "{text}")
            }
            Notation::TextOrHex => {
                let text = Shown(octets);
                write!(f, "{text}")
            }
            _ => Ok(()),
        }
    }
}

/// Writes the value of a BOOLEAN (X.690 8.2.2), or the octets if they aren't one.
fn write_flag<W: fmt::Write>(f: &mut fmt::Formatter<W>, octets: &[u8]) -> fmt::Result
    ensures { DisplaysOnOk W.Write.write_str_gives f.old result (Some (flag_text octets.now)) f.new }
{
    match octets {
        [0] => f.write_str("false"),
        [_] => f.write_str("true"),
        _ => {
            let hex = digits(octets);
            write!(f, "{hex}")
        }
    }
}

/// A number in decimal digits.
fn number(octets: &[u8]) -> Number<'_>
    ensures octets { result.octets.now ≡ octets.now }
    ensures limit { result.limit ≡ Limit.Whole }
{
    Number {
        octets,
        limit: Limit::Whole,
    }
}

/// The arcs of an identifier.
fn arcs(octets: &[u8]) -> Arcs<'_>
    ensures octets { result.octets.now ≡ octets.now }
    ensures relative { result.relative ≡ false }
{
    Arcs {
        octets,
        relative: false,
    }
}

/// Writes a number, and its name if it has one.
fn write_named<W: fmt::Write>(
    f: &mut fmt::Formatter<W>,
    octets: &[u8],
    names: &'static [NumberName],
) -> fmt::Result
    ensures { DisplaysOnOk W.Write.write_str_gives f.old result (Some (number_named names.now octets.now)) f.new }
{
    let number = number(octets);
    let name = Name(name_among(names, octets));
    write!(f, "{number}{name}")
}

/// Writes the name of a number, or the number if it has none.
fn write_name<W: fmt::Write>(
    f: &mut fmt::Formatter<W>,
    octets: &[u8],
    names: &'static [NumberName],
) -> fmt::Result
    ensures { DisplaysOnOk W.Write.write_str_gives f.old result (Some (named_text names.now octets.now)) f.new }
{
    match name_among(names, octets) {
        Some(name) => f.write_str(name),
        None => {
            let number = number(octets);
            write!(f, "{number}")
        }
    }
}

/// The name of the number with these content octets.
pub fn name_among(names: &'static [NumberName], octets: &[u8]) -> Option<&'static str>
    ensures { option_copied result ≡ name_among names.now octets.now }
{
    match read_u64(octets) {
        Ok(number) => name_of(names, number),
        Err(_) => None,
    }
}

/// The name of a number.
fn name_of(names: &'static [NumberName], number: u64) -> Option<&'static str>
    ensures { option_copied result ≡ name_of names.now number }
{
    let mut ahead = names;
    while let Some((one, rest)) = ahead.split_first() {
        if u64::from(one.number) == number {
            return Some(one.name);
        }
        ahead = rest;
    }
    None
}

/// A name after a space, if there is one.
#[derive(Clone, Copy)]
pub struct Name(pub Option<&'static str>);

impl fmt::Display for Name {
    ghost use Rattle.std.specs.Prelude.{Some};
    ghost use Rattle.std.specs.Option.{option_copied};
    ghost use Rattle.type_words.specs.Texts.{name_text};

    ghost output = { λ x. Some (name_text (option_copied x.0)) };

    fn fmt<W: fmt::Write>(&self, f: &mut fmt::Formatter<W>) -> fmt::Result {
        match self.0 {
            Some(name) => write!(f, " {name}"),
            None => Ok(()),
        }
    }
}

/// An address of IPv4 in four octets, or the octets.
#[derive(Clone, Copy)]
struct Address<'a>(&'a [u8]);

impl fmt::Display for Address<'_> {
    ghost use Rattle.std.specs.Prelude.{Some};
    ghost use Rattle.type_words.specs.Texts.{address_text};

    ghost output = { λ x. Some (address_text x.0.now) };

    fn fmt<W: fmt::Write>(&self, f: &mut fmt::Formatter<W>) -> fmt::Result {
        match self.0 {
            &[a, b, c, d] => {
                let address = Ipv4Addr::new(a, b, c, d);
                write!(f, "{address}")
            }
            octets => {
                let hex = digits(octets);
                write!(f, "{hex}")
            }
        }
    }
}
