//! Octets in hexadecimal.
ghost use Rattle.std.specs.Prelude.{◌≡◌, Some};
ghost use Rattle.std.specs.Fmt.{DisplaysOnOk};
ghost use Rattle.hex.specs.Hex.{encode_lower};
ghost use Rattle.der_print.specs.Values.{printed_octets};

use crate::style::Limit;
use crate::text::write_number;
use std::{fmt, str};

/// The most octets that are printed whole if long values are cut.
const WHOLE: usize = 32;

/// The number of octets that are printed of a longer value.
const FRONT: usize = 20;

/// The column of the space before the digits.
const SPACE: usize = 1;

/// The columns beside the digits of a cut value, such as ` 3003...`.
const POINTS: usize = 4;

/// The columns beside the digits of a cut value with its size, such as ` 3003... (1234 octets)`.
const ENDING: usize = 18;

/// The fewest columns for a cut value with its size.
const LEAST: usize = 26;

/// The octets that are written at once.
const MANY: usize = 32;

/// Octets in hexadecimal. If they are cut, three dots and their number follow.
#[derive(Clone, Copy)]
pub struct Hex<'a> {
    pub octets: &'a [u8],
    pub limit: Limit,
}

impl fmt::Display for Hex<'_> {
    ghost use Rattle.std.specs.Prelude.{Some};
    ghost use Rattle.der_print.specs.Values.{hex_text};

    ghost output = { λ x. Some (hex_text x.limit x.octets.now) };

    fn fmt<W: fmt::Write>(&self, f: &mut fmt::Formatter<W>) -> fmt::Result {
        let number = self.octets.len();
        let printed = printed_octets(number, self.limit);
        if printed < number {
            write_digits(f, &self.octets[..printed])?;
            f.write_str("...")?;
            return write_number(f, number, self.limit, LEAST);
        }
        write_digits(f, self.octets)
    }
}

/// The number of octets to print.
pub(crate) fn printed_octets(number: usize, limit: Limit) -> usize
    ensures { result ≡ printed_octets limit number }
{
    match limit {
        Limit::Whole => number,
        Limit::Front if number <= WHOLE => number,
        Limit::Front => FRONT,
        Limit::Columns(columns) if number <= columns.saturating_sub(SPACE) / 2 => number,
        Limit::Columns(columns) if columns < LEAST => columns.saturating_sub(POINTS) / 2,
        Limit::Columns(columns) => columns.saturating_sub(ENDING) / 2,
    }
}

/// Writes octets in hexadecimal.
fn write_digits<W: fmt::Write>(f: &mut fmt::Formatter<W>, octets: &[u8]) -> fmt::Result
    ensures { DisplaysOnOk W.Write.write_str_gives f.old result (Some (encode_lower octets.now)) f.new }
{
    let mut rest = octets;
    while !rest.is_empty() {
        let (first, others) = rest.split_at(rest.len().min(MANY));
        write_few(f, first)?;
        rest = others;
    }
    Ok(())
}

/// Writes a few octets at once.
fn write_few<W: fmt::Write>(f: &mut fmt::Formatter<W>, octets: &[u8]) -> fmt::Result
    ensures { DisplaysOnOk W.Write.write_str_gives f.old result (Some (encode_lower octets.now)) f.new }
{
    let mut room = [0; 2 * MANY];
    let Some(digits) = room.get_mut(..octets.len().saturating_mul(2)) else {
        return Err(fmt::Error);
    };
    let Ok(()) = hex::encode_to_slice(octets, digits) else {
        return Err(fmt::Error);
    };
    match str::from_utf8(digits) {
        Ok(digits) => f.write_str(digits),
        Err(_) => Err(fmt::Error),
    }
}
