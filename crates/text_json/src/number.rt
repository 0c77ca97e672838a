//! The text of an INTEGER or ENUMERATED.
ghost use Rattle.std.specs.Prelude.{◌≡◌, ◌<ℤ◌, IfOk, nat_abs, pos, string_bytes};
ghost use Rattle.der_base.specs.Octets.{integer_value, number, octets};
ghost use Rattle.text_json.specs.Numbers.{hexadecimal_text, number_text};
ghost use Rattle.der_print.specs.declared.style.Limit.TheVariants.{Whole};

use der_base::integer::is_negative;
use der_print::{Hex, Limit};
use der_values::to_decimal;
use std::alloc::{AllocError, Global};

/// The most content octets of a number in decimal, whose time is quadratic. The modulus of an RSA key of 16,384 bits
/// has 2,049.
const MOST_DECIMAL_OCTETS: usize = 4096;

/// The text of a number: decimal, or hexadecimal such as `-0x0100` if it has more content octets.
pub(crate) fn number_text(alloc: Global, content: &[u8]) -> Result<String, AllocError>
    ensures { IfOk result (λ text. string_bytes text ≡ number_text content.now) }
{
    if content.len() <= MOST_DECIMAL_OCTETS {
        return to_decimal(alloc, content);
    }
    to_hexadecimal(alloc, content)
}

/// The magnitude in the fewest hexadecimal octets, after the sign and `0x`.
fn to_hexadecimal(alloc: Global, content: &[u8]) -> Result<String, AllocError>
    ensures { IfOk result (λ text. string_bytes text ≡ hexadecimal_text (integer_value content.now)) }
{
    if is_negative(content) {
        let magnitude = negated(alloc, content)?;
        let digits = hexadecimal(&magnitude);
        return format!(in alloc; "-0x{digits}");
    }
    let digits = hexadecimal(content);
    format!(in alloc; "0x{digits}")
}

/// The octets in hexadecimal, without leading zeros.
fn hexadecimal(padded: &[u8]) -> Hex<'_>
    ensures octets { result.octets.now ≡ octets (number padded.now) }
    ensures limit { result.limit ≡ Whole }
{
    let octets = without_leading_zeros(padded);
    let limit = Limit::Whole;
    Hex { octets, limit }
}

/// The octets without leading zeros.
fn without_leading_zeros(padded: &[u8]) -> &[u8]
    ensures { result.now ≡ octets (number padded.now) }
{
    let mut rest = padded;
    while let [first, others @ ..] = rest {
        if *first != 0 {
            return rest;
        }
        rest = others;
    }
    &[]
}

/// The magnitude of a negative number, in as many octets: 0 minus the number, from the last octet to the first.
fn negated(alloc: Global, content: &[u8]) -> Result<Vec<u8>, AllocError>
    requires { integer_value content.now <ℤ pos 0 }
    ensures { IfOk result (λ magnitude. number magnitude.items ≡ nat_abs (integer_value content.now)) }
{
    let mut reversed = Vec::with_capacity(alloc, content.len())?;
    let mut rest = content;
    let mut borrowed: u16 = 0;
    while let Some((last, before)) = rest.split_last() {
        let left = 256 - u16::from(*last) - borrowed;
        reversed.push((left % 256) as u8)?;
        borrowed = 1 - left / 256;
        rest = before;
    }
    reversed.reverse();
    Ok(reversed)
}
