//! Numbers in decimal, written from the last digit to the first.
ghost use Rattle.std.specs.Prelude.{◌≡◌, ◌+◌, ◌≤◌, decimal, length, replicate};
ghost use Rattle.der_base.specs.Time.{at_least_digits, digit};
ghost use Rattle.der_values.specs.Octets.Room.{PutsBefore};

use crate::octets::write_octet;

/// How many digits `write_digits` writes.
#[tactic(auto, using(crate::proofs::OctetsLaws::Digits::length_at_least))]
pub fn digits_length(digits: usize, n: u32) -> usize
    ensures count { result ≡ length (at_least_digits digits n) }
    ensures few { result ≤ digits + 10 }
{
    decimal_length(n).max(digits)
}

/// How many digits a number has in decimal.
#[tactic(auto, using(crate::proofs::OctetsLaws::Digits::decimal_count, crate::proofs::OctetsLaws::Digits::decimal_one, crate::proofs::OctetsLaws::Digits::decimal_few))]
fn decimal_length(n: u32) -> usize
    ensures count { result ≡ length (decimal n) }
    ensures few { result ≤ 10 }
{
    let mut count = 1;
    let mut rest = n;
    while rest >= 10 {
        count += 1;
        rest /= 10;
    }
    count
}

/// Writes a number in decimal before an offset, with leading zeros up to a number of digits.
pub fn write_digits(out: &mut [u8], end: usize, digits: usize, n: u32) -> usize
    requires room { length (at_least_digits digits n) ≤ end }
    requires within { end ≤ length out.old }
    ensures { PutsBefore out.old out.new end (at_least_digits digits n) result }
{
    let begin = write_decimal(out, end, u64::from(n));
    write_zeros(out, begin, digits.saturating_sub(end - begin))
}

/// Writes `count` zeros before an offset.
fn write_zeros(out: &mut [u8], end: usize, count: usize) -> usize
    requires room { count ≤ end }
    requires within { end ≤ length out.old }
    ensures { PutsBefore out.old out.new end (replicate count 0x30) result }
{
    let begin = end - count;
    out[begin..end].fill(b'0');
    begin
}

/// Writes a number in decimal before an offset.
pub fn write_decimal(out: &mut [u8], end: usize, n: u64) -> usize
    requires room { length (decimal n) ≤ end }
    requires within { end ≤ length out.old }
    ensures { PutsBefore out.old out.new end (decimal n) result }
{
    let mut begin = end;
    let mut rest = n;
    while rest >= 10 {
        begin = write_octet(out, begin, digit(rest));
        rest /= 10;
    }
    write_octet(out, begin, digit(rest))
}

/// The last digit of a number.
fn digit(n: u64) -> u8
    ensures { result ≡ digit n }
{
    b'0' + (n % 10) as u8
}
