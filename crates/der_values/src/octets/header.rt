//! Headers and numbers: how many octets they have, and their octets (X.690 8.1.2, 8.1.3, 8.3.2).
ghost use Rattle.std.specs.Prelude.{◌≡◌, ◌≤◌, ◌++◌, Bool, length};
ghost use Rattle.der_base.specs.declared.header.Class.{Class};
ghost use Rattle.der_base.specs.Octets.{identifier, shortest_length, shortest_integer, octets, groups, needs_zero};
ghost use Rattle.der_values.specs.Octets.Room.{PutsBefore};

use crate::octets::{write_octet, write_octets};
use der_base::header::{Class, Tag};
use der_base::identifier::leading_octet;

/// How many identifier octets a tag number has (8.1.2).
#[tactic(auto, using(der_base::proofs::Octets::Numbers::identifier_short_length, der_base::proofs::Octets::Numbers::identifier_long_length))]
pub fn identifier_octet_count(tag: Tag) -> usize
    ensures count { (c : Class) (p : Bool) → result ≡ length (identifier c p tag.0) }
    ensures some { 1 ≤ result }
    ensures few { result ≤ 6 }
{
    if tag.0 < 31 {
        1
    } else {
        1 + group_count(tag.0)
    }
}

/// How many length octets a length has, in the shortest form (8.1.3, 10.1).
#[tactic(auto, unfolding(der_base::specs::Octets::shortest_length))]
pub fn length_octet_count(n: usize) -> usize
    ensures count { result ≡ length (shortest_length n) }
    ensures few { result ≤ 9 }
{
    if n < 128 { 1 } else { 1 + octet_count(n) }
}

/// How many octets a number has, none for 0.
#[tactic(auto, using(der_base::proofs::Octets::Numbers::octets_leading))]
pub fn octet_count(n: usize) -> usize
    ensures count { result ≡ length (octets n) }
    ensures few { result ≤ 8 }
{
    8 - n.leading_zeros() as usize / 8
}

/// How many octets a number has in two's complement, the fewest (8.3.2).
#[tactic(auto, unfolding(der_base::specs::Octets::shortest_integer))]
pub fn integer_octet_count(n: u64) -> usize
    ensures count { result ≡ length (shortest_integer n) }
    ensures few { result ≤ 9 }
{
    octet_count(n as usize) + usize::from(needs_zero(n))
}

/// Whether a leading 00 octet is needed: the number has no octets, or their first bit would make it negative (8.3.3).
#[tactic(auto, using(crate::proofs::OctetsLaws::Integers::needs_zero_leading))]
pub fn needs_zero(n: u64) -> bool
    ensures { result ≡ needs_zero (octets n) }
{
    n.leading_zeros() % 8 == 0
}

/// How many groups of seven bits a tag number has (8.1.2.4.2).
#[tactic(auto, using(der_base::proofs::Octets::Numbers::groups_one, der_base::proofs::Octets::Numbers::groups_count))]
fn group_count(n: u32) -> usize
    ensures count { result ≡ length (groups n) }
    ensures few { result ≤ 5 }
{
    match n {
        0..0x80 => 1,
        0x80..0x4000 => 2,
        0x4000..0x20_0000 => 3,
        0x20_0000..0x1000_0000 => 4,
        _ => 5,
    }
}

/// Writes identifier octets before an offset (8.1.2).
#[tactic(auto, using(der_base::proofs::Octets::Identifiers::identifier_short, der_base::proofs::Octets::Identifiers::identifier_long, der_base::proofs::Octets::Numbers::identifier_short_length, der_base::proofs::Octets::Numbers::identifier_long_length))]
pub fn write_identifier(
    out: &mut [u8],
    end: usize,
    class: Class,
    constructed: bool,
    tag: Tag,
) -> usize
    requires room { length (identifier class constructed tag.0) ≤ end }
    requires within { end ≤ length out.old }
    ensures { PutsBefore out.old out.new end (identifier class constructed tag.0) result }
{
    let leading = leading_octet(class, constructed);
    if tag.0 < 31 {
        write_octet(out, end, leading + tag.0 as u8)
    } else {
        let begin = write_groups(out, end, u64::from(tag.0));
        write_octet(out, begin, leading + 31)
    }
}

/// Writes a number before an offset, in the fewest groups of seven bits (8.1.2.4.2, 8.19.2).
pub fn write_groups(out: &mut [u8], end: usize, n: u64) -> usize
    requires room { length (groups n) ≤ end }
    requires within { end ≤ length out.old }
    ensures { PutsBefore out.old out.new end (groups n) result }
{
    let mut begin = end - 1;
    out[begin] = (n % 128) as u8;
    let mut rest = n / 128;
    while rest != 0 {
        begin -= 1;
        out[begin] = 128 + (rest % 128) as u8;
        rest /= 128;
    }
    begin
}

/// Writes a length before an offset, in the fewest octets (8.1.3, 10.1).
#[tactic(auto, using(der_base::proofs::Octets::Numbers::octets_leading), unfolding(der_base::specs::Octets::shortest_length))]
pub fn write_length(out: &mut [u8], end: usize, n: usize) -> usize
    requires room { length (shortest_length n) ≤ end }
    requires within { end ≤ length out.old }
    ensures { PutsBefore out.old out.new end (shortest_length n) result }
{
    if n < 128 {
        write_octet(out, end, n as u8)
    } else {
        let begin = write_number(out, end, n);
        write_octet(out, begin, 128 + (end - begin) as u8)
    }
}

/// Writes a number before an offset, in the fewest octets, none for 0.
#[tactic(auto, using(der_base::proofs::Octets::Numbers::octets_from_bytes))]
pub fn write_number(out: &mut [u8], end: usize, n: usize) -> usize
    requires room { length (octets n) ≤ end }
    requires within { end ≤ length out.old }
    ensures { PutsBefore out.old out.new end (octets n) result }
{
    let zeros = n.leading_zeros() as usize / 8;
    write_octets(out, end, &n.to_be_bytes()[zeros..])
}

/// Writes a number in two's complement before an offset, in the fewest octets (8.3.2).
#[tactic(auto, using(crate::proofs::OctetsLaws::Room::puts_both), unfolding(der_base::specs::Octets::shortest_integer))]
pub fn write_integer(out: &mut [u8], end: usize, n: u64) -> usize
    requires room { length (shortest_integer n) ≤ end }
    requires within { end ≤ length out.old }
    ensures { PutsBefore out.old out.new end (shortest_integer n) result }
{
    let begin = write_number(out, end, n as usize);
    if needs_zero(n) {
        write_octet(out, begin, 0)
    } else {
        begin
    }
}
