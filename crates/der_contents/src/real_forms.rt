//! REAL (X.690 8.5; by DER 11.3).
ghost use Rattle.std.specs.Prelude.{◌≡◌, ◌↔◌, ◌∷◌, IsTrue, take, drop};
ghost use Rattle.der_base.specs.Leaf.{IsMinimalInteger};
ghost use Rattle.der_base.specs.Time.{IsDigit};
ghost use Rattle.der_contents.specs.ContentRules.{Checks, binary_rules, decimal_rules, real_rules, special_rules};
ghost use Rattle.der_contents.specs.ContentRules.{strict_binary_rules};
ghost use Rattle.der_contents.specs.Grammar.{AnyThen, BeginsWithNo, Ends, IsMark, IsMinus, IsZero, MaybeThen, OneThen};
ghost use Rattle.der_contents.specs.Grammar.{SomeThen, Strips, ToNonzeroThen};
ghost use Rattle.der_contents.specs.RealForms.{EndsOdd, IsDecimal, IsExponentMark, IsMarked, IsMarkedPower, IsOfForm};
ghost use Rattle.der_contents.specs.RealForms.{IsPower, IsScaled, IsStrictDecimal, IsStrictExponent, IsStrictMantissa};
ghost use Rattle.der_contents.specs.RealForms.{IsStrictPower, IsStrictWhole, IsUpperE, IsWhole, counted, exponent_of};
ghost use Rattle.der_contents.specs.RealForms.{mantissa_of};

use crate::content_error::ContentError;
use crate::grammar::{
    count_digits, is_end, is_whole, skip_digits, skip_sign, skip_spaces, strip_digits, strip_mark,
    strip_octet,
};
use der_base::integer::check_fewest_octets;
use der_base::rules::Rules;

/// The least first octet of a special value: bits 8 and 7 are 01 (8.5.6).
const SPECIAL: u8 = 0x40;
/// The greatest first octet of a special value: minus zero (8.5.9).
const MINUS_ZERO: u8 = 0x43;
/// The least first octet of a value in binary: bit 8 is 1 (8.5.6).
const BINARY: u8 = 0x80;
/// Bits 6 and 5 of a reserved base (8.5.7.2).
const RESERVED_BASE: u8 = 3;
/// Bits 2 and 1 if the next octet is the number of octets of the exponent (8.5.7.4).
const COUNTED: u8 = 3;
/// The most octets of an exponent that isn't counted.
const MOST_UNCOUNTED: usize = 3;
/// The first octets of the forms of ISO 6093 (8.5.8).
const NR1: u8 = 1;

const NR2: u8 = 2;

const NR3: u8 = 3;

/// Checks the octets of a REAL.
pub(crate) fn check_real(rules: Rules, octets: &[u8]) -> Result<(), ContentError>
    ensures { Checks (real_rules rules octets.now) result }
{
    match octets {
        [] => Ok(()),
        [first, rest @ ..] => check_form(rules, *first, rest),
    }
}

fn check_form(rules: Rules, first: u8, rest: &[u8]) -> Result<(), ContentError>
    ensures { Checks (real_rules rules (first ∷ rest.now)) result }
{
    if first < SPECIAL {
        return check_decimal(rules, first, rest);
    }
    if first < BINARY {
        return check_special(first, rest);
    }
    check_binary(rules, first, rest)
}

fn check_special(first: u8, rest: &[u8]) -> Result<(), ContentError>
    ensures { Checks (special_rules first rest.now) result }
{
    if first <= MINUS_ZERO && is_end(rest) {
        return Ok(());
    }
    Err(ContentError::RealSpecial)
}

fn check_binary(rules: Rules, first: u8, rest: &[u8]) -> Result<(), ContentError>
    ensures { Checks (binary_rules rules first (exponent_of first rest.now) (mantissa_of first rest.now)) result }
{
    let (exponent, mantissa) = split_exponent(first, rest);
    check_parts(rules, first, exponent, mantissa)
}

/// The exponent and the mantissa after the first octet.
fn split_exponent(first: u8, rest: &[u8]) -> (&[u8], &[u8])
    ensures exponent { result.0.now ≡ exponent_of first rest.now }
    ensures mantissa { result.1.now ≡ mantissa_of first rest.now }
{
    if first % 4 == COUNTED {
        return split_counted(rest);
    }
    split_octets(rest, usize::from(first % 4) + 1)
}

/// As many octets as the first octet says, and those after them.
fn split_counted(octets: &[u8]) -> (&[u8], &[u8])
    ensures front { result.0.now ≡ take (counted octets.now).0 (counted octets.now).1 }
    ensures back { result.1.now ≡ drop (counted octets.now).0 (counted octets.now).1 }
{
    match octets {
        [] => (octets, octets),
        [count, rest @ ..] => split_octets(rest, usize::from(*count)),
    }
}

/// The first `count` octets, or all if there are fewer, and those after them.
fn split_octets(octets: &[u8], count: usize) -> (&[u8], &[u8])
    ensures front { result.0.now ≡ take count octets.now }
    ensures back { result.1.now ≡ drop count octets.now }
{
    if count < octets.len() {
        return octets.split_at(count);
    }
    octets.split_at(octets.len())
}

fn check_parts(
    rules: Rules,
    first: u8,
    exponent: &[u8],
    mantissa: &[u8],
) -> Result<(), ContentError>
    ensures { Checks (binary_rules rules first exponent.now mantissa.now) result }
{
    if first / 16 % 4 == RESERVED_BASE {
        return Err(ContentError::RealBaseReserved);
    }
    if is_end(exponent) {
        return Err(ContentError::RealExponentMissing);
    }
    if is_end(mantissa) {
        return Err(ContentError::RealMantissaMissing);
    }
    if first % 4 == COUNTED && !is_fewest(exponent) {
        return Err(ContentError::RealExponentPadded);
    }
    match rules {
        Rules::Ber => Ok(()),
        Rules::Der => check_strict_parts(first, exponent, mantissa),
    }
}

fn check_strict_parts(first: u8, exponent: &[u8], mantissa: &[u8]) -> Result<(), ContentError>
    ensures { Checks (strict_binary_rules first exponent.now mantissa.now) result }
{
    if first / 4 % 16 != 0 {
        return Err(ContentError::RealBaseOrScale);
    }
    if !is_fewest(exponent) {
        return Err(ContentError::RealExponentNotFewest);
    }
    if first % 4 == COUNTED && exponent.len() <= MOST_UNCOUNTED {
        return Err(ContentError::RealExponentNotFewest);
    }
    if !is_odd(mantissa) {
        return Err(ContentError::RealMantissaNotFewest);
    }
    Ok(())
}

/// Whether a number in two's complement has octets, and its first nine bits aren't alike.
pub(crate) fn is_fewest(octets: &[u8]) -> bool
    ensures { IsTrue result ↔ IsMinimalInteger octets.now }
{
    match check_fewest_octets(octets) {
        Ok(()) => true,
        Err(_) => false,
    }
}

/// Whether a mantissa is odd and its first octet isn't 0.
fn is_odd(mantissa: &[u8]) -> bool
    ensures { IsTrue result ↔ (BeginsWithNo (λ b. b ≡ 0) mantissa.now × EndsOdd mantissa.now) }
{
    match strip_octet(mantissa, 0) {
        Some(_) => false,
        None => ends_odd(mantissa),
    }
}

fn ends_odd(octets: &[u8]) -> bool
    ensures { IsTrue result ↔ EndsOdd octets.now }
{
    match octets.last() {
        Some(octet) => *octet % 2 == 1,
        None => false,
    }
}

fn check_decimal(rules: Rules, form: u8, text: &[u8]) -> Result<(), ContentError>
    ensures { Checks (decimal_rules rules form text.now) result }
{
    if !is_decimal(form, text) {
        return Err(ContentError::RealDecimal);
    }
    match rules {
        Rules::Ber => Ok(()),
        Rules::Der if form == NR3 && is_strict_decimal(text) => Ok(()),
        Rules::Der => Err(ContentError::RealDecimalNotStrict),
    }
}

/// Whether a text is a number in a form of ISO 6093.
fn is_decimal(form: u8, text: &[u8]) -> bool
    ensures { IsTrue result ↔ IsDecimal form text.now }
{
    let number = skip_sign(skip_spaces(text));
    is_of_form(form, number)
}

fn is_of_form(form: u8, number: &[u8]) -> bool
    ensures { IsTrue result ↔ IsOfForm form number.now }
{
    match form {
        NR1 => is_whole(number),
        NR2 => is_marked(number),
        NR3 => is_scaled(number),
        _ => false,
    }
}

fn is_marked(number: &[u8]) -> bool
    ensures { IsTrue result ↔ IsMarked number.now }
{
    match strip_digits(number) {
        Some(rest) => is_mark_and_digits(rest),
        None => is_fraction(number),
    }
}

fn is_mark_and_digits(octets: &[u8]) -> bool
    ensures { IsTrue result ↔ OneThen IsMark (AnyThen IsDigit Ends) octets.now }
{
    match strip_mark(octets) {
        Some(digits) => is_end(skip_digits(digits)),
        None => false,
    }
}

fn is_fraction(octets: &[u8]) -> bool
    ensures { IsTrue result ↔ OneThen IsMark IsWhole octets.now }
{
    match strip_mark(octets) {
        Some(digits) => is_whole(digits),
        None => false,
    }
}

fn is_scaled(number: &[u8]) -> bool
    ensures { IsTrue result ↔ IsScaled number.now }
{
    match strip_digits(number) {
        Some(rest) => is_marked_power(rest),
        None => is_scaled_fraction(number),
    }
}

fn is_marked_power(octets: &[u8]) -> bool
    ensures { IsTrue result ↔ IsMarkedPower octets.now }
{
    match strip_mark(octets) {
        Some(digits) => is_power(skip_digits(digits)),
        None => is_power(octets),
    }
}

fn is_scaled_fraction(octets: &[u8]) -> bool
    ensures { IsTrue result ↔ OneThen IsMark (SomeThen IsDigit IsPower) octets.now }
{
    match strip_mark(octets) {
        Some(digits) => is_digits_and_power(digits),
        None => false,
    }
}

fn is_digits_and_power(octets: &[u8]) -> bool
    ensures { IsTrue result ↔ SomeThen IsDigit IsPower octets.now }
{
    match strip_digits(octets) {
        Some(power) => is_power(power),
        None => false,
    }
}

/// Whether the octets are a power of ten.
fn is_power(octets: &[u8]) -> bool
    ensures { IsTrue result ↔ IsPower octets.now }
{
    match strip_exponent_mark(octets) {
        Some(exponent) => is_whole(skip_sign(exponent)),
        None => false,
    }
}

fn strip_exponent_mark(octets: &[u8]) -> Option<&[u8]>
    ensures { Strips (OneThen IsExponentMark) octets.now result }
{
    match octets {
        [b'E' | b'e', rest @ ..] => Some(rest),
        _ => None,
    }
}

/// Whether a text is a number in the form of DER.
fn is_strict_decimal(text: &[u8]) -> bool
    ensures { IsTrue result ↔ IsStrictDecimal text.now }
{
    match strip_octet(text, b'-') {
        Some(mantissa) => is_strict_mantissa(mantissa),
        None => is_strict_mantissa(text),
    }
}

fn is_strict_mantissa(octets: &[u8]) -> bool
    ensures { IsTrue result ↔ IsStrictMantissa octets.now }
{
    match strip_octet(octets, b'0') {
        Some(_) => false,
        None => is_to_nonzero(octets),
    }
}

fn is_to_nonzero(octets: &[u8]) -> bool
    ensures { IsTrue result ↔ ToNonzeroThen IsStrictPower octets.now }
{
    let count = count_digits(octets);
    if count == 0 || octets[count - 1] == b'0' {
        return false;
    }
    is_strict_power(&octets[count..])
}

fn is_strict_power(octets: &[u8]) -> bool
    ensures { IsTrue result ↔ IsStrictPower octets.now }
{
    match strip_octet(octets, b'.') {
        Some(rest) => is_strict_scale(rest),
        None => false,
    }
}

fn is_strict_scale(octets: &[u8]) -> bool
    ensures { IsTrue result ↔ OneThen IsUpperE IsStrictExponent octets.now }
{
    match strip_octet(octets, b'E') {
        Some(exponent) => is_strict_exponent(exponent),
        None => false,
    }
}

fn is_strict_exponent(octets: &[u8]) -> bool
    ensures { IsTrue result ↔ IsStrictExponent octets.now }
{
    match strip_octet(octets, b'+') {
        Some(zero) => is_zero(zero),
        None => is_negative_or_whole(octets),
    }
}

fn is_zero(octets: &[u8]) -> bool
    ensures { IsTrue result ↔ OneThen IsZero Ends octets.now }
{
    match strip_octet(octets, b'0') {
        Some(rest) => is_end(rest),
        None => false,
    }
}

fn is_negative_or_whole(octets: &[u8]) -> bool
    ensures { IsTrue result ↔ MaybeThen IsMinus IsStrictWhole octets.now }
{
    match strip_octet(octets, b'-') {
        Some(whole) => is_strict_whole(whole),
        None => is_strict_whole(octets),
    }
}

/// Whether the octets are digits that don't begin with 0.
fn is_strict_whole(octets: &[u8]) -> bool
    ensures { IsTrue result ↔ IsStrictWhole octets.now }
{
    match strip_octet(octets, b'0') {
        Some(_) => false,
        None => is_whole(octets),
    }
}
