//! The rules of RFC 5280 by their numbers, and those that a certificate or a CRL breaks.
ghost use Rattle.std.specs.Prelude.{◌≡◌, ◌<◌, ◌+◌, ◌^◌, ◌∷◌, [], ◌++◌, length};
ghost use Rattle.c_formats.specs.Certificates.{certificate_fault};
ghost use Rattle.c_formats.specs.RevokedLists.{list_fault};
ghost use Rattle.c_formats.specs.Rules.{HasBroken, ListHasBroken, PutsBroken, item, kind, rule_kind};
ghost use Rattle.c_values.specs.Faults.{Written};
ghost use Rattle.der_elements.specs.Check.Overlay.{overlay};
ghost use Rattle.x509.specs.Certificates.{certificate_of};
ghost use Rattle.x509.specs.Crl.Lists.{certificate_list_of};
ghost use Rattle.x509_rules.specs.Crl.ListRules.{BreaksList};
ghost use Rattle.x509_rules.specs.Rules.{Breaks};

use crate::certificate::certificate_fault;
use crate::revoked::list_fault;
use arrayvec::ArrayString;
use c_values::error_text::LONGEST;
use c_values::fault::{DmFault, no_fault};
use std::fmt::Write;
use x509::crl::{CertificateList, CertificateListError};
use x509::{Certificate, CertificateError};
use x509_rules::crl::{
    ListRule, MUST_LIST_RULES, SHOULD_LIST_RULES, examine_list, examined_list_breaks,
};
use x509_rules::{MUST_RULES, Rule, SHOULD_RULES, breaks_examined, examine};

/// The number of the first of `MUST_RULES`. The others follow, then `SHOULD_RULES`.
const FIRST_RULE: u32 = 1;

/// The number of the first of `MUST_LIST_RULES`. The others follow, then `SHOULD_LIST_RULES`.
const FIRST_LIST_RULE: u32 = 1001;

/// The kind of a rule with MUST or MUST NOT.
const MUST: u32 = 1;

/// The kind of a rule with SHOULD or SHOULD NOT.
const SHOULD: u32 = 2;

/// Writes the numbers of the rules that a certificate breaks, and how many there are, or returns the fault.
pub fn write_broken(
    found: Result<Certificate<'_>, CertificateError>,
    numbers: &mut [u32],
    count: &mut usize,
) -> DmFault
    ensures { Written (HasBroken numbers.old) certificate_fault found.entry (numbers.old, count.old)
        (numbers.new, count.new) result }
{
    match found {
        Ok(found) => {
            *count = put_broken(&found, MUST_RULES, SHOULD_RULES, numbers);
            no_fault()
        }
        Err(e) => certificate_fault(e),
    }
}

/// Writes the numbers of the rules that a CRL breaks, and how many there are, or returns the fault.
pub fn write_broken_of_list(
    found: Result<CertificateList<'_>, CertificateListError>,
    numbers: &mut [u32],
    count: &mut usize,
) -> DmFault
    ensures { Written (ListHasBroken numbers.old) list_fault found.entry (numbers.old, count.old)
        (numbers.new, count.new) result }
{
    match found {
        Ok(found) => {
            *count = put_broken_of_list(&found, MUST_LIST_RULES, SHOULD_LIST_RULES, numbers);
            no_fault()
        }
        Err(e) => list_fault(e),
    }
}

/// Writes the numbers of the rules that a certificate breaks, as far as the capacity allows. Returns how many there
/// are.
fn put_broken(
    certificate: &Certificate<'_>,
    rules: &[Rule],
    others: &[Rule],
    numbers: &mut [u32],
) -> usize
    requires { length rules.now + length others.now < 2 ^ 31 }
    ensures { PutsBroken (λ r. Breaks r (certificate_of certificate.now)) 1 (rules.now ++ others.now) numbers.old
        (numbers.new, result) }
{
    let examined = examine(certificate);
    let mut count = 0;
    let mut index = 0;
    while let Some(rule) = item(rules, others, index) {
        if breaks_examined(rule, &examined) {
            put_number(numbers, count, FIRST_RULE + index);
            count += 1;
        }
        index += 1;
    }
    count
}

/// Writes the numbers of the rules that a CRL breaks, as far as the capacity allows. Returns how many there are.
fn put_broken_of_list(
    list: &CertificateList<'_>,
    rules: &[ListRule],
    others: &[ListRule],
    numbers: &mut [u32],
) -> usize
    requires { length rules.now + length others.now < 2 ^ 31 }
    ensures { PutsBroken (λ r. BreaksList r (certificate_list_of list.now)) 1001 (rules.now ++ others.now) numbers.old
        (numbers.new, result) }
{
    let examined = examine_list(list);
    let mut count = 0;
    let mut index = 0;
    while let Some(rule) = item(rules, others, index) {
        if examined_list_breaks(rule, &examined) {
            put_number(numbers, count, FIRST_LIST_RULE + index);
            count += 1;
        }
        index += 1;
    }
    count
}

/// Writes a number at an index, if the capacity allows.
fn put_number(numbers: &mut [u32], at: usize, number: u32)
    ensures { numbers.new ≡ overlay numbers.old at (number ∷ []) }
{
    if at < numbers.len() {
        numbers[at] = number;
    }
}

/// The item of a list, or of the one that follows it.
fn item<T: Copy>(items: &[T], others: &[T], index: u32) -> Option<T>
    ensures { result ≡ item items.now others.now index }
{
    let index = index as usize;
    if index < items.len() {
        return Some(items[index]);
    }
    others.get(index - items.len()).copied()
}

/// The kind of the rule with this number: 1 for MUST, 2 for SHOULD, 0 if there is no such rule.
pub fn rule_kind(number: u32) -> u32
    ensures { result ≡ rule_kind number }
{
    if number < FIRST_RULE {
        return 0;
    }
    if number < FIRST_LIST_RULE {
        return kind(MUST_RULES, SHOULD_RULES, number - FIRST_RULE);
    }
    kind(MUST_LIST_RULES, SHOULD_LIST_RULES, number - FIRST_LIST_RULE)
}

/// The kind of the rule with this index; 0 if there is none.
fn kind<T: Copy>(must: &[T], should: &[T], index: u32) -> u32
    ensures { result ≡ kind must.now should.now index }
{
    let index = index as usize;
    if index < must.len() {
        return MUST;
    }
    if index - must.len() < should.len() {
        return SHOULD;
    }
    0
}

/// The sentence of the rule with this number, with its section; empty if there is no such rule.
pub fn words_of_rule(number: u32) -> ArrayString<LONGEST> {
    let mut words = ArrayString::<LONGEST>::new();
    if let Some(rule) = rule_with(number) {
        let _ = write!(words, "{rule}");
    }
    if let Some(rule) = list_rule_with(number) {
        let _ = write!(words, "{rule}");
    }
    words
}

/// The rule of certificates with this number.
fn rule_with(number: u32) -> Option<Rule> {
    item(MUST_RULES, SHOULD_RULES, number.checked_sub(FIRST_RULE)?)
}

/// The rule of CRLs with this number.
fn list_rule_with(number: u32) -> Option<ListRule> {
    item(
        MUST_LIST_RULES,
        SHOULD_LIST_RULES,
        number.checked_sub(FIRST_LIST_RULE)?,
    )
}
