//! The rules of RFC 5280 that a certificate or CRL breaks.
ghost use Rattle.std.specs.Prelude.{◌↔◌, IfOk, IsTrue};
ghost use Rattle.std.specs.List.{All};
ghost use Rattle.x509.specs.Crl.Lists.{certificate_list_of};
ghost use Rattle.x509.specs.Certificates.{certificate_of};
ghost use Rattle.x509_rules.specs.Crl.Examined.{IsExaminedList, signed_list_of};
ghost use Rattle.x509_rules.specs.Crl.ListRules.{BreaksList};
ghost use Rattle.x509_rules.specs.Examined.{IsExamined, signed_of};
ghost use Rattle.x509_rules.specs.Rules.{Breaks};
ghost use Rattle.der_show.specs.Known.{NoListRuleBroken, NoRuleBroken};
ghost use Rattle.der_show.specs.Rules.{AreBroken, AreListRules, AreRules, WritesText};

use extension_text::names::lines::write_displayed;
use std::fmt;
use x509::Certificate;
use x509::crl::CertificateList;
use x509_rules::crl::{
    ExaminedList, ListRule, MUST_LIST_RULES, SHOULD_LIST_RULES, examine_list, first_broken_of_list,
};
use x509_rules::{Examined, MUST_RULES, Rule, SHOULD_RULES, examine, first_broken};

/// The text before a broken MUST rule.
const RULE: &str = "  Broken rule: ";

/// The text before a broken SHOULD rule.
const RECOMMENDATION: &str = "  Broken recommendation: ";

/// Writes a line for each rule that a certificate breaks. Returns whether it keeps every MUST rule.
pub(crate) fn write_rules<W: fmt::Write>(
    f: &mut fmt::Formatter<W>,
    certificate: &Certificate<'_>,
) -> Result<bool, fmt::Error>
    ensures text { WritesText W.Write.write_str_gives f.old result (AreRules (certificate_of certificate.now)) f.new }
    ensures rules { IfOk result (λ keeps. IsTrue keeps ↔ NoRuleBroken (certificate_of certificate.now)) }
{
    let examined = examine(certificate);
    let keeps_rules = write_broken(f, RULE, &examined, MUST_RULES)?;
    write_broken(f, RECOMMENDATION, &examined, SHOULD_RULES)?;
    Ok(keeps_rules)
}

/// Writes a line for each of these rules that a certificate breaks. Returns whether it keeps all of them.
fn write_broken<W: fmt::Write>(
    f: &mut fmt::Formatter<W>,
    label: &str,
    certificate: &Examined<'_, '_>,
    rules: &[Rule],
) -> Result<bool, fmt::Error>
    requires { IsExamined certificate.now }
    ensures text { WritesText W.Write.write_str_gives f.old result
        (AreBroken (λ r. Breaks r (signed_of certificate.now)) label.now rules.now) f.new }
    ensures rules { IfOk result (λ keeps.
        IsTrue keeps ↔ All (λ r. ¬ Breaks r (signed_of certificate.now)) rules.now) }
{
    let mut keeps_all = true;
    let mut left = rules;
    while let Some(broken) = first_broken(certificate, left) {
        write_displayed(f, label, &broken.rule)?;
        keeps_all = false;
        left = broken.rest;
    }
    Ok(keeps_all)
}

/// Writes a line for each rule that a CRL breaks. Returns whether it keeps every MUST rule.
pub(crate) fn write_list_rules<W: fmt::Write>(
    f: &mut fmt::Formatter<W>,
    list: &CertificateList<'_>,
) -> Result<bool, fmt::Error>
    ensures text { WritesText W.Write.write_str_gives f.old result (AreListRules (certificate_list_of list.now)) f.new }
    ensures rules { IfOk result (λ keeps. IsTrue keeps ↔ NoListRuleBroken (certificate_list_of list.now)) }
{
    let examined = examine_list(list);
    let keeps_rules = write_broken_of_list(f, RULE, &examined, MUST_LIST_RULES)?;
    write_broken_of_list(f, RECOMMENDATION, &examined, SHOULD_LIST_RULES)?;
    Ok(keeps_rules)
}

/// Writes a line for each of these rules that a CRL breaks. Returns whether it keeps all of them.
fn write_broken_of_list<W: fmt::Write>(
    f: &mut fmt::Formatter<W>,
    label: &str,
    list: &ExaminedList<'_, '_>,
    rules: &[ListRule],
) -> Result<bool, fmt::Error>
    requires { IsExaminedList list.now }
    ensures text { WritesText W.Write.write_str_gives f.old result
        (AreBroken (λ r. BreaksList r (signed_list_of list.now)) label.now rules.now) f.new }
    ensures rules { IfOk result (λ keeps.
        IsTrue keeps ↔ All (λ r. ¬ BreaksList r (signed_list_of list.now)) rules.now) }
{
    let mut keeps_all = true;
    let mut left = rules;
    while let Some(broken) = first_broken_of_list(list, left) {
        write_displayed(f, label, &broken.rule)?;
        keeps_all = false;
        left = broken.rest;
    }
    Ok(keeps_all)
}
