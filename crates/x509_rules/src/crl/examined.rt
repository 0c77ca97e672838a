//! A CRL, with what is read of it once for all rules.
ghost use Rattle.std.specs.Prelude.{◌≡◌, ◌↔◌, IfSome, IsTrue};
ghost use Rattle.x509.specs.Crl.Lists.{certificate_list_of};
ghost use Rattle.x509_rules.specs.Crl.Examined.{IsExaminedList, signed_list_of};
ghost use Rattle.x509_rules.specs.Crl.Entries.{SomeEntry};
ghost use Rattle.x509_rules.specs.Crl.WholeLists.{ListHas};

use crate::crl::entries::{EntryRule, is_entry_broken};
use crate::crl::marks::{ENTRY_MARKS, marked, marks_of};
use der_extensions::KnownExtension;
use x509::crl::CertificateList;
use x509_value_rules::facts::Fact;
use x509_value_rules::sorted::{FEW_QUESTIONS, SortedExtensions};

/// A CRL, with what was read of it.
#[derive(Drop)]
pub struct ExaminedList<'r, 'a> {
    pub(crate) signed: &'r CertificateList<'a>,
    /// The extensions of the CRL.
    pub(crate) extensions: SortedExtensions<'a>,
    /// The rules that its entries break; None if they weren't read.
    pub(crate) marks: Option<[bool; ENTRY_MARKS]>,
}

/// A CRL for one question: nothing is read ahead.
pub(crate) fn unexamined_list<'r, 'a>(signed: &'r CertificateList<'a>) -> ExaminedList<'r, 'a>
    ensures list { signed_list_of result ≡ certificate_list_of signed.now }
    ensures examined { IsExaminedList result }
{
    let extensions = SortedExtensions::unsorted(signed.tbs_cert_list.crl_extensions);
    ExaminedList {
        signed,
        extensions,
        marks: None,
    }
}

/// Reads the CRL's entries and extensions once, for any number of rules.
pub fn examine_list<'r, 'a>(list: &'r CertificateList<'a>) -> ExaminedList<'r, 'a>
    ensures list { signed_list_of result ≡ certificate_list_of list.now }
    ensures examined { IsExaminedList result }
{
    let extensions = SortedExtensions::sort(list.tbs_cert_list.crl_extensions, true);
    ExaminedList {
        signed: list,
        extensions,
        marks: Some(marks_of(&list.tbs_cert_list.revoked_certificates)),
    }
}

/// A CRL for this number of questions. Few questions read what they need themselves.
pub(crate) fn examine_list_for<'r, 'a>(
    list: &'r CertificateList<'a>,
    questions: usize,
) -> ExaminedList<'r, 'a>
    ensures list { signed_list_of result ≡ certificate_list_of list.now }
    ensures examined { IsExaminedList result }
{
    if questions > FEW_QUESTIONS {
        return examine_list(list);
    }
    let extensions = SortedExtensions::sort(list.tbs_cert_list.crl_extensions, false);
    ExaminedList {
        signed: list,
        extensions,
        marks: None,
    }
}

/// Returns whether an extension with the identifier of `known` shows the fact.
pub(crate) fn list_has(list: &ExaminedList<'_, '_>, known: KnownExtension, fact: Fact) -> bool
    requires { IsExaminedList list.now }
    ensures { IsTrue result ↔ ListHas known fact (signed_list_of list.now) }
{
    list.extensions.show(known, fact)
}

/// Returns whether an entry breaks the rule.
pub(crate) fn breaks_of_entry(rule: EntryRule, list: &ExaminedList<'_, '_>) -> bool
    requires { IsExaminedList list.now }
    ensures { IsTrue result ↔ SomeEntry rule (signed_list_of list.now).tbs_cert_list.revoked }
{
    match mark_of(rule, list) {
        Some(is_broken) => is_broken,
        None => is_entry_broken(rule, &list.signed.tbs_cert_list.revoked_certificates),
    }
}

/// Returns whether an entry breaks the rule, if the entries were read and the rule has a mark.
fn mark_of(rule: EntryRule, list: &ExaminedList<'_, '_>) -> Option<bool>
    requires { IsExaminedList list.now }
    ensures { IfSome result (λ b. IsTrue b ↔ SomeEntry rule (signed_list_of list.now).tbs_cert_list.revoked) }
{
    match &list.marks {
        Some(marks) => marked(rule, marks),
        None => None,
    }
}
