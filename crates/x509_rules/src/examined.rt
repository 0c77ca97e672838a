//! A certificate, with what is read of it once for all rules.
ghost use Rattle.std.specs.Prelude.{◌≡◌, ◌↔◌, IsTrue};
ghost use Rattle.x509.specs.Certificates.{certificate_of};
ghost use Rattle.x509_rule_facts.specs.Attributes.{BreaksAttribute};
ghost use Rattle.x509_rules.specs.Examined.{IsExamined, signed_of};
ghost use Rattle.x509_value_rules.specs.declared.facts.Fact.{Fact};
ghost use Rattle.x509_value_rules.specs.Facts.{Has};

use der_extensions::KnownExtension;
use x509::Certificate;
use x509_rule_facts::attributes::{ATTRIBUTE_KINDS, AttributeKind, bad_kinds, is_marked};
use x509_value_rules::facts::Fact;
use x509_value_rules::sorted::{FEW_QUESTIONS, SortedExtensions};
use x509_value_rules::value_rules::ValueRule;

/// A certificate, with what was read of it.
#[derive(Drop)]
pub struct Examined<'r, 'a> {
    pub(crate) signed: &'r Certificate<'a>,
    /// The extensions of the certificate.
    pub(crate) extensions: SortedExtensions<'a>,
    /// The kinds of attributes whose rule it breaks; None if that wasn't read.
    pub(crate) bad_kinds: Option<[bool; ATTRIBUTE_KINDS]>,
}

/// A certificate for one question: nothing is read ahead.
pub(crate) fn unexamined<'r, 'a>(signed: &'r Certificate<'a>) -> Examined<'r, 'a>
    ensures certificate { signed_of result ≡ certificate_of signed.now }
    ensures examined { IsExamined result }
{
    let extensions = SortedExtensions::unsorted(signed.tbs_certificate.extensions);
    Examined {
        signed,
        extensions,
        bad_kinds: None,
    }
}

/// Reads the certificate's names and extensions once, for any number of rules.
pub fn examine<'r, 'a>(certificate: &'r Certificate<'a>) -> Examined<'r, 'a>
    ensures certificate { signed_of result ≡ certificate_of certificate.now }
    ensures examined { IsExamined result }
{
    let extensions = SortedExtensions::sort(certificate.tbs_certificate.extensions, true);
    Examined {
        signed: certificate,
        extensions,
        bad_kinds: Some(bad_kinds(certificate)),
    }
}

/// A certificate for this number of questions. Few questions read what they need themselves.
pub(crate) fn examine_for<'r, 'a>(
    certificate: &'r Certificate<'a>,
    questions: usize,
) -> Examined<'r, 'a>
    ensures certificate { signed_of result ≡ certificate_of certificate.now }
    ensures examined { IsExamined result }
{
    if questions > FEW_QUESTIONS {
        return examine(certificate);
    }
    let extensions = SortedExtensions::sort(certificate.tbs_certificate.extensions, false);
    Examined {
        signed: certificate,
        extensions,
        bad_kinds: None,
    }
}

/// Returns whether an extension with the identifier of `known` shows the fact.
#[inline(always)]
pub(crate) fn has(certificate: &Examined<'_, '_>, known: KnownExtension, fact: Fact) -> bool
    requires { IsExamined certificate.now }
    ensures { IsTrue result ↔ Has known fact (signed_of certificate.now) }
{
    certificate.extensions.show(known, fact)
}

/// Returns whether an extension with the identifier of `known` has a value that breaks the rule.
#[inline(always)]
pub(crate) fn breaks_value(
    certificate: &Examined<'_, '_>,
    known: KnownExtension,
    rule: ValueRule,
) -> bool
    requires { IsExamined certificate.now }
    ensures { IsTrue result ↔ Has known (Fact.Breaks rule) (signed_of certificate.now) }
{
    // Most extensions aren't there. This is told before the fact is made.
    certificate.extensions.may_have(known) && has(certificate, known, Fact::Breaks(rule))
}

/// Returns whether the issuer or the subject has an attribute of the kind with a value of another type.
pub(crate) fn breaks_attribute(kind: AttributeKind, certificate: &Examined<'_, '_>) -> bool
    requires { IsExamined certificate.now }
    ensures { IsTrue result ↔ BreaksAttribute kind (signed_of certificate.now) }
{
    match &certificate.bad_kinds {
        Some(bad) => is_marked(bad, kind),
        None => is_marked(&bad_kinds(certificate.signed), kind),
    }
}
