//! The rules of CRLs, and which of them a CRL breaks.
ghost use Rattle.std.specs.Prelude.{◌≡◌, ◌<◌, ◌^◌, ◌↔◌, IsTrue, length};
ghost use Rattle.std.specs.Iterator.{at_most};
ghost use Rattle.x509.specs.Crl.Lists.{certificate_list_of};
ghost use Rattle.x509_rules.specs.Crl.Examined.{IsExaminedList, signed_list_of};
ghost use Rattle.x509_rules.specs.Crl.ListRules.{BreaksList, FindsBrokenOfList, YieldsBrokenOfList, list_in};
ghost use Rattle.x509_rules.specs.Crl.ListRules.{list_rules_left};

use crate::crl::entries::EntryRule;
use crate::crl::examined::{
    ExaminedList, breaks_of_entry, examine_list_for, list_has, unexamined_list,
};
use crate::crl::whole_list::{WholeListRule, breaks_whole_list};
use der_extensions::KnownExtension;
use x509::crl::CertificateList;
use x509_rule_facts::types::ValueType;
use x509_value_rules::facts::Fact;
use x509_value_rules::issuing_point::IssuingPointRule;
use x509_value_rules::names::NameRule;
use x509_value_rules::points::PointRule;
use x509_value_rules::value_rules::ValueRule;

/// A rule of RFC 5280 that the ASN.1 of a CRL doesn't express.
#[derive(Clone, Copy, Debug, PartialEq)]
pub enum ListRule {
    /// The extension is critical, if it is there.
    Critical(KnownExtension),
    /// The extension isn't critical.
    NotCritical(KnownExtension),
    /// The extension's value keeps the rule, if it has its type.
    Value(KnownExtension, ValueRule),
    /// A rule of each entry.
    Entry(EntryRule),
    /// A rule of the CRL as a whole.
    Whole(WholeListRule),
}

/// The rules of CRLs with MUST or MUST NOT in RFC 5280, in the order of its sections.
pub const MUST_LIST_RULES: &[ListRule] = &[
    ListRule::Whole(WholeListRule::SameAlgorithms),
    ListRule::Whole(WholeListRule::SecondVersion),
    ListRule::Whole(WholeListRule::NamedIssuer),
    ListRule::Whole(WholeListRule::OrderedAttributes),
    ListRule::Whole(WholeListRule::TypedAttributes),
    ListRule::Whole(WholeListRule::DerValues),
    ListRule::Whole(WholeListRule::UtcTimeTo2049),
    ListRule::Whole(WholeListRule::WholeSeconds),
    ListRule::Whole(WholeListRule::NextUpdate),
    ListRule::Whole(WholeListRule::SomeEntries),
    ListRule::Entry(EntryRule::PositiveSerialNumber),
    ListRule::Entry(EntryRule::ShortSerialNumber),
    ListRule::Entry(EntryRule::UtcTimeTo2049),
    ListRule::Entry(EntryRule::WholeSeconds),
    ListRule::Whole(WholeListRule::DistinctExtensions),
    ListRule::Entry(EntryRule::DistinctExtensions),
    ListRule::Whole(WholeListRule::KeyIdentifierOfIssuer),
    ListRule::Value(
        KnownExtension::AuthorityKeyIdentifier,
        ValueRule::OfType(ValueType::KeyIdentifiers),
    ),
    ListRule::Value(
        KnownExtension::IssuerAltName,
        ValueRule::OfType(ValueType::Names),
    ),
    ListRule::Value(
        KnownExtension::CrlNumber,
        ValueRule::OfType(ValueType::Number),
    ),
    ListRule::Value(
        KnownExtension::DeltaCrlIndicator,
        ValueRule::OfType(ValueType::Number),
    ),
    ListRule::Value(
        KnownExtension::FreshestCrl,
        ValueRule::OfType(ValueType::Points),
    ),
    ListRule::Value(
        KnownExtension::AuthorityInfoAccess,
        ValueRule::OfType(ValueType::Descriptions),
    ),
    ListRule::Value(
        KnownExtension::IssuingDistributionPoint,
        ValueRule::OfType(ValueType::IssuingPoint),
    ),
    ListRule::NotCritical(KnownExtension::AuthorityKeyIdentifier),
    ListRule::Value(
        KnownExtension::AuthorityKeyIdentifier,
        ValueRule::IssuerAndSerial,
    ),
    ListRule::Value(
        KnownExtension::AuthorityKeyIdentifier,
        ValueRule::Issuer(NameRule::OrderedAttributes),
    ),
    ListRule::Value(
        KnownExtension::AuthorityKeyIdentifier,
        ValueRule::Issuer(NameRule::TypedAttributes),
    ),
    ListRule::Value(
        KnownExtension::AuthorityKeyIdentifier,
        ValueRule::Issuer(NameRule::PartyName),
    ),
    ListRule::Value(KnownExtension::AuthorityKeyIdentifier, ValueRule::DerValues),
    ListRule::Value(
        KnownExtension::IssuerAltName,
        ValueRule::Names(NameRule::NotEmpty),
    ),
    ListRule::Value(
        KnownExtension::IssuerAltName,
        ValueRule::Names(NameRule::AddressOctets),
    ),
    ListRule::Value(
        KnownExtension::IssuerAltName,
        ValueRule::Names(NameRule::NotBlank),
    ),
    ListRule::Value(
        KnownExtension::IssuerAltName,
        ValueRule::Names(NameRule::Scheme),
    ),
    ListRule::Value(
        KnownExtension::IssuerAltName,
        ValueRule::Names(NameRule::Host),
    ),
    ListRule::Value(
        KnownExtension::IssuerAltName,
        ValueRule::Names(NameRule::Mailbox),
    ),
    ListRule::Value(
        KnownExtension::IssuerAltName,
        ValueRule::Names(NameRule::PreferredName),
    ),
    ListRule::Value(
        KnownExtension::IssuerAltName,
        ValueRule::Names(NameRule::InternationalMailbox),
    ),
    ListRule::Value(
        KnownExtension::IssuerAltName,
        ValueRule::Names(NameRule::OrderedAttributes),
    ),
    ListRule::Value(
        KnownExtension::IssuerAltName,
        ValueRule::Names(NameRule::TypedAttributes),
    ),
    ListRule::Value(
        KnownExtension::IssuerAltName,
        ValueRule::Names(NameRule::PartyName),
    ),
    ListRule::Value(KnownExtension::IssuerAltName, ValueRule::DerValues),
    ListRule::Whole(WholeListRule::Number),
    ListRule::NotCritical(KnownExtension::CrlNumber),
    ListRule::Value(KnownExtension::CrlNumber, ValueRule::ShortNumber),
    ListRule::Value(KnownExtension::CrlNumber, ValueRule::NaturalNumber),
    ListRule::Critical(KnownExtension::DeltaCrlIndicator),
    ListRule::Value(KnownExtension::DeltaCrlIndicator, ValueRule::ShortNumber),
    ListRule::Value(KnownExtension::DeltaCrlIndicator, ValueRule::NaturalNumber),
    ListRule::Critical(KnownExtension::IssuingDistributionPoint),
    ListRule::Value(
        KnownExtension::IssuingDistributionPoint,
        ValueRule::NotEmpty,
    ),
    ListRule::Value(
        KnownExtension::IssuingDistributionPoint,
        ValueRule::IssuingPoint(IssuingPointRule::OneKind),
    ),
    ListRule::Value(
        KnownExtension::IssuingDistributionPoint,
        ValueRule::IssuingPoint(IssuingPointRule::NoAttributeCertificates),
    ),
    ListRule::Value(
        KnownExtension::IssuingDistributionPoint,
        ValueRule::IssuingPoint(IssuingPointRule::FullNames(NameRule::OrderedAttributes)),
    ),
    ListRule::Value(
        KnownExtension::IssuingDistributionPoint,
        ValueRule::IssuingPoint(IssuingPointRule::FullNames(NameRule::TypedAttributes)),
    ),
    ListRule::Value(
        KnownExtension::IssuingDistributionPoint,
        ValueRule::IssuingPoint(IssuingPointRule::FullNames(NameRule::PartyName)),
    ),
    ListRule::Value(
        KnownExtension::IssuingDistributionPoint,
        ValueRule::DerValues,
    ),
    ListRule::NotCritical(KnownExtension::FreshestCrl),
    ListRule::Whole(WholeListRule::FreshestOfComplete),
    ListRule::Value(
        KnownExtension::FreshestCrl,
        ValueRule::Points(PointRule::Named),
    ),
    ListRule::Value(
        KnownExtension::FreshestCrl,
        ValueRule::Points(PointRule::NameAlone),
    ),
    ListRule::Value(
        KnownExtension::FreshestCrl,
        ValueRule::Points(PointRule::FullNames(NameRule::OrderedAttributes)),
    ),
    ListRule::Value(
        KnownExtension::FreshestCrl,
        ValueRule::Points(PointRule::FullNames(NameRule::TypedAttributes)),
    ),
    ListRule::Value(
        KnownExtension::FreshestCrl,
        ValueRule::Points(PointRule::FullNames(NameRule::PartyName)),
    ),
    ListRule::Value(
        KnownExtension::FreshestCrl,
        ValueRule::Points(PointRule::FullNames(NameRule::LdapEntry)),
    ),
    ListRule::Value(
        KnownExtension::FreshestCrl,
        ValueRule::Points(PointRule::FullNames(NameRule::LdapAttribute)),
    ),
    ListRule::Value(KnownExtension::FreshestCrl, ValueRule::DerValues),
    ListRule::NotCritical(KnownExtension::AuthorityInfoAccess),
    ListRule::Value(KnownExtension::AuthorityInfoAccess, ValueRule::CaIssuers),
    ListRule::Value(
        KnownExtension::AuthorityInfoAccess,
        ValueRule::Locations(NameRule::OrderedAttributes),
    ),
    ListRule::Value(
        KnownExtension::AuthorityInfoAccess,
        ValueRule::Locations(NameRule::TypedAttributes),
    ),
    ListRule::Value(
        KnownExtension::AuthorityInfoAccess,
        ValueRule::Locations(NameRule::PartyName),
    ),
    ListRule::Value(KnownExtension::AuthorityInfoAccess, ValueRule::DerValues),
    ListRule::Value(
        KnownExtension::AuthorityInfoAccess,
        ValueRule::Locations(NameRule::LdapEntry),
    ),
    ListRule::Entry(EntryRule::Without(
        KnownExtension::ReasonCode,
        Fact::Breaks(ValueRule::OfType(ValueType::Reason)),
    )),
    ListRule::Entry(EntryRule::Without(
        KnownExtension::InvalidityDate,
        Fact::Breaks(ValueRule::OfType(ValueType::Date)),
    )),
    ListRule::Entry(EntryRule::Without(
        KnownExtension::CertificateIssuer,
        Fact::Breaks(ValueRule::OfType(ValueType::Names)),
    )),
    ListRule::Entry(EntryRule::Without(
        KnownExtension::InvalidityDate,
        Fact::Breaks(ValueRule::WholeSeconds),
    )),
    ListRule::Entry(EntryRule::Without(KnownExtension::ReasonCode, Fact::Critical)),
    ListRule::Whole(WholeListRule::RemovalOfDelta),
    ListRule::Entry(EntryRule::Without(KnownExtension::InvalidityDate, Fact::Critical)),
    ListRule::Entry(EntryRule::Without(KnownExtension::CertificateIssuer, Fact::NotCritical)),
    ListRule::Entry(EntryRule::Without(
        KnownExtension::CertificateIssuer,
        Fact::Breaks(ValueRule::DirectoryName),
    )),
    ListRule::Entry(EntryRule::Without(
        KnownExtension::CertificateIssuer,
        Fact::Breaks(ValueRule::Names(NameRule::OrderedAttributes)),
    )),
    ListRule::Entry(EntryRule::Without(
        KnownExtension::CertificateIssuer,
        Fact::Breaks(ValueRule::Names(NameRule::TypedAttributes)),
    )),
    ListRule::Entry(EntryRule::Without(
        KnownExtension::CertificateIssuer,
        Fact::Breaks(ValueRule::Names(NameRule::PartyName)),
    )),
    ListRule::Entry(EntryRule::Without(
        KnownExtension::CertificateIssuer,
        Fact::Breaks(ValueRule::DerValues),
    )),
];

/// The rules with SHOULD or SHOULD NOT.
pub const SHOULD_LIST_RULES: &[ListRule] = &[
    ListRule::NotCritical(KnownExtension::IssuerAltName),
    ListRule::Value(
        KnownExtension::FreshestCrl,
        ValueRule::Points(PointRule::FullName),
    ),
    ListRule::Entry(EntryRule::Without(
        KnownExtension::ReasonCode,
        Fact::Breaks(ValueRule::SpecifiedReason),
    )),
];

/// Returns whether the CRL breaks the rule.
pub fn list_breaks(rule: ListRule, list: &CertificateList<'_>) -> bool
    ensures { IsTrue result ↔ BreaksList rule (certificate_list_of list.now) }
{
    examined_list_breaks(rule, &unexamined_list(list))
}

/// Returns whether an examined CRL breaks the rule.
pub fn examined_list_breaks(rule: ListRule, list: &ExaminedList<'_, '_>) -> bool
    requires { IsExaminedList list.now }
    ensures { IsTrue result ↔ BreaksList rule (signed_list_of list.now) }
{
    match rule {
        ListRule::Critical(known) => list_has(list, known, Fact::NotCritical),
        ListRule::NotCritical(known) => list_has(list, known, Fact::Critical),
        ListRule::Value(known, rule) => list_has(list, known, Fact::Breaks(rule)),
        ListRule::Entry(rule) => breaks_of_entry(rule, list),
        ListRule::Whole(rule) => breaks_whole_list(rule, list),
    }
}

/// The rules, of a list, that a CRL breaks, in the order of the list.
#[derive(Clone, Copy)]
pub struct BrokenListRules<'r, 'a> {
    list: &'r CertificateList<'a>,
    left: &'r [ListRule],
    /// The number of broken rules so far.
    found: usize,
}

/// After so many broken rules the CRL isn't examined ahead any more. Each time walks all entries.
const FEW_BROKEN: usize = 4;

/// A broken rule, and the rules after it.
#[derive(Clone, Copy)]
pub struct FirstBrokenOfList<'r> {
    pub rule: ListRule,
    pub rest: &'r [ListRule],
}

/// The rules of the list that the CRL breaks, in order. The list is `MUST_LIST_RULES`, `SHOULD_LIST_RULES` or your own.
/// The CRL is examined anew after each. `examine_list` and `first_broken_of_list` examine it once.
pub fn broken_list_rules<'r, 'a>(
    list: &'r CertificateList<'a>,
    rules: &'r [ListRule],
) -> BrokenListRules<'r, 'a>
    ensures list { list_in result ≡ certificate_list_of list.now }
    ensures rules { list_rules_left result ≡ rules.now }
    ensures few { length (list_rules_left result) < 2 ^ 64 }
{
    // Callers that count need to know that there are fewer than 2^64.
    let _count = rules.len();
    BrokenListRules {
        list,
        left: rules,
        found: 0,
    }
}

impl<'r, 'a> Iterator for BrokenListRules<'r, 'a> {
    type Item = ListRule;

    ghost next_gives = { YieldsBrokenOfList };

    ghost remaining = { λ s. at_most (length (list_rules_left s)) };

    fn next(&mut self) -> Option<ListRule> {
        let first = find_broken_of_list(self.list, self.left, self.found < FEW_BROKEN)?;
        self.left = first.rest;
        self.found = self.found.saturating_add(1);
        Some(first.rule)
    }
}

/// Returns the first rule that the CRL breaks. With `reads_ahead`, its entries are read once for all rules.
fn find_broken_of_list<'r>(
    list: &CertificateList<'_>,
    rules: &'r [ListRule],
    reads_ahead: bool,
) -> Option<FirstBrokenOfList<'r>>
    ensures { FindsBrokenOfList (certificate_list_of list.now) rules.now result }
{
    let questions = if reads_ahead { rules.len() } else { 0 };
    let examined = examine_list_for(list, questions);
    first_broken_of_list(&examined, rules)
}

/// Returns the first rule of the list that an examined CRL breaks, and the rules after it.
pub fn first_broken_of_list<'r>(
    list: &ExaminedList<'_, '_>,
    rules: &'r [ListRule],
) -> Option<FirstBrokenOfList<'r>>
    requires { IsExaminedList list.now }
    ensures { FindsBrokenOfList (signed_list_of list.now) rules.now result }
{
    let mut left = rules;
    while let Some((rule, rest)) = left.split_first() {
        if examined_list_breaks(*rule, list) {
            return Some(FirstBrokenOfList { rule: *rule, rest });
        }
        left = rest;
    }
    None
}
