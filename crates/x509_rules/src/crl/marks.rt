//! The rules that entries of a CRL break, found in one walk over the entries.
ghost use Rattle.std.specs.Prelude.{◌≡◌, ◌<◌, ◌↔◌, IfSome, IsTrue, List, Option, length, ℕ};
ghost use Rattle.std.specs.Option.{option_map};
ghost use Rattle.x509.specs.Crl.Lists.{revoked_certificate, revoked_of};
ghost use Rattle.x509.specs.Lists.{Somewhere};
ghost use Rattle.x509_rules.specs.Crl.Entries.{BreaksEntry, SomeEntry};
ghost use Rattle.x509_rules.specs.Crl.Marks.{AreMarks, IsMarked, Marks, mark_count, marked_rule};
ghost use Rattle.x509_value_rules.specs.Sorted.{IsSorted};

use crate::crl::entries::{EntryRule, breaks_entry};
use der_extensions::KnownExtension;
use x509::crl::{RevokedCertificate, RevokedCertificates};
use x509_rule_facts::types::ValueType;
use x509_rule_facts::value_facts::ValueFact;
use x509_value_rules::facts::Fact;
use x509_value_rules::names::NameRule;
use x509_value_rules::sorted::SortedExtensions;
use x509_value_rules::value_rules::ValueRule;

/// The number of `MARKED_RULES`.
pub(crate) const ENTRY_MARKS: usize = 19;

/// The rules of entries with a mark: those of `MUST_LIST_RULES`, `SHOULD_LIST_RULES` and `RemovalOfDelta`.
const MARKED_RULES: &[EntryRule; ENTRY_MARKS] = &[
    EntryRule::PositiveSerialNumber,
    EntryRule::ShortSerialNumber,
    EntryRule::UtcTimeTo2049,
    EntryRule::WholeSeconds,
    EntryRule::DistinctExtensions,
    EntryRule::Without(
        KnownExtension::ReasonCode,
        Fact::Breaks(ValueRule::OfType(ValueType::Reason)),
    ),
    EntryRule::Without(KnownExtension::ReasonCode, Fact::Critical),
    EntryRule::Without(
        KnownExtension::ReasonCode,
        Fact::Says(ValueFact::RemoveFromCrl),
    ),
    EntryRule::Without(
        KnownExtension::ReasonCode,
        Fact::Breaks(ValueRule::SpecifiedReason),
    ),
    EntryRule::Without(
        KnownExtension::InvalidityDate,
        Fact::Breaks(ValueRule::OfType(ValueType::Date)),
    ),
    EntryRule::Without(
        KnownExtension::InvalidityDate,
        Fact::Breaks(ValueRule::WholeSeconds),
    ),
    EntryRule::Without(KnownExtension::InvalidityDate, Fact::Critical),
    EntryRule::Without(
        KnownExtension::CertificateIssuer,
        Fact::Breaks(ValueRule::OfType(ValueType::Names)),
    ),
    EntryRule::Without(KnownExtension::CertificateIssuer, Fact::NotCritical),
    EntryRule::Without(
        KnownExtension::CertificateIssuer,
        Fact::Breaks(ValueRule::DirectoryName),
    ),
    EntryRule::Without(
        KnownExtension::CertificateIssuer,
        Fact::Breaks(ValueRule::Names(NameRule::OrderedAttributes)),
    ),
    EntryRule::Without(
        KnownExtension::CertificateIssuer,
        Fact::Breaks(ValueRule::Names(NameRule::TypedAttributes)),
    ),
    EntryRule::Without(
        KnownExtension::CertificateIssuer,
        Fact::Breaks(ValueRule::Names(NameRule::PartyName)),
    ),
    EntryRule::Without(
        KnownExtension::CertificateIssuer,
        Fact::Breaks(ValueRule::DerValues),
    ),
];

/// Returns for each of `MARKED_RULES` whether an entry breaks it.
pub(crate) fn marks_of(entries: &Option<RevokedCertificates<'_>>) -> [bool; ENTRY_MARKS]
    ensures { AreMarks (option_map (λ r. r.octets.now) entries.now) result }
{
    let mut marks = [false; ENTRY_MARKS];
    if let Some(entries) = entries {
        mark_entries(&mut marks, *entries);
    }
    marks
}

/// Marks the rules that one of the entries breaks.
fn mark_entries(marks: &mut [bool; ENTRY_MARKS], entries: RevokedCertificates<'_>)
    requires { length marks.old ≡ mark_count }
    ensures { Marks (λ n. Somewhere revoked_certificate (λ e _. BreaksEntry (marked_rule n) e) entries.entry.octets.now)
        marks.old marks.new }
{
    for entry in entries.iter() {
        mark_entry(marks, &entry);
    }
}

/// Marks the rules that the entry breaks. Its extensions are walked once for all rules about them.
fn mark_entry(marks: &mut [bool; ENTRY_MARKS], entry: &RevokedCertificate<'_>)
    requires { length marks.old ≡ mark_count }
    ensures { Marks (λ n. BreaksEntry (marked_rule n) (revoked_of entry.now)) marks.old marks.new }
{
    let extensions = SortedExtensions::sort(entry.crl_entry_extensions, false);
    for place in 0..ENTRY_MARKS {
        mark(marks, place, entry, &extensions);
    }
}

/// Marks the rule at this place if an entry with these extensions breaks it. A rule that is marked isn't asked again.
fn mark(
    marks: &mut [bool; ENTRY_MARKS],
    place: usize,
    entry: &RevokedCertificate<'_>,
    extensions: &SortedExtensions<'_>,
)
    requires all { length marks.old ≡ mark_count }
    requires few { place < mark_count }
    requires sorted { IsSorted extensions.now }
    requires its_own { extensions.now.extensions.octets.now ≡ (revoked_of entry.now).extensions }
    ensures { Marks (λ n. (n ≡ place) × BreaksEntry (marked_rule n) (revoked_of entry.now)) marks.old marks.new }
{
    if !is_marked(marks, place) && breaks_sorted(rule_at(place), entry, extensions) {
        set(marks, place);
    }
}

fn set(marks: &mut [bool; ENTRY_MARKS], place: usize)
    requires all { length marks.old ≡ mark_count }
    requires few { place < mark_count }
    ensures { Marks (λ n. n ≡ place) marks.old marks.new }
{
    marks[place] = true;
}

/// Returns whether an entry with these extensions breaks the rule.
fn breaks_sorted(
    rule: EntryRule,
    entry: &RevokedCertificate<'_>,
    extensions: &SortedExtensions<'_>,
) -> bool
    requires sorted { IsSorted extensions.now }
    requires its_own { extensions.now.extensions.octets.now ≡ (revoked_of entry.now).extensions }
    ensures { IsTrue result ↔ BreaksEntry rule (revoked_of entry.now) }
{
    match rule {
        EntryRule::Without(known, fact) => extensions.show(known, fact),
        _ => breaks_entry(rule, entry),
    }
}

/// Returns whether an entry breaks the rule, by its mark; None if it has none.
pub(crate) fn marked(rule: EntryRule, marks: &[bool; ENTRY_MARKS]) -> Option<bool>
    requires { length marks.now ≡ mark_count }
    ensures { (i : Option (List ℕ)) → AreMarks i marks.now → IfSome result (λ b. IsTrue b ↔ SomeEntry rule i) }
{
    for place in 0..ENTRY_MARKS {
        if is_same(rule_at(place), rule) {
            return Some(is_marked(marks, place));
        }
    }
    None
}

/// The rule of the mark at this place.
fn rule_at(place: usize) -> EntryRule
    requires { place < mark_count }
    ensures { result ≡ marked_rule place }
{
    MARKED_RULES[place]
}

/// Returns whether the rules are the same. Each level of a rule has a function, since `==` of an enum is known to
/// compare values only if they have no fields.
fn is_same(one: EntryRule, other: EntryRule) -> bool
    ensures { IsTrue result → one ≡ other }
{
    match (one, other) {
        (EntryRule::PositiveSerialNumber, EntryRule::PositiveSerialNumber) => true,
        (EntryRule::ShortSerialNumber, EntryRule::ShortSerialNumber) => true,
        (EntryRule::UtcTimeTo2049, EntryRule::UtcTimeTo2049) => true,
        (EntryRule::WholeSeconds, EntryRule::WholeSeconds) => true,
        (EntryRule::DistinctExtensions, EntryRule::DistinctExtensions) => true,
        (EntryRule::Without(known, fact), EntryRule::Without(other, other_fact)) => {
            is_same_extension(known, other) && is_same_fact(fact, other_fact)
        }
        _ => false,
    }
}

fn is_same_extension(one: KnownExtension, other: KnownExtension) -> bool
    ensures { IsTrue result → one ≡ other }
{
    one == other
}

fn is_same_fact(one: Fact, other: Fact) -> bool
    ensures { IsTrue result → one ≡ other }
{
    match (one, other) {
        (Fact::Critical, Fact::Critical) => true,
        (Fact::NotCritical, Fact::NotCritical) => true,
        (Fact::Says(one), Fact::Says(other)) => one == other,
        (Fact::Breaks(one), Fact::Breaks(other)) => is_same_value_rule(one, other),
        _ => false,
    }
}

/// Returns whether the rules are the same, and are in `MARKED_RULES`.
fn is_same_value_rule(one: ValueRule, other: ValueRule) -> bool
    ensures { IsTrue result → one ≡ other }
{
    match (one, other) {
        (ValueRule::OfType(one), ValueRule::OfType(other)) => one == other,
        (ValueRule::Names(one), ValueRule::Names(other)) => one == other,
        (ValueRule::SpecifiedReason, ValueRule::SpecifiedReason) => true,
        (ValueRule::WholeSeconds, ValueRule::WholeSeconds) => true,
        (ValueRule::DirectoryName, ValueRule::DirectoryName) => true,
        (ValueRule::DerValues, ValueRule::DerValues) => true,
        _ => false,
    }
}

fn is_marked(marks: &[bool; ENTRY_MARKS], place: usize) -> bool
    requires all { length marks.now ≡ mark_count }
    requires few { place < mark_count }
    ensures { IsTrue result ↔ IsMarked marks.now place }
{
    marks[place]
}
