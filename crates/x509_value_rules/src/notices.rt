//! Rules of the qualifiers of policies (RFC 5280 4.2.1.4, with RFC 6818 3).
ghost use Rattle.std.specs.Prelude.{◌≡◌, ◌≢◌, ◌↔◌, IsTrue};
ghost use Rattle.std.specs.Option.{IsSomeAnd, option_map};
ghost use Rattle.der_cursor.specs.Formats.{Required, element_of};
ghost use Rattle.der_extensions.specs.Extensions.{PolicyInformation as PolicyFormat, policy_of, qualifier_of};
ghost use Rattle.der_extensions.specs.Extensions.{PolicyQualifierInfo as QualifierFormat};
ghost use Rattle.der_extensions.specs.Lists.{list_octets};
ghost use Rattle.der_extensions.specs.Notices.{IsUserNotice, NoticeValue, notice_of, reference_of};
ghost use Rattle.x509_rule_facts.specs.Lists.{Among};
ghost use Rattle.x509_value_rules.specs.Notices.{BreaksNotice, BreaksQualifier, HasBrokenQualifier, IsBadlyQualified};
ghost use Rattle.x509_value_rules.specs.Notices.{HasDisplayTexts, HasRemark, IsBrokenNotice, IsOddSize, IsPointer};
ghost use Rattle.x509_value_rules.specs.Notices.{IsRemark, IsRemarked};

use crate::policies::CPS;
use crate::user_notice::{has_display_texts, is_text_of};
use der_base::any::Any;
use der_base::header::{Class, Tag};
use der_extensions::{
    CertificatePolicies, NoticeReference, PolicyInformation, PolicyQualifierInfo, SequenceOf,
    USER_NOTICE, UserNotice, read_user_notice,
};
use x509_rule_facts::attributes::count_characters;
use x509_rule_facts::identifier::has_octets;

/// A rule of RFC 5280 about a qualifier of a policy.
#[derive(Clone, Copy, Debug, PartialEq)]
pub enum QualifierRule {
    /// The qualifier of a CPS pointer is an IA5String (4.2.1.4).
    PointerOfType,
    /// The qualifier of a user notice is a UserNotice, with texts that are IA5Strings, VisibleStrings, BMPStrings or
    /// UTF8Strings (4.2.1.4). Another value breaks no other rule.
    NoticeOfType,
    /// A user notice keeps the rule.
    Notice(NoticeRule),
}

/// A rule of RFC 5280 about a user notice.
#[derive(Clone, Copy, Debug, PartialEq)]
pub enum NoticeRule {
    /// The explicitText and the organization have 1 to 200 characters (4.2.1.4).
    TextSize,
    /// The explicitText isn't an IA5String (RFC 6818 3, MUST NOT).
    NoIa5Text,
    /// The explicitText is a UTF8String (RFC 6818 3, SHOULD).
    Utf8Text,
    /// There is no noticeRef (4.2.1.4, SHOULD NOT).
    NoReference,
}

/// The most characters of a text.
const LONGEST_TEXT: usize = 200;

/// Returns whether one of the policies has a qualifier that isn't a valid CPS pointer.
pub fn has_remark(policies: &CertificatePolicies<'_>) -> bool
    ensures { IsTrue result ↔ Among (Required PolicyFormat) HasRemark policies.now.octets.now }
{
    for policy in policies.iter() {
        if is_remarked(&policy.policy_qualifiers) {
            return true;
        }
    }
    false
}

/// Returns whether there are qualifiers, and one isn't a valid CPS pointer.
fn is_remarked<'a>(qualifiers: &Option<SequenceOf<'a, PolicyQualifierInfo<'a>>>) -> bool
    ensures { IsTrue result ↔ IsRemarked (option_map list_octets qualifiers.now) }
{
    match qualifiers {
        Some(qualifiers) => is_one_remark(qualifiers),
        None => false,
    }
}

/// Returns whether one of the qualifiers isn't a valid CPS pointer.
fn is_one_remark<'a>(qualifiers: &SequenceOf<'a, PolicyQualifierInfo<'a>>) -> bool
    ensures { IsTrue result ↔ Among (Required QualifierFormat) IsRemark qualifiers.now.octets.now }
{
    for qualifier in qualifiers.iter() {
        if is_remark(&qualifier) {
            return true;
        }
    }
    false
}

/// Returns whether the qualifier isn't a valid CPS pointer: an IA5String under id-qt-cps.
fn is_remark(qualifier: &PolicyQualifierInfo<'_>) -> bool
    ensures { IsTrue result ↔ IsRemark (qualifier_of qualifier.now) }
{
    !has_octets(&qualifier.policy_qualifier_id, CPS) || !is_pointer(&qualifier.qualifier)
}

/// Returns whether one of the policies has a qualifier that breaks the rule.
pub fn has_badly_qualified(rule: QualifierRule, policies: &CertificatePolicies<'_>) -> bool
    ensures { IsTrue result ↔ Among (Required PolicyFormat) (IsBadlyQualified rule) policies.now.octets.now }
{
    for policy in policies.iter() {
        if is_badly_qualified(rule, &policy) {
            return true;
        }
    }
    false
}

fn is_badly_qualified(rule: QualifierRule, policy: &PolicyInformation<'_>) -> bool
    ensures { IsTrue result ↔ IsBadlyQualified rule (policy_of policy.now) }
{
    has_broken_qualifier(rule, &policy.policy_qualifiers)
}

/// Returns whether there are qualifiers, and one breaks the rule.
fn has_broken_qualifier<'a>(
    rule: QualifierRule,
    qualifiers: &Option<SequenceOf<'a, PolicyQualifierInfo<'a>>>,
) -> bool
    ensures { IsTrue result ↔ HasBrokenQualifier rule (option_map list_octets qualifiers.now) }
{
    match qualifiers {
        Some(qualifiers) => is_one_broken(rule, qualifiers),
        None => false,
    }
}

/// Returns whether one of the qualifiers breaks the rule.
fn is_one_broken<'a>(
    rule: QualifierRule,
    qualifiers: &SequenceOf<'a, PolicyQualifierInfo<'a>>,
) -> bool
    ensures { IsTrue result ↔ Among (Required QualifierFormat) (BreaksQualifier rule) qualifiers.now.octets.now }
{
    for qualifier in qualifiers.iter() {
        if breaks_qualifier(rule, &qualifier) {
            return true;
        }
    }
    false
}

/// Returns whether the qualifier breaks the rule.
fn breaks_qualifier(rule: QualifierRule, qualifier: &PolicyQualifierInfo<'_>) -> bool
    ensures { IsTrue result ↔ BreaksQualifier rule (qualifier_of qualifier.now) }
{
    let identifier = &qualifier.policy_qualifier_id;
    match rule {
        QualifierRule::PointerOfType => {
            has_octets(identifier, CPS) && !is_pointer(&qualifier.qualifier)
        }
        QualifierRule::NoticeOfType => {
            has_octets(identifier, USER_NOTICE) && !is_notice(&qualifier.qualifier)
        }
        QualifierRule::Notice(rule) => {
            has_octets(identifier, USER_NOTICE) && is_broken_notice(rule, &qualifier.qualifier)
        }
    }
}

/// Returns whether it is an IA5String.
fn is_pointer(element: &Any<'_>) -> bool
    ensures { IsTrue result ↔ IsPointer (element_of element.now) }
{
    element.class() == Class::Universal
        && element.header.is_primitive()
        && element.tag() == Tag::Ia5String
        && is_text_of(Tag::Ia5String, element.bytes)
}

fn is_notice(element: &Any<'_>) -> bool
    ensures { IsTrue result ↔ ((v : NoticeValue) × IsUserNotice (element_of element.now) v × HasDisplayTexts v) }
{
    match read_user_notice(element) {
        Ok(notice) => has_display_texts(&notice),
        Err(_) => false,
    }
}

/// Returns whether it is a user notice that breaks the rule.
fn is_broken_notice(rule: NoticeRule, element: &Any<'_>) -> bool
    ensures { IsTrue result
        ↔ ((v : NoticeValue) × IsUserNotice (element_of element.now) v × IsBrokenNotice rule v) }
{
    match read_user_notice(element) {
        Ok(notice) => breaks_displayed(rule, &notice),
        Err(_) => false,
    }
}

/// Returns whether the texts of a user notice are of their types, and it breaks the rule.
fn breaks_displayed(rule: NoticeRule, notice: &UserNotice<'_>) -> bool
    ensures { IsTrue result ↔ IsBrokenNotice rule (notice_of notice.now) }
{
    has_display_texts(notice) && breaks_notice(rule, notice)
}

/// Returns whether the user notice breaks the rule.
fn breaks_notice(rule: NoticeRule, notice: &UserNotice<'_>) -> bool
    ensures { IsTrue result ↔ BreaksNotice rule (notice_of notice.now) }
{
    match rule {
        NoticeRule::TextSize => {
            is_odd_text(&notice.explicit_text) || is_odd_reference(&notice.reference)
        }
        NoticeRule::NoIa5Text => is_ia5_text(&notice.explicit_text),
        NoticeRule::Utf8Text => is_other_text(&notice.explicit_text),
        NoticeRule::NoReference => notice.reference.is_some(),
    }
}

/// Returns whether there is a text without 1 to 200 characters.
fn is_odd_text(text: &Option<Any<'_>>) -> bool
    ensures { IsTrue result ↔ IsSomeAnd (option_map element_of text.now) IsOddSize }
{
    match text {
        Some(text) => is_odd_size(text),
        None => false,
    }
}

/// Returns whether there is a reference whose organization doesn't have 1 to 200 characters.
fn is_odd_reference(reference: &Option<NoticeReference<'_>>) -> bool
    ensures { IsTrue result ↔ IsSomeAnd (option_map reference_of reference.now) (λ r. IsOddSize r.0) }
{
    match reference {
        Some(reference) => is_odd_size(&reference.organization),
        None => false,
    }
}

fn is_odd_size(text: &Any<'_>) -> bool
    ensures { IsTrue result ↔ IsOddSize (element_of text.now) }
{
    let count = count_characters(text.tag(), text.bytes);
    count == 0 || count > LONGEST_TEXT
}

/// Returns whether there is a text, and it is an IA5String.
fn is_ia5_text(text: &Option<Any<'_>>) -> bool
    ensures { IsTrue result ↔ IsSomeAnd (option_map element_of text.now) (λ t. t.2 ≡ 22) }
{
    match text {
        Some(text) => text.tag() == Tag::Ia5String,
        None => false,
    }
}

/// Returns whether there is a text, and it isn't a UTF8String.
fn is_other_text(text: &Option<Any<'_>>) -> bool
    ensures { IsTrue result ↔ IsSomeAnd (option_map element_of text.now) (λ t. t.2 ≢ 12) }
{
    match text {
        Some(text) => text.tag() != Tag::Utf8String,
        None => false,
    }
}
