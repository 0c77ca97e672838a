//! Rules of certificate policies (RFC 5280 4.2.1.4).
ghost use Rattle.std.specs.Prelude.{◌↔◌, IsTrue};
ghost use Rattle.std.specs.Option.{option_map};
ghost use Rattle.der_cursor.specs.Formats.{Required};
ghost use Rattle.der_extensions.specs.Extensions.{PolicyInformation as PolicyFormat, policy_of, qualifier_of};
ghost use Rattle.der_extensions.specs.Extensions.{PolicyQualifierInfo as QualifierFormat};
ghost use Rattle.der_extensions.specs.Lists.{list_octets};
ghost use Rattle.x509_rule_facts.specs.Lists.{Among};
ghost use Rattle.x509_value_rules.specs.Policies.{HasOtherQualifier, IsAnyWithOther, IsOtherQualifier};

use der_extensions::{
    CertificatePolicies, PolicyInformation, PolicyQualifierInfo, SequenceOf, USER_NOTICE,
};
use x509_rule_facts::identifier::has_octets;

/// anyPolicy: 2.5.29.32.0.
pub(crate) const ANY_POLICY: &[u8] = b"\x55\x1d\x20\x00";

/// id-qt-cps: 1.3.6.1.5.5.7.2.1.
pub(crate) const CPS: &[u8] = b"\x2b\x06\x01\x05\x05\x07\x02\x01";

/// Returns whether one of the policies is anyPolicy with a qualifier other than CPS pointer and user notice.
pub fn has_any_with_other(policies: &CertificatePolicies<'_>) -> bool
    ensures { IsTrue result ↔ Among (Required PolicyFormat) IsAnyWithOther policies.now.octets.now }
{
    for policy in policies.iter() {
        if is_any_with_other(&policy) {
            return true;
        }
    }
    false
}

fn is_any_with_other(policy: &PolicyInformation<'_>) -> bool
    ensures { IsTrue result ↔ IsAnyWithOther (policy_of policy.now) }
{
    has_octets(&policy.policy_identifier, ANY_POLICY)
        && has_other_qualifier(&policy.policy_qualifiers)
}

/// Returns whether there are qualifiers, and one is neither a CPS pointer nor a user notice.
fn has_other_qualifier<'a>(qualifiers: &Option<SequenceOf<'a, PolicyQualifierInfo<'a>>>) -> bool
    ensures { IsTrue result ↔ HasOtherQualifier (option_map list_octets qualifiers.now) }
{
    match qualifiers {
        Some(qualifiers) => is_one_other(qualifiers),
        None => false,
    }
}

/// Returns whether one of the qualifiers is neither a CPS pointer nor a user notice.
fn is_one_other<'a>(qualifiers: &SequenceOf<'a, PolicyQualifierInfo<'a>>) -> bool
    ensures { IsTrue result ↔ Among (Required QualifierFormat) IsOtherQualifier qualifiers.now.octets.now }
{
    for qualifier in qualifiers.iter() {
        if is_other_qualifier(&qualifier) {
            return true;
        }
    }
    false
}

fn is_other_qualifier(qualifier: &PolicyQualifierInfo<'_>) -> bool
    ensures { IsTrue result ↔ IsOtherQualifier (qualifier_of qualifier.now) }
{
    !has_octets(&qualifier.policy_qualifier_id, CPS)
        && !has_octets(&qualifier.policy_qualifier_id, USER_NOTICE)
}
