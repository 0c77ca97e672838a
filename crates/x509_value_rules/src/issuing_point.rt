//! Rules of an issuing distribution point (RFC 5280 5.2.5).
ghost use Rattle.std.specs.Prelude.{◌↔◌, IsTrue};
ghost use Rattle.std.specs.Option.{IsSomeAnd};
ghost use Rattle.der_extensions.specs.Revocation.{issuing_point_of};
ghost use Rattle.x509_value_rules.specs.IssuingPoints.{BreaksIssuingPoint, HasTwoKinds, IsOfAttributes};
ghost use Rattle.x509_value_rules.specs.Points.{IsFullNameBroken};
ghost use Rattle.x509_value_rules.specs.ValueRules.{BreaksValue};

use crate::names::NameRule;
use crate::points::is_full_name_broken;
use crate::value_rules::ValueRule;
use der_extensions::{IssuingDistributionPoint, read_issuing_distribution_point};

/// A rule of RFC 5280 about an issuing distribution point.
#[derive(Clone, Copy, Debug, PartialEq)]
pub enum IssuingPointRule {
    /// At most one of onlyContainsUserCerts, onlyContainsCACerts and onlyContainsAttributeCerts is TRUE (5.2.5).
    OneKind,
    /// onlyContainsAttributeCerts is FALSE (5.2.5, MUST).
    NoAttributeCertificates,
    /// The names of its fullName keep the rule of names (5.2.5, 4.2.1.6).
    FullNames(NameRule),
}

/// Returns whether the octets are an issuing distribution point and break the rule.
pub(crate) fn breaks_issuing_point(rule: IssuingPointRule, value: &[u8]) -> bool
    ensures { IsTrue result ↔ BreaksValue (ValueRule.IssuingPoint rule) value.now }
{
    match read_issuing_distribution_point(value) {
        Ok(point) => breaks_rule(rule, &point),
        Err(_) => false,
    }
}

/// Returns whether the point breaks the rule.
fn breaks_rule(rule: IssuingPointRule, point: &IssuingDistributionPoint<'_>) -> bool
    ensures { IsTrue result ↔ BreaksIssuingPoint rule (issuing_point_of point.now) }
{
    match rule {
        IssuingPointRule::OneKind => has_two_kinds(point),
        IssuingPointRule::NoAttributeCertificates => is_of_attributes(point),
        IssuingPointRule::FullNames(rule) => has_broken_full_name(rule, point),
    }
}

/// Returns whether the point has a fullName with a name that breaks the rule.
fn has_broken_full_name(rule: NameRule, point: &IssuingDistributionPoint<'_>) -> bool
    ensures { IsTrue result ↔ IsSomeAnd (issuing_point_of point.now).0 (IsFullNameBroken rule) }
{
    match &point.distribution_point {
        Some(name) => is_full_name_broken(rule, name),
        None => false,
    }
}

/// Returns whether two of the three onlyContains fields are TRUE.
fn has_two_kinds(point: &IssuingDistributionPoint<'_>) -> bool
    ensures { IsTrue result ↔ HasTwoKinds (issuing_point_of point.now) }
{
    let of_users = point.only_contains_user_certs;
    let of_authorities = point.only_contains_ca_certs;
    let of_attributes = point.only_contains_attribute_certs;
    (of_users && of_authorities) || (of_users && of_attributes) || (of_authorities && of_attributes)
}

fn is_of_attributes(point: &IssuingDistributionPoint<'_>) -> bool
    ensures { IsTrue result ↔ IsOfAttributes (issuing_point_of point.now) }
{
    point.only_contains_attribute_certs
}
