//! Rules of distribution points (RFC 5280 4.2.1.13).
ghost use Rattle.std.specs.Prelude.{◌↔◌, IsTrue};
ghost use Rattle.std.specs.Option.{IsSomeAnd};
ghost use Rattle.der_cursor.specs.Formats.{Required};
ghost use Rattle.der_extensions.specs.Extensions.{DistributionPoint as PointFormat, point_name_of, point_of};
ghost use Rattle.x509_rule_facts.specs.Lists.{Among};
ghost use Rattle.x509_value_rules.specs.Points.{BreaksPoint, HasMoreThanName, HasRelativeName, IsForAllReasons};
ghost use Rattle.x509_value_rules.specs.Points.{IsFullNameBroken, IsRelative, IsUnnamed, IsBadFullName, IsBadPoint};

use crate::issuers::{has_other_issuer, has_several_issuers};
use crate::names::{NameRule, has_bad_name, has_broken_name, is_one_name_broken};
use der_extensions::{CrlDistributionPoints, DistributionPoint, DistributionPointName};

/// A rule of RFC 5280 about a distribution point.
#[derive(Clone, Copy, Debug, PartialEq)]
pub enum PointRule {
    /// It has a distributionPoint or a cRLIssuer (4.2.1.13, MUST).
    Named,
    /// Its name isn't relative to the issuer's (4.2.1.13, SHOULD NOT).
    FullName,
    /// It has neither reasons nor a cRLIssuer (freshestCRL of a CRL, 5.2.6, MUST).
    NameAlone,
    /// Its cRLIssuer has directoryNames only (4.2.1.13, MUST).
    NamedIssuers,
    /// Its name isn't relative if its cRLIssuer has more than one directoryName (4.2.1.13, MUST NOT).
    RelativeToOneIssuer,
    /// The names of its cRLIssuer keep the rule of names (4.2.1.13, 4.2.1.6).
    Issuers(NameRule),
    /// The names of its fullName keep the rule of names (4.2.1.13, 4.2.1.6).
    FullNames(NameRule),
}

/// Returns whether one of the points breaks the rule.
pub fn has_broken_point(rule: PointRule, points: &CrlDistributionPoints<'_>) -> bool
    ensures { IsTrue result ↔ Among (Required PointFormat) (BreaksPoint rule) points.now.octets.now }
{
    for point in points.iter() {
        if breaks_point(rule, &point) {
            return true;
        }
    }
    false
}

/// Returns whether one of the points is anything but a fullName of valid names.
pub fn has_bad_point(points: &CrlDistributionPoints<'_>) -> bool
    ensures { IsTrue result ↔ Among (Required PointFormat) IsBadPoint points.now.octets.now }
{
    for point in points.iter() {
        if is_bad_point(&point) {
            return true;
        }
    }
    false
}

/// Returns whether the point is anything but a fullName of valid names.
fn is_bad_point(point: &DistributionPoint<'_>) -> bool
    ensures { IsTrue result ↔ IsBadPoint (point_of point.now) }
{
    is_unnamed(point)
        || has_relative_name(point)
        || has_more_than_name(point)
        || has_bad_full_name(point)
}

/// Returns whether the point breaks the rule.
fn breaks_point(rule: PointRule, point: &DistributionPoint<'_>) -> bool
    ensures { IsTrue result ↔ BreaksPoint rule (point_of point.now) }
{
    match rule {
        PointRule::Named => is_unnamed(point),
        PointRule::FullName => has_relative_name(point),
        PointRule::NameAlone => has_more_than_name(point),
        PointRule::NamedIssuers => has_other_issuer(&point.crl_issuer),
        PointRule::RelativeToOneIssuer => {
            has_relative_name(point) && has_several_issuers(&point.crl_issuer)
        }
        PointRule::Issuers(rule) => is_one_name_broken(rule, &point.crl_issuer),
        PointRule::FullNames(rule) => has_broken_full_name(rule, point),
    }
}

/// Returns whether the point has neither a name nor a CRL issuer.
fn is_unnamed(point: &DistributionPoint<'_>) -> bool
    ensures { IsTrue result ↔ IsUnnamed (point_of point.now) }
{
    point.distribution_point.is_none() && point.crl_issuer.is_none()
}

/// Returns whether the point has reasons or a CRL issuer.
fn has_more_than_name(point: &DistributionPoint<'_>) -> bool
    ensures { IsTrue result ↔ HasMoreThanName (point_of point.now) }
{
    point.reasons.is_some() || point.crl_issuer.is_some()
}

/// Returns whether the name of the point is relative to the issuer's.
fn has_relative_name(point: &DistributionPoint<'_>) -> bool
    ensures { IsTrue result ↔ HasRelativeName (point_of point.now) }
{
    match &point.distribution_point {
        Some(name) => is_relative(name),
        None => false,
    }
}

fn is_relative(name: &DistributionPointName<'_>) -> bool
    ensures { IsTrue result ↔ IsRelative (point_name_of name.now) }
{
    match name {
        DistributionPointName::FullName(_) => false,
        DistributionPointName::NameRelativeToCrlIssuer(_) => true,
    }
}

/// Returns whether the point has a fullName with a name that breaks the rule.
fn has_broken_full_name(rule: NameRule, point: &DistributionPoint<'_>) -> bool
    ensures { IsTrue result ↔ IsSomeAnd (point_of point.now).0 (IsFullNameBroken rule) }
{
    match &point.distribution_point {
        Some(name) => is_full_name_broken(rule, name),
        None => false,
    }
}

/// Returns whether it is a fullName with a name that breaks the rule.
pub fn is_full_name_broken(rule: NameRule, name: &DistributionPointName<'_>) -> bool
    ensures { IsTrue result ↔ IsFullNameBroken rule (point_name_of name.now) }
{
    match name {
        DistributionPointName::FullName(names) => has_broken_name(rule, names),
        DistributionPointName::NameRelativeToCrlIssuer(_) => false,
    }
}

/// Returns whether the point has a fullName with a name that breaks any rule.
fn has_bad_full_name(point: &DistributionPoint<'_>) -> bool
    ensures { IsTrue result ↔ IsSomeAnd (point_of point.now).0 IsBadFullName }
{
    match &point.distribution_point {
        Some(name) => is_bad_full_name(name),
        None => false,
    }
}

fn is_bad_full_name(name: &DistributionPointName<'_>) -> bool
    ensures { IsTrue result ↔ IsBadFullName (point_name_of name.now) }
{
    match name {
        DistributionPointName::FullName(names) => has_bad_name(names),
        DistributionPointName::NameRelativeToCrlIssuer(_) => false,
    }
}

/// Returns whether one of the points is for all reasons.
pub fn has_whole_point(points: &CrlDistributionPoints<'_>) -> bool
    ensures { IsTrue result ↔ Among (Required PointFormat) IsForAllReasons points.now.octets.now }
{
    for point in points.iter() {
        if is_whole(&point) {
            return true;
        }
    }
    false
}

fn is_whole(point: &DistributionPoint<'_>) -> bool
    ensures { IsTrue result ↔ IsForAllReasons (point_of point.now) }
{
    point.reasons.is_none()
}
