//! CRL issuers of a distribution point (RFC 5280 4.2.1.13).
ghost use Rattle.std.specs.Prelude.{◌↔◌, IsTrue};
ghost use Rattle.std.specs.Option.{option_map};
ghost use Rattle.der_extensions.specs.GeneralNames.{GeneralName as AnyName, name_of};
ghost use Rattle.der_extensions.specs.Lists.{list_octets};
ghost use Rattle.x509_rule_facts.specs.Lists.{Among, Twice};
ghost use Rattle.x509_value_rules.specs.Points.{HasOtherIssuer, HasSeveralIssuers, IsDistinguished};

use der_extensions::{GeneralName, GeneralNames};

/// Returns whether the issuers have more than one directoryName.
pub(crate) fn has_several_issuers(issuers: &Option<GeneralNames<'_>>) -> bool
    ensures { IsTrue result ↔ HasSeveralIssuers (option_map list_octets issuers.now) }
{
    match issuers {
        Some(issuers) => has_several(issuers),
        None => false,
    }
}

/// Returns whether two of the names are directoryNames.
fn has_several(names: &GeneralNames<'_>) -> bool
    ensures { IsTrue result ↔ Twice AnyName IsDistinguished names.now.octets.now }
{
    let mut is_second = false;
    for name in names.iter() {
        if is_distinguished(&name) {
            if is_second {
                return true;
            }
            is_second = true;
        }
    }
    false
}

/// Returns whether one of the issuers has a name of another kind than directoryName.
pub(crate) fn has_other_issuer(issuers: &Option<GeneralNames<'_>>) -> bool
    ensures { IsTrue result ↔ HasOtherIssuer (option_map list_octets issuers.now) }
{
    match issuers {
        Some(issuers) => has_other(issuers),
        None => false,
    }
}

/// Returns whether one of the names isn't a directoryName.
fn has_other(names: &GeneralNames<'_>) -> bool
    ensures { IsTrue result ↔ Among AnyName (λ n. ¬ IsDistinguished n) names.now.octets.now }
{
    for name in names.iter() {
        if !is_distinguished(&name) {
            return true;
        }
    }
    false
}

/// Returns whether one of the names is a directoryName.
pub fn has_distinguished(names: &GeneralNames<'_>) -> bool
    ensures { IsTrue result ↔ Among AnyName IsDistinguished names.now.octets.now }
{
    for name in names.iter() {
        if is_distinguished(&name) {
            return true;
        }
    }
    false
}

/// Returns whether it is a directoryName.
fn is_distinguished(name: &GeneralName<'_>) -> bool
    ensures { IsTrue result ↔ IsDistinguished (name_of name.now) }
{
    match name {
        GeneralName::DirectoryName(_) => true,
        _ => false,
    }
}
