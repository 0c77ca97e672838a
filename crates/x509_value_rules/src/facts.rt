//! What an extension shows. Rules about extensions consist of these facts.
ghost use Rattle.std.specs.Prelude.{◌↔◌, IsTrue};
ghost use Rattle.x509.specs.Certificates.{extension_of};
ghost use Rattle.x509_value_rules.specs.Facts.{Holds, IsShownBy, Shows};

use crate::value_rules::{ValueRule, breaks_value};
use der_extensions::KnownExtension;
use x509::{Extension, Extensions};
use x509_rule_facts::identifier::has_octets;
use x509_rule_facts::value_facts::{ValueFact, says};

/// What an extension may show.
#[derive(Clone, Copy, Debug, PartialEq)]
pub enum Fact {
    /// The extension is there.
    Present,
    /// The extension is critical.
    Critical,
    /// The extension isn't critical.
    NotCritical,
    /// The value has its type and says this.
    Says(ValueFact),
    /// The value breaks the rule.
    Breaks(ValueRule),
}

/// Returns whether an extension with the identifier of `known` shows the fact.
#[inline(never)]
pub fn shows(extensions: Extensions<'_>, known: KnownExtension, fact: Fact) -> bool
    ensures { IsTrue result ↔ Shows known fact extensions.entry.octets.now }
{
    for extension in extensions.iter() {
        if is_shown_by(known, fact, &extension) {
            return true;
        }
    }
    false
}

/// Returns whether the extension has the identifier of `known` and shows the fact.
fn is_shown_by(known: KnownExtension, fact: Fact, extension: &Extension<'_>) -> bool
    ensures { IsTrue result ↔ IsShownBy known fact (extension_of extension.now) }
{
    has_octets(&extension.identifier, known.identifier())
        && holds(fact, extension.critical, extension.value)
}

/// Returns whether an extension that is critical or not, with this value, shows the fact.
pub(crate) fn holds(fact: Fact, critical: bool, value: &[u8]) -> bool
    ensures { IsTrue result ↔ Holds fact critical value.now }
{
    match fact {
        Fact::Present => true,
        Fact::Critical => critical,
        Fact::NotCritical => !critical,
        Fact::Says(fact) => says(fact, value),
        Fact::Breaks(rule) => breaks_value(rule, value),
    }
}
