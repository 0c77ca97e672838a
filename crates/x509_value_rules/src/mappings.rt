//! Rules of policy mappings (RFC 5280 4.2.1.5).
ghost use Rattle.std.specs.Prelude.{◌↔◌, IsTrue};
ghost use Rattle.der_cursor.specs.Formats.{Required};
ghost use Rattle.der_extensions.specs.PolicyExtensions.{PolicyMapping as MappingFormat, mapping_of};
ghost use Rattle.x509_rule_facts.specs.Lists.{Among};
ghost use Rattle.x509_value_rules.specs.Policies.{HasAnyPolicy};

use crate::policies::ANY_POLICY;
use der_extensions::{PolicyMapping, PolicyMappings};
use x509_rule_facts::identifier::has_octets;

/// Returns whether one of the mappings has anyPolicy.
pub fn maps_any_policy(mappings: &PolicyMappings<'_>) -> bool
    ensures { IsTrue result ↔ Among (Required MappingFormat) HasAnyPolicy mappings.now.octets.now }
{
    for mapping in mappings.iter() {
        if has_any_policy(&mapping) {
            return true;
        }
    }
    false
}

fn has_any_policy(mapping: &PolicyMapping<'_>) -> bool
    ensures { IsTrue result ↔ HasAnyPolicy (mapping_of mapping.now) }
{
    has_octets(&mapping.issuer_domain_policy, ANY_POLICY)
        || has_octets(&mapping.subject_domain_policy, ANY_POLICY)
}
