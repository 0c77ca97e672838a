//! LDAP URLs, which name entries of a directory (RFC 5280 4.2.1.13, 4.2.2.1, 4.2.2.2).
ghost use Rattle.std.specs.Prelude.{◌↔◌, IsTrue};
ghost use Rattle.der_extensions.specs.GeneralNames.{name_of};
ghost use Rattle.x509_value_rules.specs.Directories.{HasSeveralAttributes, IsOddEntry};

use der_extensions::GeneralName;
use x509_rule_facts::uri::{is_ldap, names_entry, names_several_attributes};

/// Returns whether it is an LDAP URL without the name of an entry or without attributes.
pub(crate) fn is_odd_entry(name: &GeneralName<'_>) -> bool
    ensures { IsTrue result ↔ IsOddEntry (name_of name.now) }
{
    match name {
        GeneralName::UniformResourceIdentifier(text) => {
            is_ldap(text.as_bytes()) && !names_entry(text.as_bytes())
        }
        _ => false,
    }
}

/// Returns whether it is an LDAP URL with several attributes.
pub(crate) fn has_several_attributes(name: &GeneralName<'_>) -> bool
    ensures { IsTrue result ↔ HasSeveralAttributes (name_of name.now) }
{
    match name {
        GeneralName::UniformResourceIdentifier(text) => {
            is_ldap(text.as_bytes()) && names_several_attributes(text.as_bytes())
        }
        _ => false,
    }
}
