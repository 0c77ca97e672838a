//! Certificate policies (RFC 5280 4.2.1.4).
ghost use Rattle.c_formats.specs.ExtensionLists.{HasPolicy, IsPolicy, IsQualifier};
ghost use Rattle.c_formats.specs.Items.{Taken};
ghost use Rattle.der_extensions.specs.Extensions.{policy_of};

use crate::lists::list_or_none;
use c_values::any::{DmAny, any_fields};
use c_values::parts::identifier_octets;
use der_extensions::{PolicyInformation, PolicyQualifierInfo};

/// A policy. Octets are slices of the value.
#[repr(C)]
#[derive(Clone, Copy)]
pub struct DmPolicy<'a> {
    /// The content octets of the policy's OID.
    pub identifier: &'a [u8],
    /// The encodings of its qualifiers, one after another.
    pub qualifiers: &'a [u8],
}

/// A qualifier of a policy.
#[repr(C)]
#[derive(Clone, Copy)]
pub struct DmPolicyQualifier<'a> {
    /// The content octets of the OID of its type.
    pub identifier: &'a [u8],
    /// The value. Its content isn't read.
    pub value: DmAny<'a>,
}

/// Writes a policy. Returns 1, or 0 if there is none.
pub fn write_policy<'a>(found: Option<PolicyInformation<'a>>, policy: &mut DmPolicy<'a>) -> u32
    ensures { Taken IsPolicy found.entry policy.old policy.new result }
{
    match found {
        Some(found) => {
            *policy = policy_fields(found);
            1
        }
        None => 0,
    }
}

/// The C struct of a policy.
fn policy_fields<'a>(found: PolicyInformation<'a>) -> DmPolicy<'a>
    ensures { HasPolicy (policy_of found.entry) result }
{
    DmPolicy {
        identifier: identifier_octets(found.policy_identifier),
        qualifiers: list_or_none(found.policy_qualifiers),
    }
}

/// Writes a qualifier. Returns 1, or 0 if there is none.
pub fn write_qualifier<'a>(
    found: Option<PolicyQualifierInfo<'a>>,
    qualifier: &mut DmPolicyQualifier<'a>,
) -> u32
    ensures { Taken IsQualifier found.entry qualifier.old qualifier.new result }
{
    match found {
        Some(found) => {
            *qualifier = DmPolicyQualifier {
                identifier: identifier_octets(found.policy_qualifier_id),
                value: any_fields(&found.qualifier),
            };
            1
        }
        None => 0,
    }
}
