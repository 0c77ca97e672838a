//! Policy mappings, and policy constraints of a certification path (RFC 5280 4.2.1.5, 4.2.1.11, 4.2.1.14).
ghost use Rattle.std.specs.Prelude.{◌≡◌};
ghost use Rattle.c_formats.specs.Items.{Taken};
ghost use Rattle.c_formats.specs.PathExtensions.{HasMapping, IsMapping, IsPathConstraints, path_constraints_fields};
ghost use Rattle.c_values.specs.Faults.{Written, value_fault};
ghost use Rattle.der_extensions.specs.PolicyExtensions.{mapping_of};

use c_values::element::bit;
use c_values::fault::{DmFault, field_fault, no_fault};
use c_values::parts::identifier_octets;
use der_base::error::BerError;
use der_cursor::ReadError;
use der_extensions::{PolicyConstraints, PolicyMapping};

/// A policy of the issuer and the subject's equivalent policy (RFC 5280 4.2.1.5). Octets are slices of the value.
#[repr(C)]
#[derive(Clone, Copy)]
pub struct DmPolicyMapping<'a> {
    /// The content octets of the OID of the issuer's policy.
    pub issuer_policy: &'a [u8],
    /// The content octets of the OID of the subject's policy.
    pub subject_policy: &'a [u8],
}

/// The value of a PolicyConstraints (RFC 5280 4.2.1.11). A number is how many certificates may follow in a path before
/// the constraint holds.
#[repr(C)]
#[derive(Clone, Copy)]
pub struct DmPolicyConstraints {
    /// 1 if requireExplicitPolicy is there, else 0.
    pub has_require_explicit_policy: u32,
    /// The number of certificates before policies are required; 0 if absent.
    pub require_explicit_policy: u32,
    /// 1 if inhibitPolicyMapping is there, else 0.
    pub has_inhibit_policy_mapping: u32,
    /// The number of certificates before policies are no longer mapped; 0 if absent.
    pub inhibit_policy_mapping: u32,
}

/// Writes a policy mapping. Returns 1, or 0 if there is none.
pub fn write_mapping<'a>(found: Option<PolicyMapping<'a>>, mapping: &mut DmPolicyMapping<'a>) -> u32
    ensures { Taken IsMapping found.entry mapping.old mapping.new result }
{
    match found {
        Some(found) => {
            *mapping = mapping_fields(found);
            1
        }
        None => 0,
    }
}

/// The C struct of a policy mapping.
fn mapping_fields<'a>(found: PolicyMapping<'a>) -> DmPolicyMapping<'a>
    ensures { HasMapping (mapping_of found.entry) result }
{
    DmPolicyMapping {
        issuer_policy: identifier_octets(found.issuer_domain_policy),
        subject_policy: identifier_octets(found.subject_domain_policy),
    }
}

/// Writes a PolicyConstraints, or returns the fault.
pub fn write_constraints(
    found: Result<PolicyConstraints, ReadError<BerError>>,
    constraints: &mut DmPolicyConstraints,
) -> DmFault
    ensures { Written IsPathConstraints value_fault found constraints.old constraints.new result }
{
    match found {
        Ok(found) => {
            *constraints = constraints_fields(found);
            no_fault()
        }
        Err(e) => field_fault(0, e),
    }
}

fn constraints_fields(found: PolicyConstraints) -> DmPolicyConstraints
    ensures { result ≡ path_constraints_fields found }
{
    DmPolicyConstraints {
        has_require_explicit_policy: bit(found.require_explicit_policy.is_some()).into(),
        require_explicit_policy: found.require_explicit_policy.unwrap_or(0),
        has_inhibit_policy_mapping: bit(found.inhibit_policy_mapping.is_some()).into(),
        inhibit_policy_mapping: found.inhibit_policy_mapping.unwrap_or(0),
    }
}
