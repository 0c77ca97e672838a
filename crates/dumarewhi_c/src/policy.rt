//! Calls that read certificate policies (RFC 5280 4.2.1.4).
ghost use Rattle.std.specs.Prelude.{◌≡◌};
ghost use Rattle.c_formats.specs.ExtensionLists.{HasItems, IsPolicy, IsQualifier, policies_octets};
ghost use Rattle.c_formats.specs.Items.{Takes, left};
ghost use Rattle.c_values.specs.Faults.{Reads, value_fault};
ghost use Rattle.der_base.specs.declared.rules.Rules.TheVariants.{Der};
ghost use Rattle.der_cursor.specs.Formats.{Never, ReadsInput, Required};
ghost use Rattle.der_extensions.specs.Extensions.{CertificatePolicies as PoliciesFormat};
ghost use Rattle.der_extensions.specs.Extensions.{PolicyInformation as PolicyFormat};
ghost use Rattle.der_extensions.specs.Extensions.{PolicyQualifierInfo as QualifierFormat, policy_of, qualifier_of};
ghost use Rattle.der_extensions.specs.Lists.{YieldsNext};

use c_formats::lists::next_item;
use c_formats::policy::{DmPolicy, DmPolicyQualifier, write_policy, write_qualifier};
use c_formats::writing::write_list;
use c_values::fault::DmFault;
use c_values::octets::DmOctets;
use der_base::error::BerError;
use der_extensions::{PolicyInformation, PolicyQualifierInfo, read_certificate_policies};

/// Reads the policies of a CertificatePolicies by DER. Returns the fault's status.
#[unsafe(no_mangle)]
pub extern "C" fn dm_read_certificate_policies<'a>(
    value: &'a [u8],
    policies: &mut DmOctets<'a>,
    fault: &mut DmFault,
) -> u32
    ensures exactly { Reads (ReadsInput Der PoliciesFormat policies_octets Never value.now) HasItems value_fault
        policies.old policies.new fault.new }
    ensures status { result ≡ fault.new.status }
{
    *fault = write_list(read_certificate_policies(value), policies);
    fault.status
}

/// Takes the next policy. Returns 1, or 0 if there is none.
#[unsafe(no_mangle)]
pub extern "C" fn dm_next_policy<'a>(policies: &mut DmOctets<'a>, policy: &mut DmPolicy<'a>) -> u32
    ensures { Takes (λ r. YieldsNext left policy_of (Required PolicyFormat) policies.old r policies.new)
        IsPolicy policy.old policy.new result }
{
    write_policy(
        next_item::<PolicyInformation<'a>, BerError>(policies),
        policy,
    )
}

/// Takes the next qualifier of a policy. Returns 1, or 0 if there is none.
#[unsafe(no_mangle)]
pub extern "C" fn dm_next_policy_qualifier<'a>(
    qualifiers: &mut DmOctets<'a>,
    qualifier: &mut DmPolicyQualifier<'a>,
) -> u32
    ensures { Takes (λ r. YieldsNext left qualifier_of (Required QualifierFormat) qualifiers.old r qualifiers.new)
        IsQualifier qualifier.old qualifier.new result }
{
    write_qualifier(
        next_item::<PolicyQualifierInfo<'a>, BerError>(qualifiers),
        qualifier,
    )
}
