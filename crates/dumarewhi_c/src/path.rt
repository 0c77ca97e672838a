//! Calls that read policy mappings, and policy constraints of a certification path (RFC 5280 4.2.1.5, 4.2.1.11,
//! 4.2.1.14).
ghost use Rattle.std.specs.Prelude.{◌≡◌, pos};
ghost use Rattle.c_formats.specs.ExtensionLists.{HasItems};
ghost use Rattle.c_formats.specs.Items.{Takes, left};
ghost use Rattle.c_formats.specs.PathExtensions.{IsMapping, IsPathConstraints, mappings_octets};
ghost use Rattle.c_values.specs.Cursors.{IsSame};
ghost use Rattle.c_values.specs.Faults.{Reads, value_fault};
ghost use Rattle.der_base.specs.declared.rules.Rules.TheVariants.{Der};
ghost use Rattle.der_cursor.specs.Formats.{Never, ReadsInput, Required};
ghost use Rattle.der_extensions.specs.Lists.{YieldsNext};
ghost use Rattle.der_extensions.specs.PolicyExtensions.{PolicyConstraints as ConstraintsFormat, SkipCerts};
ghost use Rattle.der_extensions.specs.PolicyExtensions.{PolicyMapping as MappingFormat, mapping_of};
ghost use Rattle.der_extensions.specs.PolicyExtensions.{PolicyMappings as MappingsFormat, policy_constraints_of};

use c_formats::lists::next_item;
use c_formats::path::{DmPolicyConstraints, DmPolicyMapping, write_constraints, write_mapping};
use c_formats::writing::{write_list, write_value};
use c_values::fault::DmFault;
use c_values::octets::DmOctets;
use der_base::error::BerError;
use der_extensions::{
    PolicyMapping, read_inhibit_any_policy, read_policy_constraints, read_policy_mappings,
};

/// Reads the mappings of a PolicyMappings by DER. Returns the fault's status.
#[unsafe(no_mangle)]
pub extern "C" fn dm_read_policy_mappings<'a>(
    value: &'a [u8],
    mappings: &mut DmOctets<'a>,
    fault: &mut DmFault,
) -> u32
    ensures exactly { Reads (ReadsInput Der MappingsFormat mappings_octets Never value.now) HasItems value_fault
        mappings.old mappings.new fault.new }
    ensures status { result ≡ fault.new.status }
{
    *fault = write_list(read_policy_mappings(value), mappings);
    fault.status
}

/// Takes the next mapping. Returns 1, or 0 if there is none.
#[unsafe(no_mangle)]
pub extern "C" fn dm_next_policy_mapping<'a>(
    mappings: &mut DmOctets<'a>,
    mapping: &mut DmPolicyMapping<'a>,
) -> u32
    ensures { Takes (λ r. YieldsNext left mapping_of (Required MappingFormat) mappings.old r mappings.new)
        IsMapping mapping.old mapping.new result }
{
    write_mapping(next_item::<PolicyMapping<'a>, BerError>(mappings), mapping)
}

/// Reads a PolicyConstraints by DER. Returns the fault's status.
#[unsafe(no_mangle)]
pub extern "C" fn dm_read_policy_constraints(
    value: &[u8],
    constraints: &mut DmPolicyConstraints,
    fault: &mut DmFault,
) -> u32
    ensures exactly { Reads (ReadsInput Der ConstraintsFormat policy_constraints_of Never value.now) IsPathConstraints
        value_fault constraints.old constraints.new fault.new }
    ensures status { result ≡ fault.new.status }
{
    *fault = write_constraints(read_policy_constraints(value), constraints);
    fault.status
}

/// Reads an InhibitAnyPolicy (RFC 5280 4.2.1.14) by DER: how many certificates may follow in a path before anyPolicy no
/// longer counts. Returns the fault's status.
#[unsafe(no_mangle)]
pub extern "C" fn dm_read_inhibit_any_policy(
    value: &[u8],
    number: &mut u32,
    fault: &mut DmFault,
) -> u32
    ensures exactly { Reads (ReadsInput Der SkipCerts pos Never value.now) IsSame value_fault
        number.old number.new fault.new }
    ensures status { result ≡ fault.new.status }
{
    *fault = write_value(read_inhibit_any_policy(value), number);
    fault.status
}
