//! Calls that read values of extensions (RFC 5280 4.2.1). Offsets of faults count from the start of a value.
ghost use Rattle.std.specs.Prelude.{◌≡◌};
ghost use Rattle.c_formats.specs.ExtensionLists.{HasItems};
ghost use Rattle.c_formats.specs.ExtensionValues.{IsAuthority, IsConstraints, IsOctets, IsUsage, names_octets};
ghost use Rattle.c_formats.specs.ExtensionValues.{purposes_octets};
ghost use Rattle.c_formats.specs.Found.{ReadsAltNames};
ghost use Rattle.c_values.specs.Faults.{Reads, value_fault};
ghost use Rattle.der_base.specs.declared.rules.Rules.TheVariants.{Der};
ghost use Rattle.der_cursor.specs.Formats.{Never, OctetString, ReadsInput};
ghost use Rattle.der_extensions.specs.Extensions.{AuthorityKeyIdentifier as AuthorityFormat, authority_of};
ghost use Rattle.der_extensions.specs.Extensions.{BasicConstraints as ConstraintsFormat, ExtKeyUsageSyntax};
ghost use Rattle.der_extensions.specs.Extensions.{KeyUsage as UsageFormat, constraints_of, usage_of};
ghost use Rattle.der_extensions.specs.GeneralNames.{GeneralNames as NamesFormat};

use c_formats::extension::{
    DmAuthorityKeyIdentifier, DmBasicConstraints, value_fault, write_authority, write_constraints,
    write_usage,
};
use c_formats::found::write_alt_names;
use c_formats::writing::{write_list, write_octets};
use c_values::fault::DmFault;
use c_values::octets::DmOctets;
use der_extensions::{
    read_authority_key_identifier, read_basic_constraints, read_extended_key_usage,
    read_general_names, read_key_usage, read_subject_key_identifier,
};

/// Reads a BasicConstraints by DER. Returns the fault's status.
#[unsafe(no_mangle)]
pub extern "C" fn dm_read_basic_constraints(
    value: &[u8],
    constraints: &mut DmBasicConstraints,
    fault: &mut DmFault,
) -> u32
    ensures exactly { Reads (ReadsInput Der ConstraintsFormat constraints_of Never value.now) IsConstraints value_fault
        constraints.old constraints.new fault.new }
    ensures status { result ≡ fault.new.status }
{
    *fault = write_constraints(read_basic_constraints(value), constraints);
    fault.status
}

/// Reads a KeyUsage by DER: the sum of 2^n for each bit n that is 1, from 0 to 8. Returns the fault's status.
#[unsafe(no_mangle)]
pub extern "C" fn dm_read_key_usage(value: &[u8], usage: &mut u32, fault: &mut DmFault) -> u32
    ensures exactly { Reads (ReadsInput Der UsageFormat usage_of Never value.now) IsUsage value_fault
        usage.old usage.new fault.new }
    ensures status { result ≡ fault.new.status }
{
    *fault = write_usage(read_key_usage(value), usage);
    fault.status
}

/// Reads the names of a SubjectAltName or IssuerAltName by DER. Returns the fault's status.
#[unsafe(no_mangle)]
pub extern "C" fn dm_read_general_names<'a>(
    value: &'a [u8],
    names: &mut DmOctets<'a>,
    fault: &mut DmFault,
) -> u32
    ensures exactly { Reads (ReadsInput Der NamesFormat names_octets Never value.now) HasItems value_fault
        names.old names.new fault.new }
    ensures status { result ≡ fault.new.status }
{
    *fault = write_list(read_general_names(value), names);
    fault.status
}

/// Reads the names of the one SubjectAltName among extensions; no names if there is none. Returns the fault's status.
#[unsafe(no_mangle)]
pub extern "C" fn dm_read_subject_alt_names<'a>(
    extensions: &DmOctets<'a>,
    names: &mut DmOctets<'a>,
    fault: &mut DmFault,
) -> u32
    ensures exactly { ReadsAltNames extensions.now.octets.now names.old names.new fault.new }
    ensures status { result ≡ fault.new.status }
{
    *fault = write_alt_names(*extensions, names);
    fault.status
}

/// Reads the purposes of an ExtendedKeyUsage by DER. Returns the fault's status.
#[unsafe(no_mangle)]
pub extern "C" fn dm_read_extended_key_usage<'a>(
    value: &'a [u8],
    purposes: &mut DmOctets<'a>,
    fault: &mut DmFault,
) -> u32
    ensures exactly { Reads (ReadsInput Der ExtKeyUsageSyntax purposes_octets Never value.now) HasItems value_fault
        purposes.old purposes.new fault.new }
    ensures status { result ≡ fault.new.status }
{
    *fault = write_list(read_extended_key_usage(value), purposes);
    fault.status
}

/// Reads a SubjectKeyIdentifier by DER. Returns the fault's status.
#[unsafe(no_mangle)]
pub extern "C" fn dm_read_subject_key_identifier<'a>(
    value: &'a [u8],
    identifier: &mut DmOctets<'a>,
    fault: &mut DmFault,
) -> u32
    ensures exactly { Reads (ReadsInput Der OctetString (λ x. x.now) Never value.now) IsOctets value_fault
        identifier.old identifier.new fault.new }
    ensures status { result ≡ fault.new.status }
{
    *fault = write_octets(read_subject_key_identifier(value), identifier);
    fault.status
}

/// Reads an AuthorityKeyIdentifier by DER. Returns the fault's status.
#[unsafe(no_mangle)]
pub extern "C" fn dm_read_authority_key_identifier<'a>(
    value: &'a [u8],
    identifier: &mut DmAuthorityKeyIdentifier<'a>,
    fault: &mut DmFault,
) -> u32
    ensures exactly { Reads (ReadsInput Der AuthorityFormat authority_of Never value.now) IsAuthority value_fault
        identifier.old identifier.new fault.new }
    ensures status { result ≡ fault.new.status }
{
    *fault = write_authority(read_authority_key_identifier(value), identifier);
    fault.status
}
