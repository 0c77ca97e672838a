//! Calls that read CRLs (RFC 5280 5.1).
ghost use Rattle.std.specs.Prelude.{◌≡◌};
ghost use Rattle.c_formats.specs.Items.{Takes, left};
ghost use Rattle.c_formats.specs.RevokedLists.{IsList, IsReason, IsRevoked, list_fault};
ghost use Rattle.c_values.specs.Faults.{Reads, value_fault};
ghost use Rattle.x509.specs.Crl.Lists.{certificate_list_of, field_fault as crl_fault, revoked_certificate};
ghost use Rattle.x509.specs.Crl.Lists.{revoked_of, whole_list};
ghost use Rattle.x509.specs.Crl.Reasons.{CRLReason};
ghost use Rattle.der_base.specs.declared.rules.Rules.TheVariants.{Der};
ghost use Rattle.der_cursor.specs.Formats.{Never, ReadsInput};
ghost use Rattle.x509.specs.Lists.{YieldsNext};
ghost use Rattle.x509.specs.Readers.{ReadsExactly};

use c_formats::revoked::{
    DmCertificateList, DmRevoked, next_entry, write, write_entry, write_reason,
};
use c_values::fault::DmFault;
use c_values::octets::DmOctets;
use x509::crl::{read_certificate_list, read_reason};

/// Reads a CRL by DER; trailing data is an error. Returns the fault's status.
#[unsafe(no_mangle)]
pub extern "C" fn dm_read_certificate_list<'a>(
    input: &'a [u8],
    list: &mut DmCertificateList<'a>,
    fault: &mut DmFault,
) -> u32
    ensures exactly { Reads (ReadsExactly crl_fault certificate_list_of whole_list input.now) IsList list_fault
        list.old list.new fault.new }
    ensures status { result ≡ fault.new.status }
{
    *fault = write(read_certificate_list(input), list);
    fault.status
}

/// Reads the number of a reasonCode (RFC 5280 5.3.1) by DER. Returns the fault's status.
#[unsafe(no_mangle)]
pub extern "C" fn dm_read_reason(value: &[u8], reason: &mut u32, fault: &mut DmFault) -> u32
    ensures exactly { Reads (ReadsInput Der CRLReason (λ v. v) Never value.now) IsReason value_fault
        reason.old reason.new fault.new }
    ensures status { result ≡ fault.new.status }
{
    *fault = write_reason(read_reason(value), reason);
    fault.status
}

/// Takes the next entry of a CRL. Returns 1, or 0 if there is none.
#[unsafe(no_mangle)]
pub extern "C" fn dm_next_revoked<'a>(revoked: &mut DmOctets<'a>, entry: &mut DmRevoked<'a>) -> u32
    ensures { Takes (λ r. YieldsNext left revoked_of revoked_certificate revoked.old r revoked.new)
        IsRevoked entry.old entry.new result }
{
    write_entry(next_entry(revoked), entry)
}
