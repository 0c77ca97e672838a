//! Values of extensions of the web: RFC 6962, RFC 7633, RFC 6960, RFC 3739, and the EV Guidelines of the CA/B Forum.
ghost use Rattle.std.specs.Prelude.{◌≡◌, ℕ, List, [], length};
ghost use Rattle.std.specs.Option.{option_map, unwrap_or};
ghost use Rattle.c_formats.specs.ExtensionValues.{IsOctets};
ghost use Rattle.c_formats.specs.Items.{Taken, left};
ghost use Rattle.c_formats.specs.Web.{HasOrganization, HasStatement, IsFeature, IsOrganization, IsStatement};
ghost use Rattle.c_formats.specs.Web.{IsTimestamps};
ghost use Rattle.c_values.specs.Cursors.{IsNull};
ghost use Rattle.c_values.specs.Faults.{Written, value_fault};
ghost use Rattle.der_base.specs.declared.rules.Rules.TheVariants.{Der};
ghost use Rattle.der_extensions.specs.Lists.{YieldsNext};
ghost use Rattle.der_extensions.specs.WebExtensions.{Vector, organization_identifier_of, statement_of};

use c_values::any::{DmAny, optional_any};
use c_values::element::bit;
use c_values::fault::{DmFault, field_fault, no_fault};
use c_values::octets::DmOctets;
use c_values::parts::identifier_octets;
use der_base::error::BerError;
use der_cursor::ReadError;
use der_extensions::{
    OrganizationIdentifier, QcStatement, SignedCertificateTimestamps, TlsFeature,
};

/// A statement about a qualified certificate (RFC 3739 3.2.6). Octets are slices of the value.
#[repr(C)]
#[derive(Clone, Copy)]
pub struct DmQcStatement<'a> {
    /// The content octets of the statement's OID.
    pub identifier: &'a [u8],
    /// The content of the statement, which isn't read further.
    pub info: DmAny<'a>,
    /// 1 if there is more than the OID, else 0.
    pub has_info: u32,
    /// 0.
    pub reserved: u32,
}

/// The registration of an organization (EV Guidelines 9.8.2). Texts are slices of the value.
#[repr(C)]
#[derive(Clone, Copy)]
pub struct DmOrganizationIdentifier<'a> {
    /// The registration scheme, three characters.
    pub scheme: &'a [u8],
    /// The country of the register, two characters.
    pub country: &'a [u8],
    /// The state or province of the register.
    pub state_or_province: &'a [u8],
    /// The organization's number in the register, in UTF-8.
    pub reference: &'a [u8],
    /// 1 if there is a state or province, else 0.
    pub has_state_or_province: u32,
    /// 0.
    pub reserved: u32,
}

/// Writes an SCT list, or returns the fault.
pub fn write_timestamps<'a>(
    found: Result<SignedCertificateTimestamps<'a>, ReadError<BerError>>,
    timestamps: &mut DmOctets<'a>,
) -> DmFault
    ensures { Written IsTimestamps value_fault found.entry timestamps.old timestamps.new result }
{
    match found {
        Ok(found) => {
            timestamps.octets = found.octets;
            no_fault()
        }
        Err(e) => field_fault(0, e),
    }
}

/// Writes a timestamp. Returns 1, or 0 if there is none.
pub fn write_timestamp<'a>(found: Option<&'a [u8]>, timestamp: &mut DmOctets<'a>) -> u32
    ensures { Taken IsOctets found.entry timestamp.old timestamp.new result }
{
    match found {
        Some(found) => {
            timestamp.octets = found;
            1
        }
        None => 0,
    }
}

/// Takes the next timestamp from the list.
pub fn next_timestamp<'a>(timestamps: &mut DmOctets<'a>) -> Option<&'a [u8]>
    ensures { YieldsNext left (λ x. x.now) Vector timestamps.old result timestamps.new }
{
    let list = SignedCertificateTimestamps {
        octets: timestamps.octets,
    };
    let Some(timestamp) = list.iter().next() else {
        return None;
    };
    timestamps.octets = behind(timestamps.octets, timestamp.len());
    Some(timestamp)
}

/// The octets after a timestamp of `count` octets. The count is before them, in two octets (RFC 5246 4.3).
fn behind<'a>(timestamps: &'a [u8], count: usize) -> &'a [u8]
    ensures { (w : List ℕ) → (rest : List ℕ) → Vector Der timestamps.now w rest → (length w ≡ count)
        → result.now ≡ rest }
{
    let [_, _, following @ ..] = timestamps else {
        return &[];
    };
    match following.split_at_checked(count) {
        Some((_, rest)) => rest,
        None => &[],
    }
}

/// The fault of a value that must be NULL.
pub fn null_fault(found: Result<(), ReadError<BerError>>) -> DmFault
    ensures { Written IsNull value_fault found tt tt result }
{
    match found {
        Ok(()) => no_fault(),
        Err(e) => field_fault(0, e),
    }
}

/// Writes a TLS feature. Returns 1, or 0 if there is none.
pub fn write_feature(found: Option<TlsFeature>, number: &mut u32) -> u32
    ensures { Taken IsFeature found number.old number.new result }
{
    match found {
        Some(found) => {
            *number = found.number;
            1
        }
        None => 0,
    }
}

/// Writes a statement. Returns 1, or 0 if there is none.
pub fn write_statement<'a>(found: Option<QcStatement<'a>>, statement: &mut DmQcStatement<'a>) -> u32
    ensures { Taken IsStatement found.entry statement.old statement.new result }
{
    match found {
        Some(found) => {
            *statement = statement_fields(found);
            1
        }
        None => 0,
    }
}

/// The C struct of a statement.
fn statement_fields<'a>(found: QcStatement<'a>) -> DmQcStatement<'a>
    ensures { HasStatement (statement_of found.entry) result }
{
    DmQcStatement {
        identifier: identifier_octets(found.statement_id),
        has_info: bit(found.statement_info.is_some()).into(),
        info: optional_any(found.statement_info),
        reserved: 0,
    }
}

/// Writes a cabfOrganizationIdentifier, or returns the fault.
pub fn write_organization<'a>(
    found: Result<OrganizationIdentifier<'a>, ReadError<BerError>>,
    identifier: &mut DmOrganizationIdentifier<'a>,
) -> DmFault
    ensures { Written IsOrganization value_fault found.entry identifier.old identifier.new result }
{
    match found {
        Ok(found) => {
            *identifier = organization_fields(found);
            no_fault()
        }
        Err(e) => field_fault(0, e),
    }
}

fn organization_fields<'a>(found: OrganizationIdentifier<'a>) -> DmOrganizationIdentifier<'a>
    ensures { HasOrganization (organization_identifier_of found.entry) result }
{
    DmOrganizationIdentifier {
        scheme: found.registration_scheme_identifier.as_bytes(),
        country: found.registration_country.as_bytes(),
        state_or_province: text_octets(found.registration_state_or_province),
        reference: found.registration_reference.as_bytes(),
        has_state_or_province: bit(found.registration_state_or_province.is_some()).into(),
        reserved: 0,
    }
}

/// The octets of a text; empty if there is none.
fn text_octets<'a>(text: Option<&'a str>) -> &'a [u8]
    ensures { result.now ≡ unwrap_or (option_map (λ v. v.now) text.entry) [] }
{
    match text {
        Some(text) => text.as_bytes(),
        None => &[],
    }
}
