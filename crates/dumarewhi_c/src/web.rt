//! Calls that read values of extensions of the web: RFC 6962, RFC 7633, RFC 6960, RFC 3739, and the EV Guidelines of
//! the CA/B Forum.
ghost use Rattle.std.specs.Prelude.{◌≡◌};
ghost use Rattle.c_formats.specs.ExtensionValues.{IsOctets};
ghost use Rattle.c_formats.specs.ExtensionLists.{HasItems};
ghost use Rattle.c_formats.specs.Items.{Takes, left};
ghost use Rattle.c_formats.specs.Web.{IsFeature, IsOrganization, IsStatement, IsTimestamps, features_octets};
ghost use Rattle.c_formats.specs.Web.{statements_octets};
ghost use Rattle.c_values.specs.Cursors.{IsNull};
ghost use Rattle.c_values.specs.Faults.{Reads, value_fault};
ghost use Rattle.der_base.specs.declared.rules.Rules.TheVariants.{Der};
ghost use Rattle.der_cursor.specs.Formats.{Never, Null, ReadsInput, Required};
ghost use Rattle.der_extensions.specs.Lists.{YieldsNext};
ghost use Rattle.der_extensions.specs.WebExtensions.{CABFOrganizationIdentifier as OrganizationFormat, Feature};
ghost use Rattle.der_extensions.specs.WebExtensions.{Features, QCStatement as StatementFormat, QCStatements};
ghost use Rattle.der_extensions.specs.WebExtensions.{Timestamps, Vector, feature_of, organization_identifier_of};
ghost use Rattle.der_extensions.specs.WebExtensions.{statement_of, timestamps_octets};

use c_formats::lists::next_item;
use c_formats::web::{
    DmOrganizationIdentifier, DmQcStatement, next_timestamp, null_fault, write_feature,
    write_organization, write_statement, write_timestamp, write_timestamps,
};
use c_formats::writing::write_list;
use c_values::fault::DmFault;
use c_values::octets::DmOctets;
use der_base::error::BerError;
use der_extensions::{
    QcStatement, TlsFeature, read_null, read_organization_identifier, read_qc_statements,
    read_signed_certificate_timestamps, read_tls_features,
};

/// Reads the timestamps of an SCT list (RFC 6962 3.3) by DER: each behind its number of octets. Returns the fault's
/// status.
#[unsafe(no_mangle)]
pub extern "C" fn dm_read_signed_certificate_timestamps<'a>(
    value: &'a [u8],
    timestamps: &mut DmOctets<'a>,
    fault: &mut DmFault,
) -> u32
    ensures exactly { Reads (ReadsInput Der Timestamps timestamps_octets Never value.now) IsTimestamps value_fault
        timestamps.old timestamps.new fault.new }
    ensures status { result ≡ fault.new.status }
{
    *fault = write_timestamps(read_signed_certificate_timestamps(value), timestamps);
    fault.status
}

/// Takes the next timestamp (3.2): its octets.
#[unsafe(no_mangle)]
pub extern "C" fn dm_next_timestamp<'a>(
    timestamps: &mut DmOctets<'a>,
    timestamp: &mut DmOctets<'a>,
) -> u32
    ensures { Takes (λ r. YieldsNext left (λ x. x.now) Vector timestamps.old r timestamps.new)
        IsOctets timestamp.old timestamp.new result }
{
    write_timestamp(next_timestamp(timestamps), timestamp)
}

/// Reads the value of an OCSP no-check (RFC 6960 4.2.2.2.1) or of the poison of a precertificate (RFC 6962 3.1) by DER:
/// a NULL. Returns the fault's status.
#[unsafe(no_mangle)]
pub extern "C" fn dm_read_null_extension(value: &[u8], fault: &mut DmFault) -> u32
    ensures exactly { Reads (ReadsInput Der Null (λ x. x) Never value.now) IsNull value_fault tt tt fault.new }
    ensures status { result ≡ fault.new.status }
{
    *fault = null_fault(read_null(value));
    fault.status
}

/// Reads the numbers of a TLS feature (RFC 7633 4.1) by DER. Returns the fault's status.
#[unsafe(no_mangle)]
pub extern "C" fn dm_read_tls_features<'a>(
    value: &'a [u8],
    features: &mut DmOctets<'a>,
    fault: &mut DmFault,
) -> u32
    ensures exactly { Reads (ReadsInput Der Features features_octets Never value.now) HasItems value_fault
        features.old features.new fault.new }
    ensures status { result ≡ fault.new.status }
{
    *fault = write_list(read_tls_features(value), features);
    fault.status
}

/// Takes the next feature: its number.
#[unsafe(no_mangle)]
pub extern "C" fn dm_next_tls_feature(features: &mut DmOctets<'_>, number: &mut u32) -> u32
    ensures { Takes (λ r. YieldsNext left feature_of (Required Feature) features.old r features.new)
        IsFeature number.old number.new result }
{
    write_feature(next_item::<TlsFeature, BerError>(features), number)
}

/// Reads the statements of a qcStatements by DER. Returns the fault's status.
#[unsafe(no_mangle)]
pub extern "C" fn dm_read_qc_statements<'a>(
    value: &'a [u8],
    statements: &mut DmOctets<'a>,
    fault: &mut DmFault,
) -> u32
    ensures exactly { Reads (ReadsInput Der QCStatements statements_octets Never value.now) HasItems value_fault
        statements.old statements.new fault.new }
    ensures status { result ≡ fault.new.status }
{
    *fault = write_list(read_qc_statements(value), statements);
    fault.status
}

/// Takes the next statement.
#[unsafe(no_mangle)]
pub extern "C" fn dm_next_qc_statement<'a>(
    statements: &mut DmOctets<'a>,
    statement: &mut DmQcStatement<'a>,
) -> u32
    ensures { Takes (λ r. YieldsNext left statement_of (Required StatementFormat) statements.old r statements.new)
        IsStatement statement.old statement.new result }
{
    write_statement(
        next_item::<QcStatement<'a>, BerError>(statements),
        statement,
    )
}

/// Reads the value of a cabfOrganizationIdentifier by DER. Returns the fault's status.
#[unsafe(no_mangle)]
pub extern "C" fn dm_read_organization_identifier<'a>(
    value: &'a [u8],
    identifier: &mut DmOrganizationIdentifier<'a>,
    fault: &mut DmFault,
) -> u32
    ensures exactly { Reads (ReadsInput Der OrganizationFormat organization_identifier_of Never value.now)
        IsOrganization value_fault identifier.old identifier.new fault.new }
    ensures status { result ≡ fault.new.status }
{
    *fault = write_organization(read_organization_identifier(value), identifier);
    fault.status
}
