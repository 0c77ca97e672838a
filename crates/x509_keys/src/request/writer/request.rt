//! Certification requests (RFC 2986 4.1).
ghost use Rattle.der_writer.specs.Written.{Puts, Wrote};
ghost use Rattle.x509_keys.specs.Request.Writer.Octets.{attribute_octets, request_octets};

use crate::request::writer::algorithm::{PublicKeyInfo, put_public_key_info};
use crate::request::writer::alternative_names::put_extension_request;
use crate::request::writer::name::{NameAttribute, put_name};
use der_writer::{WriteError, Writer};

/// The version number v1 (RFC 2986 4.1).
const VERSION_1: u32 = 0;

/// The tag number of the attributes.
const ATTRIBUTES: u32 = 0;

/// The content of a CSR: its CertificationRequestInfo (RFC 2986 4.1).
///
/// ```
/// let info = RequestInfo {
///     subject: &[common_name],
///     key_info: PublicKeyInfo::Key { algorithm: ed25519, key },
///     dns_names: &["example.org", "www.example.org"],
/// };
/// let size = write_request_info(&mut buffer, &info)?;
/// ```
#[derive(Clone, Copy, Debug, Drop)]
pub struct RequestInfo<'a> {
    /// The attributes of the subject's name, the root first.
    pub subject: &'a [NameAttribute<'a>],
    pub key_info: PublicKeyInfo<'a>,
    /// The requested DNS names, in IA5String. If empty, there is no attribute.
    pub dns_names: &'a [&'a str],
}

/// Writes a CertificationRequestInfo, the octets to sign.
pub fn write_request_info(out: &mut [u8], info: &RequestInfo<'_>) -> Result<usize, WriteError>
    ensures { Wrote (request_octets info.now) out.old out.new result }
{
    let mut fields = Writer::new(out);
    put_request_info(&mut fields, info);
    fields.finish()
}

/// Puts a CertificationRequestInfo into a writer.
pub fn put_request_info(fields: &mut Writer<'_>, info: &RequestInfo<'_>)
    ensures { Puts (request_octets info.now) fields.old fields.new }
{
    let sequence = fields.open_sequence();
    fields.put_u32(VERSION_1);
    put_name(fields, info.subject);
    put_public_key_info(fields, &info.key_info);
    let attributes = fields.open_tagged(ATTRIBUTES);
    put_attributes(fields, info.dns_names);
    fields.close(attributes);
    fields.close(sequence);
}

/// Puts the attributes of a CSR: extensionRequest, if there are DNS names.
fn put_attributes(fields: &mut Writer<'_>, dns_names: &[&str])
    ensures { Puts (attribute_octets dns_names.now) fields.old fields.new }
{
    if dns_names.is_empty() {
        fields.put_elements(&[]);
    } else {
        put_extension_request(fields, dns_names);
    }
}
