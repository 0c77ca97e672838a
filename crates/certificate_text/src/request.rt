//! Certification requests (RFC 2986).
ghost use Rattle.std.specs.Prelude.{◌≡◌, ◌↔◌, IsTrue, Some};
ghost use Rattle.std.specs.Fmt.{DisplaysOnOk};
ghost use Rattle.der_cursor.specs.Elements.{element_of};
ghost use Rattle.der_print.specs.Writes.{WritesOne};
ghost use Rattle.der_values.specs.Kinds.{borrowed_octets};
ghost use Rattle.x509_keys.specs.Request.Requests.{attribute_of, info_of, request_of};
ghost use Rattle.certificate_text.specs.Requests.{AreAttributes, AreValues, IsOtherAttribute, IsRequestAttribute};
ghost use Rattle.certificate_text.specs.Requests.{IsPassword, IsRequestBody, IsRequestText, IsRequested};
ghost use Rattle.certificate_text.specs.Requests.{IsUnrequested, challenge_password_octets};
ghost use Rattle.certificate_text.specs.Requests.{extension_request_octets, value_line};

use crate::key::write_key;
use crate::seal::write_signature;
use der_base::any::Any;
use der_values::ObjectIdentifier;
use extension_text::extension::write_extensions;
use extension_text::names::element::AnyValue;
use extension_text::names::identifier::write_identifier_line;
use extension_text::names::name::write_name_line;
use std::fmt;
use x509::absolute_octets;
use x509_keys::request::{
    Attribute, Attributes, CertificationRequest, CertificationRequestInfo, Values,
    read_challenge_password, read_extension_request,
};

/// extensionRequest: 1.2.840.113549.1.9.14 (RFC 2985 5.4.2).
const EXTENSION_REQUEST: &[u8] = b"\x2a\x86\x48\x86\xf7\x0d\x01\x09\x0e";

/// challengePassword: 1.2.840.113549.1.9.7 (RFC 2985 5.4.1).
const CHALLENGE_PASSWORD: &[u8] = b"\x2a\x86\x48\x86\xf7\x0d\x01\x09\x07";

/// The summary of a certification request.
#[derive(Clone, Copy)]
pub struct RequestText<'r, 'a> {
    pub request: &'r CertificationRequest<'a>,
}

impl fmt::Display for RequestText<'_, '_> {
    fn fmt<W: fmt::Write>(&self, f: &mut fmt::Formatter<W>) -> fmt::Result {
        write_request(f, self.request)
    }
}

/// Writes the summary of a certification request.
pub fn write_request<W: fmt::Write>(
    f: &mut fmt::Formatter<W>,
    request: &CertificationRequest<'_>,
) -> fmt::Result
    ensures { WritesOne W.Write.write_str_gives f.old result (IsRequestText (request_of request.now)) f.new }
{
    f.write_str("Certification request\n")?;
    write_info(f, &request.info)?;
    write_identifier_line(
        f,
        "  Signature algorithm: ",
        &request.signature_algorithm.algorithm,
    )?;
    write_signature(f, request.signature.octets)
}

/// Writes the signed fields, without the version: there is only one.
fn write_info<W: fmt::Write>(
    f: &mut fmt::Formatter<W>,
    info: &CertificationRequestInfo<'_>,
) -> fmt::Result
    ensures { WritesOne W.Write.write_str_gives f.old result (IsRequestBody (info_of info.now)) f.new }
{
    f.write_str("  Version: 1\n")?;
    write_name_line(f, "  Subject: ", info.subject)?;
    write_key(f, &info.subject_public_key_info)?;
    write_attributes(f, info.attributes)
}

fn write_attributes<W: fmt::Write>(
    f: &mut fmt::Formatter<W>,
    attributes: Attributes<'_>,
) -> fmt::Result
    ensures { WritesOne W.Write.write_str_gives f.old result (AreAttributes attributes.entry.octets.now) f.new }
{
    for attribute in attributes.iter() {
        write_attribute(f, &attribute)?;
    }
    Ok(())
}

/// Writes the requested extensions, a password, or another attribute.
fn write_attribute<W: fmt::Write>(
    f: &mut fmt::Formatter<W>,
    attribute: &Attribute<'_>,
) -> fmt::Result
    ensures { WritesOne W.Write.write_str_gives f.old result (IsRequestAttribute (attribute_of attribute.now)) f.new }
{
    if is_extension_request(&attribute.identifier) {
        return write_requested(f, attribute);
    }
    write_unrequested(f, attribute)
}

fn is_extension_request(identifier: &ObjectIdentifier<'_>) -> bool
    ensures { IsTrue result ↔ (borrowed_octets identifier.now ≡ extension_request_octets) }
{
    absolute_octets(identifier) == EXTENSION_REQUEST
}

/// Writes the requested extensions, or values that aren't any.
fn write_requested<W: fmt::Write>(
    f: &mut fmt::Formatter<W>,
    attribute: &Attribute<'_>,
) -> fmt::Result
    ensures { WritesOne W.Write.write_str_gives f.old result (IsRequested (attribute_of attribute.now)) f.new }
{
    match read_extension_request(attribute.values) {
        Ok(extensions) => write_extensions(f, "  Requested extensions\n", extensions),
        Err(_) => write_other(f, attribute),
    }
}

/// Writes a password, or another attribute.
fn write_unrequested<W: fmt::Write>(
    f: &mut fmt::Formatter<W>,
    attribute: &Attribute<'_>,
) -> fmt::Result
    ensures { WritesOne W.Write.write_str_gives f.old result (IsUnrequested (attribute_of attribute.now)) f.new }
{
    if is_challenge_password(&attribute.identifier) {
        return write_password(f, attribute);
    }
    write_other(f, attribute)
}

fn is_challenge_password(identifier: &ObjectIdentifier<'_>) -> bool
    ensures { IsTrue result ↔ (borrowed_octets identifier.now ≡ challenge_password_octets) }
{
    absolute_octets(identifier) == CHALLENGE_PASSWORD
}

/// Writes the challenge password, or values that aren't one.
fn write_password<W: fmt::Write>(
    f: &mut fmt::Formatter<W>,
    attribute: &Attribute<'_>,
) -> fmt::Result
    ensures { WritesOne W.Write.write_str_gives f.old result (IsPassword (attribute_of attribute.now)) f.new }
{
    match read_challenge_password(attribute.values) {
        Ok(element) => write!(f, "  Challenge password: {}\n", AnyValue { element }),
        Err(_) => write_other(f, attribute),
    }
}

/// Writes an attribute and its values.
fn write_other<W: fmt::Write>(f: &mut fmt::Formatter<W>, attribute: &Attribute<'_>) -> fmt::Result
    ensures { WritesOne W.Write.write_str_gives f.old result (IsOtherAttribute (attribute_of attribute.now)) f.new }
{
    write_identifier_line(f, "  Attribute: ", &attribute.identifier)?;
    write_values(f, attribute.values)
}

fn write_values<W: fmt::Write>(f: &mut fmt::Formatter<W>, values: Values<'_>) -> fmt::Result
    ensures { WritesOne W.Write.write_str_gives f.old result (AreValues values.entry.octets.now) f.new }
{
    for value in values.iter() {
        write_value(f, value)?;
    }
    Ok(())
}

fn write_value<W: fmt::Write>(f: &mut fmt::Formatter<W>, element: Any<'_>) -> fmt::Result
    ensures { DisplaysOnOk W.Write.write_str_gives f.old result (Some (value_line (element_of element.entry))) f.new }
{
    write!(f, "    Value: {}\n", AnyValue { element })
}
